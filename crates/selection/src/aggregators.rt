ghost use Rattle.std.specs.Prelude.{◌≡◌, ◌≤◌, ◌&&◌, IfOk, IfSome, IsSomeAnd, None, filter, length, replicate, true};
ghost use Rattle.std.specs.List.{list_all, list_any};
ghost use Rattle.std.specs.List.Sorted.{IsStrictlyIncreasing};
ghost use Rattle.selection.specs.Views.{has_waited, is_detached_or_waiting};
ghost use Rattle.selection.specs.Choice.{chosen_if_eligible, ports_that_chose, first_65535};

use crate::limits::{StandbyRow, is_below, lowest_standby, member_count};
use crate::standings::{Standing, Standings};
use crate::view::{PortView, find_view};
use arrayvec::ArrayVec;
use lagtypes::{AggId, Key, NoMemory};
use std::alloc::Global;
use std::marker::Model;

/// The aggregators of a system, by their keys; they are numbered from 1 (6.4.6; profile).
#[derive(Debug, Drop)]
pub struct Aggregators {
    keys: Vec<Key>,
    /// How many members each may have; None: any number.
    max_links: Option<u16>,
    /// Whether each is in use, in the order of the keys.
    in_use: Vec<bool>,
}

impl Model for Aggregators {
    ghost use Rattle.std.specs.Prelude.{◌≡◌, ◌≤◌, length};
    ghost use Rattle.selection.specs.Limits.{AggregatorsValue};

    ghost Value = { AggregatorsValue };

    ghost view = { λ a. record { keys = a.keys.items; max_links = a.max_links; in_use = a.in_use.items } };

    ghost invariant = { λ a. (length a.keys.items ≤ 65535) × (length a.in_use.items ≡ length a.keys.items) };
}

impl Aggregators {
    ghost use Rattle.selection.specs.Joining.{MayJoin};
    ghost use Rattle.selection.specs.Limits.{IsNext, IsNumberOfNext, has_room, next_standby, next_standby_index, next_standby_row};
    ghost use Rattle.selection.specs.Limits.{is_in_use, with_use};
    ghost use Rattle.selection.specs.Views.{AreViews, numbers, find_view};
    ghost use Rattle.selection.specs.Choice.{chosen_aggregator, is_aggregator};
    ghost use Rattle.selection.specs.Ready.{is_ready, members};

    // promise: the keys are kept, at most the first 65,535; the limit is the one that was asked for
    // contract: `Aggregators::new` (`unlimited`), `with_limit` (`first`, `all`, `limit`), `max_links`
    /// Makes aggregators 1, 2 and so on with these keys, each for any number of links. Keys after the first 65535 are
    /// left out. `NoMemory` if memory for them is refused (profile).
    pub fn new(alloc: Global, keys: &[Key]) -> Result<Aggregators, NoMemory>
        ensures first { IfOk result (λ a. a.keys ≡ first_65535 keys.now) }
        ensures all { IfOk result (λ a. length keys.now ≤ 65535 → a.keys ≡ keys.now) }
        ensures unlimited { IfOk result (λ a. a.max_links ≡ None) }
    {
        Aggregators::with_limit(alloc, keys, None)
    }

    /// Makes aggregators as `new` does, with a limit: one that has `max_links` members or more has no room; None is no limit.
    /// Each is in use. Keys after the first 65535 are left out. `NoMemory` if memory for them is refused (profile).
    pub fn with_limit(
        alloc: Global,
        keys: &[Key],
        max_links: Option<u16>,
    ) -> Result<Aggregators, NoMemory>
        ensures first { IfOk result (λ a. a.keys ≡ first_65535 keys.now) }
        ensures all { IfOk result (λ a. length keys.now ≤ 65535 → a.keys ≡ keys.now) }
        ensures limit { IfOk result (λ a. a.max_links ≡ max_links) }
        ensures used { IfOk result (λ a. a.in_use ≡ replicate (length a.keys) true) }
    {
        let keys = Vec::from_slice(alloc, first_65535(keys))?;
        let in_use = vec![in alloc; true; keys.len()]?;
        Ok(Aggregators {
            keys,
            max_links,
            in_use,
        })
    }

    // promise: the choice is that of `Choice`, by filters over all views; a port without a view or not eligible gets none
    // contract: `choose` (`exact`)
    // promise: a port that gets an aggregator was in none, its partner's system is not its own, the aggregator has its key, and no
    //    occupant, or all occupants name the port's unordered pair of ends and the link is not individual
    // contract: `choose` (`joins`)
    /// The aggregator that the port with this number chooses: the lowest one that has the port's key and at least one
    /// occupant, a SELECTED or STANDBY port that was given it, if all occupants have the port's group (LAG ID) and the
    /// group is not Individual; else the lowest one with that key and no occupant; else None (profile). None also if
    /// there is no view of the port, or if it is not eligible.
    pub fn choose(&self, views: &[PortView], port: u16) -> Option<AggId>
        ensures exact { result ≡ chosen_aggregator self.now.keys views.now port }
        ensures joins { IfSome result (λ agg. IsSomeAnd (find_view views.now port) (MayJoin self.now.keys views.now agg)) }
    {
        match find_view(views, port) {
            Some(view) if view.is_eligible() => choose_if_eligible(
                self.keys.as_slice(),
                views,
                &view,
            ),
            _ => None,
        }
    }

    // promise: Ready is that of `Ready`, over members alone; false for an unknown aggregator
    // contract: `ready`
    /// Whether the aggregator is Ready: at least one member is in DETACHED or WAITING, and each member in one of these
    /// is in WAITING with wait_while expired (6.4.14). False if there is no such aggregator.
    pub fn ready(&self, views: &[PortView], agg: AggId) -> bool
        ensures { result ≡ is_ready self.now.keys views.now agg }
    {
        self.is_aggregator(agg)
            && any_detached_or_waiting(views, agg)
            && all_have_waited(views, agg)
    }

    // promise: the members are the SELECTED ports of the aggregator, strictly ascending
    // contract: `members` (`exact`, `ascending`)
    /// The numbers of the SELECTED ports that were given this aggregator, ascending. Empty if there is no such
    /// aggregator (6.4.14; profile).
    pub fn members(&self, views: &[PortView], agg: AggId) -> ArrayVec<u16, 64>
        requires { AreViews views.now }
        ensures exact { result.items ≡ numbers (members self.now.keys views.now agg) }
        ensures ascending { IsStrictlyIncreasing result.items }
    {
        let mut found = ArrayVec::new();
        if self.is_aggregator(agg) {
            for view in views {
                if view.has_chosen(agg) {
                    found.push(view.number);
                }
            }
        }
        found
    }

    // promise: an aggregator has room exactly if it exists, is in use and has fewer members than the limit
    // contract: `room` (`has_room`)
    /// Whether there is such an aggregator, it is in use, and it has fewer members than the limit (profile).
    pub fn room(&self, views: &[PortView], agg: AggId) -> bool
        ensures { result ≡ has_room self.now views.now agg }
    {
        self.is_in_use(agg) && is_below(self.max_links, member_count(views, agg))
    }

    // promise: the STANDBY port that comes next is that of `Limits`: none without room; no other STANDBY port of the aggregator has a lower
    //    identifier
    // contract: `next_standby`, `next_standby_index` (`exact`, `next`)
    /// The number of the STANDBY port that comes next in the aggregator: the one with the lowest port identifier. None
    /// without room or without a STANDBY port (6.4.14; profile).
    pub fn next_standby(&self, views: &[PortView], agg: AggId) -> Option<u16>
        ensures exact { result ≡ next_standby self.now views.now agg }
        ensures next { IfSome result (λ number. IsNumberOfNext self.now views.now agg number) }
    {
        match self.next_standby_row(views, agg) {
            Some(row) => Some(row.port.number),
            None => None,
        }
    }

    /// The index in `views` of the port that `next_standby` names; None if it names none.
    pub fn next_standby_index(&self, views: &[PortView], agg: AggId) -> Option<usize>
        ensures exact { result ≡ next_standby_index self.now views.now agg }
        ensures next { IfSome result (λ index. IsNext self.now views.now agg index) }
    {
        match self.next_standby_row(views, agg) {
            Some(row) => Some(row.index),
            None => None,
        }
    }

    /// The STANDBY port that comes next in the aggregator, with its index in `views`; None without room or without a STANDBY port.
    fn next_standby_row(&self, views: &[PortView], agg: AggId) -> Option<StandbyRow>
        ensures { result ≡ next_standby_row self.now views.now agg }
    {
        if self.room(views, agg) {
            lowest_standby(views, agg)
        } else {
            None
        }
    }

    /// How many members each aggregator may have; None: any number (profile).
    pub fn max_links(&self) -> Option<u16>
        ensures { result ≡ self.now.max_links }
    {
        self.max_links
    }

    /// Sets how many members each aggregator may have; None: any number (profile).
    pub fn set_max_links(&mut self, max_links: Option<u16>)
        ensures { self.new ≡ record self.old { max_links = max_links } }
    {
        self.max_links = max_links;
    }

    // promise: each aggregator is in use until `set_in_use` says otherwise, which changes nothing else
    // contract: `with_limit` (`used`), `set_in_use`, `is_in_use`
    /// Puts an aggregator in use, or out of use: one that is not in use has no room. Nothing changes if there is no such aggregator
    /// (profile).
    pub fn set_in_use(&mut self, agg: AggId, in_use: bool)
        ensures { self.new ≡ record self.old { in_use = with_use self.old.keys agg in_use self.old.in_use } }
    {
        if self.is_aggregator(agg) {
            let place = usize::from(agg.0) - 1;
            self.in_use[place] = in_use;
        }
    }

    /// Whether there is such an aggregator and it is in use (profile).
    pub fn is_in_use(&self, agg: AggId) -> bool
        ensures { result ≡ (is_aggregator self.now.keys agg && is_in_use self.now.in_use agg) }
    {
        self.is_aggregator(agg) && self.in_use[usize::from(agg.0) - 1]
    }

    /// How many aggregators there are, at most 65535 (profile).
    pub fn count(&self) -> usize
        ensures exact { result ≡ length self.now.keys }
        ensures few { result ≤ 65535 }
    {
        self.keys.len()
    }

    /// Whether there is such an aggregator.
    fn is_aggregator(&self, agg: AggId) -> bool
        ensures { result ≡ is_aggregator self.now.keys agg }
    {
        1 <= agg.0 && agg.0 as usize <= self.keys.len()
    }
}

/// The first 65535 keys: aggregator numbers have 16 bits.
fn first_65535(keys: &[Key]) -> &[Key]
    ensures first { result.now ≡ first_65535 keys.now }
    ensures all { length keys.now ≤ 65535 → result.now ≡ keys.now }
    ensures few { length result.now ≤ 65535 }
{
    if keys.len() <= 65535 {
        keys
    } else {
        &keys[..65535]
    }
}

/// Whether some member of the aggregator is in DETACHED or WAITING.
fn any_detached_or_waiting(views: &[PortView], agg: AggId) -> bool
    ensures { result ≡ list_any (λ v. is_detached_or_waiting v.stage) (ports_that_chose agg views.now) }
{
    views
        .iter()
        .filter(|view| view.has_chosen(agg))
        .any(|view| view.is_detached_or_waiting())
}

/// Whether each member that is in DETACHED or WAITING is in WAITING with wait_while expired.
fn all_have_waited(views: &[PortView], agg: AggId) -> bool
    ensures { result ≡ list_all (λ v. has_waited v.stage) (filter (λ v. is_detached_or_waiting v.stage) (ports_that_chose agg views.now)) }
{
    views
        .iter()
        .filter(|view| view.has_chosen(agg))
        .filter(|view| view.is_detached_or_waiting())
        .all(|view| view.has_waited())
}

/// The lowest aggregator that an eligible port can join, else the lowest one with no occupant.
fn choose_if_eligible(keys: &[Key], views: &[PortView], port: &PortView) -> Option<AggId>
    requires { length keys.now ≤ 65535 }
    ensures { result ≡ chosen_if_eligible keys.now views.now port.now }
{
    let mut standings = Standings::after(0, views, port);
    let mut empty = None;
    let mut number = 0;
    for key in keys {
        number += 1;
        let agg = AggId(number);
        if *key == port.party.key {
            match standings.of(agg, views, port) {
                Standing::Joinable => return Some(agg),
                Standing::Empty if empty.is_none() => empty = Some(agg),
                _ => {}
            }
        }
    }
    empty
}
