ghost use Rattle.std.specs.Prelude.{◌≡◌, None, length};
ghost use Rattle.selection.specs.Choice.{ports_that_chose};
ghost use Rattle.selection.specs.Limits.{is_before, is_below, lowest_standby_from};

use crate::view::PortView;
use lagtypes::AggId;

/// A STANDBY port, with its index among the views.
#[derive(Clone, Copy, Debug)]
pub(crate) struct StandbyRow {
    pub(crate) index: usize,
    pub(crate) port: PortView,
}

/// How many members the aggregator has.
pub(crate) fn member_count(views: &[PortView], agg: AggId) -> usize
    ensures { result ≡ length (ports_that_chose agg views.now) }
{
    views.iter().filter(|view| view.has_chosen(agg)).count()
}

/// Whether one more link may be added to this many.
pub(crate) fn is_below(max_links: Option<u16>, count: usize) -> bool
    ensures { result ≡ is_below max_links count }
{
    match max_links {
        Some(most) => count < usize::from(most),
        None => true,
    }
}

/// Whether the port has a lower port identifier than the best so far, or there is none so far.
fn is_before(view: &PortView, best: &Option<StandbyRow>) -> bool
    ensures { result ≡ is_before view.now best.now }
{
    match best {
        Some(row) => view.party.port.is_below(&row.port.party.port),
        None => true,
    }
}

/// The STANDBY port of the aggregator with the lowest port identifier.
pub(crate) fn lowest_standby(views: &[PortView], agg: AggId) -> Option<StandbyRow>
    ensures { result ≡ lowest_standby_from agg 0 None views.now }
{
    let mut best = None;
    let mut index = 0;
    for view in views {
        if view.stands_by(agg) && is_before(view, &best) {
            best = Some(StandbyRow { index, port: *view });
        }
        index += 1;
    }
    best
}
