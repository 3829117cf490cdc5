ghost use Rattle.std.specs.Prelude.{◌<◌};

use crate::comparing::{same, same_in_row};
use crate::systems::{config, end, lacpdu, mac, marker, modulo, no_partner};
use lagsystem::{AggId, Info, Key, Received, System, SystemFault, SystemId};
use slowpdu::{MarkerKind, frame};
use std::process::Abort;

/// How many frames come.
const FRAMES: u32 = 10_000;

/// A linear congruential generator: it gives the same octets in each run.
#[derive(Drop)]
struct Congruence {
    number: u32,
}

impl Congruence {
    fn octet(&mut self) -> u8 {
        self.number = self
            .number
            .wrapping_mul(1_664_525)
            .wrapping_add(1_013_904_223);
        let [high, _, _, _] = self.number.to_be_bytes();
        high
    }

    fn below(&mut self, count: u8) -> u8
        requires { 0 < count }
        ensures { result < count }
    {
        self.octet() % count
    }

    /// True once in this many times, on average.
    fn one_in(&mut self, count: u8) -> bool
        requires { 0 < count }
    {
        self.below(count) == 0
    }

    fn port(&mut self) -> u16 {
        if self.one_in(2) { 1 } else { 2 }
    }

    fn octets(&mut self) -> [u8; 200] {
        let mut octets = [0; 200];
        for octet in octets.iter_mut() {
            *octet = self.octet();
        }
        octets
    }
}

/// The peers that the frames claim to come from: for port 1 and for port 2, the last octet of the system's MAC address
/// and the key.
#[derive(Clone, Copy)]
struct Peers {
    first: (u8, u16),
    second: (u8, u16),
}

impl Peers {
    /// The peer of a port becomes another one, or stays the same.
    fn wander(&mut self, draw: &mut Congruence, port: u16) {
        let system = if draw.one_in(3) { 3 } else { 2 };
        let key = if draw.one_in(3) { 2 } else { 1 };
        if port == 1 {
            self.first = (system, key);
        } else {
            self.second = (system, key);
        }
    }

    /// The information about the peer of a port, mostly with a state that lets the port distribute.
    fn actor(&self, draw: &mut Congruence, port: u16) -> Info {
        let (system, key) = if port == 1 { self.first } else { self.second };
        let state = if draw.one_in(32) { draw.octet() } else { 0x3f };
        end(system, port, key, state)
    }
}

/// The information about a port as its peer has recorded it, mostly the right one.
fn known(draw: &mut Congruence, port: u16) -> Info {
    if draw.one_in(32) {
        no_partner(0)
    } else {
        end(1, port, 1, draw.octet() | 0x04)
    }
}

/// The others, but these octets instead of the first ones.
fn over(octets: [u8; 200], head: &[u8]) -> [u8; 200] {
    let mut all = octets;
    for (place, octet) in all.iter_mut().zip(head) {
        *place = *octet;
    }
    all
}

/// A marker or a response that names this system or another.
fn marker_frame(draw: &mut Congruence) -> [u8; 124] {
    let kind = if draw.one_in(2) {
        MarkerKind::Information
    } else {
        MarkerKind::Response
    };
    let system = draw.below(3);
    let id = u32::from(draw.below(4));
    frame(mac(9), &marker(kind, draw.port(), system, id).encode())
}

/// Octets that come on a port, and how many of them are the frame.
fn drawn(draw: &mut Congruence, peers: &Peers, port: u16) -> ([u8; 200], u8) {
    let octets = draw.octets();
    let any = draw.below(201);
    let whole = 124 + draw.below(77);
    let actor = peers.actor(draw, port);
    let told = frame(mac(9), &lacpdu(actor, known(draw, port)));
    match draw.below(32) {
        0..=19 => (over(octets, &told), whole),
        20 => (over(octets, &told), any),
        21 => {
            let mut other = over(octets, &told);
            let place = usize::from(draw.below(124));
            other[place] = draw.octet();
            (other, whole)
        }
        22..=24 => (over(octets, &marker_frame(draw)), whole),
        // a header of the slow protocols, and then random octets
        25 => (over(octets, &told[..14]), any),
        26 => (over(octets, &told[..15]), any),
        _ => (octets, any),
    }
}

/// The ticks in which a port sent its last three LACPDUs, the oldest first.
#[derive(Clone, Copy)]
struct Sends {
    last: [Option<u32>; 3],
}

impl Sends {
    /// One more LACPDU is sent in this tick.
    fn add(&mut self, now: u32) {
        let [_, middle, newest] = self.last;
        self.last = [middle, newest, Some(now)];
    }

    /// Whether the last three were all sent in this tick or the ten ticks before it.
    fn is_full(&self, now: u32) -> bool {
        match self.last[0] {
            Some(then) => now.saturating_sub(then) <= 10,
            None => false,
        }
    }
}

/// How often something happened.
#[derive(Clone, Copy, Default)]
struct Happened {
    took: u32,
    ignored: u32,
    responded: u32,
    released: u32,
    up: u32,
    dropped: u32,
    /// Frames after which two ports distribute in one aggregator.
    together: u32,
    /// LACPDUs that were sent, and how many of them were the third in eleven ticks.
    sent: u32,
    full: u32,
}

fn counts(count: &mut u32, one_more: bool) {
    *count = count.saturating_add(u32::from(one_more));
}

impl Happened {
    fn hears(&mut self, answer: Received) {
        match answer {
            Received::TookLacpdu => counts(&mut self.took, true),
            Received::Ignored(_) => counts(&mut self.ignored, true),
            Received::Respond(_) => counts(&mut self.responded, true),
            Received::Released(_) => counts(&mut self.released, true),
            Received::Up(_) => counts(&mut self.up, true),
            _ => counts(&mut self.dropped, true),
        }
    }

    /// The count of what happened least often.
    fn least(&self) -> u32 {
        let answered = self.took.min(self.ignored).min(self.responded);
        let data = self.released.min(self.up).min(self.dropped);
        let sends = self.together.min(self.sent).min(self.full);
        answered.min(data).min(sends)
    }
}

/// The recorded partner of a port.
fn partner_of<F: Fn(u16, usize) -> usize + Drop>(
    system: &System<F>,
    port: u16,
) -> Option<(SystemId, Key)> {
    match system.partner(port) {
        Some(info) => Some((info.system, info.key)),
        None => None,
    }
}

/// How many ports distribute in an aggregator; they must all have the same partner.
fn one_partner<F: Fn(u16, usize) -> usize + Drop>(
    rt: &impl Abort,
    system: &System<F>,
    agg: u16,
    place: u32,
) -> usize {
    let ports = system.distributing(AggId(agg));
    let mut named = None;
    for port in ports.as_slice() {
        let partner = partner_of(system, *port);
        same_in_row(rt, place as usize, &partner.is_some(), &true);
        if named.is_some() {
            same_in_row(rt, place as usize, &partner, &named);
        }
        named = partner;
    }
    ports.len()
}

/// Checks what must hold after each call; returns whether two ports distribute in one aggregator.
fn keeps<F: Fn(u16, usize) -> usize + Drop>(
    rt: &impl Abort,
    system: &System<F>,
    place: u32,
) -> bool {
    let first = one_partner(rt, system, 1, place);
    let second = one_partner(rt, system, 2, place);
    first > 1 || second > 1
}

/// The number of ticks, and when the ports sent LACPDUs.
#[derive(Drop)]
struct Clock {
    now: u32,
    first: Sends,
    second: Sends,
}

impl Clock {
    /// A port sends an LACPDU, which the transmit limit must allow; returns whether the limit is reached after it.
    fn sends(&mut self, rt: &impl Abort, port: u16, place: u32) -> bool {
        let now = self.now;
        let mut sends = if port == 1 { self.first } else { self.second };
        same_in_row(rt, place as usize, &sends.is_full(now), &false);
        sends.add(now);
        if port == 1 {
            self.first = sends;
        } else {
            self.second = sends;
        }
        sends.is_full(now)
    }
}

/// Whether the result of `transmit` is a frame with an LACPDU.
fn is_lacpdu(answer: Result<Option<[u8; 124]>, SystemFault>) -> bool {
    match answer {
        Ok(Some(octets)) => octets[14] == 1,
        _ => false,
    }
}

/// A frame comes on a port.
fn hears<F: Fn(u16, usize) -> usize + Drop>(
    rt: &impl Abort,
    system: &mut System<F>,
    draw: &mut Congruence,
    peers: &mut Peers,
    happened: &mut Happened,
    place: u32,
) -> Result<(), SystemFault> {
    let port = draw.port();
    if draw.one_in(128) {
        peers.wander(draw, port);
    }
    let (octets, length) = drawn(draw, peers, port);
    let count = usize::from(length).min(octets.len());
    happened.hears(system.receive(port, &octets[..count])?);
    counts(&mut happened.together, keeps(rt, system, place));
    Ok(())
}

/// A tick passes.
fn ticks<F: Fn(u16, usize) -> usize + Drop>(
    rt: &impl Abort,
    system: &mut System<F>,
    clock: &mut Clock,
    place: u32,
) {
    system.tick();
    counts(&mut clock.now, true);
    keeps(rt, system, place);
}

/// A port may send.
fn may_send<F: Fn(u16, usize) -> usize + Drop>(
    rt: &impl Abort,
    system: &mut System<F>,
    port: u16,
    clock: &mut Clock,
    happened: &mut Happened,
    place: u32,
) {
    if is_lacpdu(system.transmit(port)) {
        counts(&mut happened.sent, true);
        counts(&mut happened.full, clock.sends(rt, port, place));
    }
    keeps(rt, system, place);
}

#[test]
fn hostile_frames_keep_the_laws(rt: HostRuntime) -> Result<(), SystemFault> {
    let mut system = System::new(rt.alloc(), config(rt.alloc(), &[1, 2], 2)?, modulo)?;
    same(&rt, "link 1", &system.set_link(1, true), &Ok(()));
    same(&rt, "link 2", &system.set_link(2, true), &Ok(()));
    let mut draw = Congruence { number: 1 };
    let mut peers = Peers {
        first: (2, 1),
        second: (2, 1),
    };
    let none = Sends { last: [None; 3] };
    let mut clock = Clock {
        now: 0,
        first: none,
        second: none,
    };
    let mut happened = Happened::default();
    for place in 0..FRAMES {
        hears(
            &rt,
            &mut system,
            &mut draw,
            &mut peers,
            &mut happened,
            place,
        )?;
        if draw.one_in(2) {
            ticks(&rt, &mut system, &mut clock, place);
        }
        if draw.one_in(2) {
            let port = draw.port();
            may_send(&rt, &mut system, port, &mut clock, &mut happened, place);
        }
    }
    let each = happened.least() > 0;
    same(&rt, "each answer comes", &each, &true);
    Ok(())
}
