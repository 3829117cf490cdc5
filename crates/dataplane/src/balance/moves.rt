//! The next move.
ghost use Rattle.std.specs.Prelude.{◌≡◌, ℕ, ◌+◌, ◌*◌, ◌-◌, ◌<◌, ◌≤◌, length, get_or, take, All, Contains, MatchOption};
ghost use Rattle.dataplane.specs.Moves.{load_on, conversation_at, IsMove};

/// What a conversation is for the spread over ports (profile).
#[repr(C)]
#[derive(Clone, Copy, Debug, PartialEq, Eq)]
pub struct Carried {
    /// The number of the port that the conversation is on; 0 if it is on none.
    pub port: u16,
    /// The load of the conversation, in a unit that the host chooses: octets a second, frames, or 1 for each conversation.
    pub load: u32,
}

/// A conversation and the port that it is to move to (profile).
#[derive(Clone, Copy, Debug, PartialEq, Eq)]
pub struct Move {
    /// The conversation, from 0.
    pub conversation: u16,
    /// The number of the port.
    pub port: u16,
}

// promise: a move goes from a port with the most load to one with the least; its conversation's load is neither 0 nor the whole difference;
//    None exactly if there is no such move
// contract: `next_move` (`IsMove`)
// not said: that the distributor can move it
/// A move from a port with the most load of these to the one with the least, of a conversation whose load is less than
/// the difference: each conversation stands at its number in `carried`. `None` exactly if there is no such move (profile).
pub fn next_move(ports: &[u16], carried: &[Carried]) -> Option<Move>
    requires { length carried.now ≤ 65536 }
    ensures { MatchOption result ((m : Move) → IsMove ports.now carried.now m → ⊥) (λ m. IsMove ports.now carried.now m) }
{
    let most = port_load(busiest(ports, carried)?, carried);
    let idlest = idlest(ports, carried)?;
    let least = port_load(idlest, carried);
    for port in ports {
        if port_load(*port, carried) == most {
            if let Some(conversation) = lighter(*port, most - least, carried) {
                return Some(Move {
                    conversation,
                    port: idlest,
                });
            }
        }
    }
    None
}

/// The sum of the loads of the conversations on a port.
fn port_load(port: u16, carried: &[Carried]) -> u64
    requires { length carried.now ≤ 65536 }
    ensures { result ≡ load_on port carried.now }
{
    let mut load = 0;
    for one in carried {
        if one.port == port {
            load += u64::from(one.load);
        }
    }
    load
}

/// The first port with the most load of these; `None` if there is none.
fn busiest(ports: &[u16], carried: &[Carried]) -> Option<u16>
    requires { length carried.now ≤ 65536 }
    ensures { MatchOption result (length ports.now ≡ 0) (λ q. Contains ports.now q × ((p : ℕ) → Contains ports.now p → load_on p carried.now ≤ load_on q carried.now)) }
{
    let mut best = *ports.first()?;
    for port in ports {
        if port_load(best, carried) < port_load(*port, carried) {
            best = *port;
        }
    }
    Some(best)
}

/// The first port with the least load of these; `None` if there is none.
fn idlest(ports: &[u16], carried: &[Carried]) -> Option<u16>
    requires { length carried.now ≤ 65536 }
    ensures { MatchOption result (length ports.now ≡ 0) (λ q. Contains ports.now q × ((p : ℕ) → Contains ports.now p → load_on q carried.now ≤ load_on p carried.now)) }
{
    let mut best = *ports.first()?;
    for port in ports {
        if port_load(*port, carried) < port_load(best, carried) {
            best = *port;
        }
    }
    Some(best)
}

/// The first conversation on a port whose load is neither 0 nor `difference` or more; `None` if there is none.
fn lighter(port: u16, difference: u64, carried: &[Carried]) -> Option<u16>
    requires { length carried.now ≤ 65536 }
    ensures { MatchOption result ((k : ℕ) → k < length carried.now → (conversation_at carried.now k).port ≡ port → 0 < (conversation_at carried.now k).load → difference ≤ (conversation_at carried.now k).load)
        (λ k. (k < length carried.now) × ((conversation_at carried.now k).port ≡ port) × (0 < (conversation_at carried.now k).load) × ((conversation_at carried.now k).load < difference)) }
{
    for (place, one) in carried.iter().enumerate() {
        if one.port == port && one.load > 0 && u64::from(one.load) < difference {
            return Some(place as u16);
        }
    }
    None
}
