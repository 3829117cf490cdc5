//! Whether the peer of each port of a system answers markers: a note for each port, which calls and their replies change.

ghost use Rattle.std.specs.Prelude.{◌≡◌, ◌==◌, ◌<◌, IfSome, length, map};
ghost use Rattle.std.specs.List.{position};
ghost use Rattle.lagsystem.specs.Drives.{call_of};
ghost use Rattle.lagsystem.specs.State.{port_index};
ghost use Rattle.dataplane.specs.Notes.{after_marker, after_response, nobody_asked, note_of, noted, notes_after, notes_after_all};
ghost use Rattle.dataplane.specs.declared.answering.marker_note.MarkerNote.TheVariants.{NeverAsked};
ghost use Rattle.dataplane.specs.Notes.{notes_after_receive, notes_after_set_link, notes_after_transmit};

mod marker_note;

use lagsystem::{Call, Received, Reply, System, SystemFault};
pub use marker_note::MarkerNote;
use std::marker::Model;

/// Whether the peers of the ports of a system answer markers: a note for each port, in the order of the port numbers (profile).
#[derive(Drop)]
pub struct Answering {
    notes: [MarkerNote; 64],
}

impl Model for Answering {
    ghost use Rattle.std.specs.Prelude.{List};
    ghost use Rattle.dataplane.specs.declared.answering.marker_note.MarkerNote.{MarkerNote};

    ghost Value = { List MarkerNote };

    ghost view = { λ a. a.notes };
}

impl Answering {
    // promise: at first no peer was asked; `of` has a port's note, None without the port; a note has its number and word
    // contract: `Answering::nobody_asked`, `of`; `MarkerNote::number`, `Display`
    /// No peer was asked: the notes of a system that was just made.
    pub fn nobody_asked() -> Answering
        ensures { result ≡ nobody_asked }
    {
        Answering {
            notes: [MarkerNote::NeverAsked; 64],
        }
    }

    /// The note of a port; None if the system has no such port.
    pub fn of<F: Fn(u16, usize) -> usize + Drop>(
        &self,
        system: &System<F>,
        port: u16,
    ) -> Option<MarkerNote>
        ensures { result ≡ note_of port system.now.state.system_ports self.now }
    {
        match place_of(system, port) {
            Some(place) => Some(self.notes[place]),
            None => None,
        }
    }

    /// Notes that the marker in this frame went out on the port at this index.
    fn note_marker(&mut self, place: Option<usize>, frame: &[u8; 124])
        requires { IfSome place (λ p. p < 64) }
        ensures { self.new ≡ noted place (after_marker frame.now) self.old }
    {
        if let Some(place) = place {
            self.notes[place] = self.notes[place].after_marker(frame);
        }
    }

    /// Notes that the response in this frame came on the port at this index.
    fn note_response(&mut self, place: Option<usize>, frame: &[u8])
        requires { IfSome place (λ p. p < 64) }
        ensures { self.new ≡ noted place (after_response frame.now) self.old }
    {
        if let Some(place) = place {
            self.notes[place] = self.notes[place].after_response(frame);
        }
    }

    /// Forgets the note of the port at this index.
    fn forget(&mut self, place: Option<usize>)
        requires { IfSome place (λ p. p < 64) }
        ensures { self.new ≡ noted place (λ note. NeverAsked) self.old }
    {
        if let Some(place) = place {
            self.notes[place] = MarkerNote::NeverAsked;
        }
    }

    // promise: a Marker Response answers if it has the Requester_Port, Requester_System and Requester_Transaction_ID of the last marker
    //    that went out on the port where it comes; any other changes no note
    // contract: `after_receive` (`notes_after_receive`)
    /// Updates the notes by what `System::receive` returned for a frame that came on a port: a response to the last marker that went
    /// out there answers.
    pub fn after_receive<F: Fn(u16, usize) -> usize + Drop>(
        &mut self,
        system: &System<F>,
        port: u16,
        octets: &[u8],
        answer: &Result<Received, SystemFault>,
    )
        ensures { self.new ≡ notes_after_receive (port_index port system.now.state.system_ports) octets.now answer.now self.old }
    {
        if let Ok(Received::Released(_)) = answer {
            self.note_response(place_of(system, port), octets);
        }
    }

    // promise: a marker that goes out notes that the peer was asked, unless it answered; an LACPDU changes no note
    // contract: `after_transmit`
    /// Updates the notes by what `System::transmit` or `System::probe` returned for a port: a marker asks.
    pub fn after_transmit<F: Fn(u16, usize) -> usize + Drop>(
        &mut self,
        system: &System<F>,
        port: u16,
        answer: &Result<Option<[u8; 124]>, SystemFault>,
    )
        ensures { self.new ≡ notes_after_transmit (port_index port system.now.state.system_ports) answer.now self.old }
    {
        if let Ok(Some(frame)) = answer {
            if frame[14] == 2 {
                self.note_marker(place_of(system, port), frame);
            }
        }
    }

    // promise: a link that is down now forgets its port's note alone; a refused call changes none; a restart forgets all
    // contract: `after_set_link`, `after_call` (`notes_after`)
    /// Updates the notes by what `System::set_link` returned: a link that is down now forgets.
    pub fn after_set_link<F: Fn(u16, usize) -> usize + Drop>(
        &mut self,
        system: &System<F>,
        port: u16,
        up: bool,
        answer: &Result<(), SystemFault>,
    )
        ensures { self.new ≡ notes_after_set_link (port_index port system.now.state.system_ports) up answer.now self.old }
    {
        if answer.is_ok() && !up {
            self.forget(place_of(system, port));
        }
    }

    /// Updates the notes by the reply of `System::call` to a call. A restart forgets all notes.
    pub fn after_call<F: Fn(u16, usize) -> usize + Drop>(
        &mut self,
        system: &System<F>,
        call: &Call,
        reply: &Reply,
    )
        ensures { self.new ≡ notes_after (call_of call.now) reply.now system.now.state.system_ports self.old }
    {
        match (call, reply) {
            (Call::Receive(port, octets), Reply::Receive(answer)) => {
                self.after_receive(system, *port, octets, answer);
            }
            (Call::SetLink(port, up), Reply::SetLink(answer)) => {
                self.after_set_link(system, *port, *up, answer);
            }
            (Call::Transmit(port), Reply::Transmit(answer)) => {
                self.after_transmit(system, *port, answer);
            }
            (Call::Restart, Reply::Restart) => *self = Answering::nobody_asked(),
            _ => {}
        }
    }

    // promise: a list of calls changes the notes call by call
    // contract: `after_calls` (`notes_after_all`)
    /// Updates the notes by the replies of `System::drive` to these calls.
    pub fn after_calls<F: Fn(u16, usize) -> usize + Drop>(
        &mut self,
        system: &System<F>,
        calls: &[Call],
        replies: &[Reply],
    )
        ensures { self.new ≡ notes_after_all (map call_of calls.now) replies.now system.now.state.system_ports self.old }
    {
        for (call, reply) in calls.iter().zip(replies) {
            self.after_call(system, call, reply);
        }
    }
}

/// The index of a number in a list.
fn index_of(numbers: &[u16], wanted: u16) -> Option<usize>
    ensures index { result ≡ position (λ number. number == wanted) numbers.now }
    ensures within { IfSome result (λ index. index < length numbers.now) }
{
    numbers.iter().position(|number| *number == wanted)
}

/// The index of a port in the list of ports.
fn place_of<F: Fn(u16, usize) -> usize + Drop>(system: &System<F>, port: u16) -> Option<usize>
    ensures place { result ≡ port_index port system.now.state.system_ports }
    ensures few { IfSome result (λ p. p < 64) }
{
    index_of(&system.ports(), port)
}
