use crate::config::WorldConfig;
use crate::event::Event;

/// What a script says: two systems and their cables, the limits of the cables, and the events (profile).
#[derive(Debug, Drop)]
pub struct Plan {
    /// The configuration of the systems and the cables.
    pub config: WorldConfig,
    /// The limit of each cable, in order: how many frames each direction can hold, or `None` for any number.
    pub limits: Vec<Option<u16>>,
    /// The events, in order.
    pub events: Vec<Event>,
}
