/// What is printed of a capture.
#[derive(Clone, Copy, Debug, PartialEq, Eq)]
pub struct Settings {
    /// Whether the line of an LACPDU has every field, and not only what differs from the last LACPDU of its sender.
    pub all: bool,
    /// Whether there is a line for each frame.
    pub frames: bool,
    /// Whether each line is a record as JSON; a record has every field.
    pub json: bool,
}
