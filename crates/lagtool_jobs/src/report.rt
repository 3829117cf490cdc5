/// What `decode` or `respond` prints for a payload or a frame (profile).
#[derive(Drop)]
pub struct Outcome {
    /// The lines that are printed.
    pub text: String,
    /// Whether the payload was accepted, or the frame gets a response.
    pub accepted: bool,
}
