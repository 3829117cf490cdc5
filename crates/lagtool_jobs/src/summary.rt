/// How many lines or vectors were checked, and how many of them failed (profile).
#[derive(Clone, Copy, Debug, PartialEq, Eq)]
pub struct Summary {
    /// How many lines or vectors there were.
    pub checked: u64,
    /// How many of them failed: lines whose verdict is a fault, or vectors that do not pass.
    pub faults: u64,
}
