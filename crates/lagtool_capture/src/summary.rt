use crate::fault::ReadFault;

/// What was read of a capture.
#[derive(Clone, Copy, Debug, PartialEq, Eq)]
pub struct CaptureSummary {
    /// How many packets there were.
    pub packets: u64,
    /// How many of them are frames of the slow protocols.
    pub slow: u64,
    /// How many findings there are: for each end and each rule at most one.
    pub findings: usize,
    /// Why the capture is not read on; what was read before stands.
    pub fault: Option<ReadFault>,
}
