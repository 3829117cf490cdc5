//! The frames that a host holds while their conversation moves: a queue a conversation, of the host's own handles.
//!
//! A host that passes data on puts each frame that it may not send yet into `Holding`, and takes it out again once its
//! conversation is on a port. All memory is taken by `Holding::new`. For proofs `Holding` is a list of queues with two
//! bounds and two counts; `laws` says what every list of calls keeps: nothing overtakes, nothing is lost uncounted.
//! The standard leaves what waits to the Frame Distributor; all of this is profile.

mod laws;
mod queues;
mod refusal;
mod rings;

pub use laws::every_list_of_calls;
pub use queues::{Holding, Released};
pub use refusal::Refusal;
