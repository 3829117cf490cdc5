//! The aggregator that carries the frames of a client, where a system has several.
//!
//! `active_aggregator` chooses it. `offer_in_active_aggregator` and `offer_conversation_in_active_aggregator` are for the time after it changed: a conversation
//! that is On, Wanted or Flushing in another aggregator is held. `laws` says what follows. The standard leaves the choice to the
//! client of the aggregators; all of this is profile.

mod choosing;
mod laws;
mod offering;

pub use choosing::{active_aggregator, aggregator_or_none};
pub use laws::{
    both_ends_choose_alike, each_call_keeps_one_aggregator,
    forcing_and_resting_keep_one_aggregator, leaving_and_probing_keep_one_aggregator,
    the_active_aggregator_stays,
};
pub use offering::{offer_conversation_in_active_aggregator, offer_in_active_aggregator};
