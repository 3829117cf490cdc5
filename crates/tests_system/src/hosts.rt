//! Calls for hosts with a data plane, of `lagsystem` and `dataplane`: rows of calls with values from docs/PROFILE.md, worked out by hand.
mod adopting;
mod answering;
mod balance;
mod calls;
mod holding;
mod observing;
mod playing;
mod resuming;
mod telling;
