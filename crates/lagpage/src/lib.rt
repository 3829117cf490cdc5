//! What a page in a browser shows: exports that explain a capture piece by piece, replay a script, decode a payload, answer a frame and
//! run the vectors as `lagtool` does. They work over memory, and do no input and no output.
//!
//! What the host owes, and nothing checks: a pointer has room for the octets of the length beside it; what a call may write overlaps
//! nothing else that it is given; the octets of a handle are 0 before its first call, and only the exports write them; one thread
//! calls; and none calls after a trap.
//!
//! In comments, "profile" is docs/PROFILE.md.
#![tactic(auto)]

mod answer;
mod handle;
mod of_capture;
mod of_script;
mod of_vectors;
mod of_words;
mod pieces;
mod said;
mod told;
