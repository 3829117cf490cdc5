//! A system for programs in C, and payloads as numbers: include/lag.h declares what this library exports.
//!
//! What a program in C owes, and nothing checks: a handle is `NIW_EMPTY` before its first call, and only the exports write it; one
//! call of it runs at a time, readers too, since each call writes the handle; no signal handler calls, and no forked child of a
//! program with threads; a pointer is not null, and points to what its type says, with as many octets as the length
//! beside it; what a call may write overlaps nothing else that it is given; and `malloc`, `realloc` and `free` belong to one
//! allocator. The inline functions of the header refuse null pointers before an export is called.
#![tactic(auto)]

mod balancing;
mod calls;
mod carrying;
mod codec;
mod codec_values;
mod conversations;
mod handle;
mod made;
mod masks;
mod observing;
mod probing;
mod queued;
mod queues;
mod reader_values;
mod readers;
mod refusal;
mod resuming;
mod settings;
mod stored;
mod values;
mod views;
