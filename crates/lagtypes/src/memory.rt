use std::alloc::AllocError;

/// Out of memory: what a call returns if it needed memory and was refused (profile).
pub type NoMemory = AllocError;
