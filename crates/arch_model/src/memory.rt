// Want of memory.
use std::alloc::AllocError;

/// Want of memory, and nothing else.
pub type Memory = AllocError;
