//! What is the same in all rooms: how large a page may be, how much may be asked for, and want of memory.
#![tactic(auto)]

/// Memory was refused. A `Result` with this error has no other refusal.
pub use std::alloc::AllocError as OutOfMemory;

/// The greatest width and the greatest height of a page, in pixels.
pub const MAX_SIDE: u16 = 8192;

/// The most pixels of a page. The key of a rectangle, which has its area and its place, then fits into 64 bits.
pub const MAX_PIXELS: u32 = 33_554_432;

/// The most white rectangles that a cover can be asked for.
pub const MAX_RECTS: u16 = 256;

/// The most workers of one search.
pub const MAX_WORKERS: u16 = 64;
