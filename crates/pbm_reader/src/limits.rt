//! The limits of an input.

/// How many bytes a header may have, at most.
pub const MAX_HEADER: u64 = 65_536;

/// How many bytes an input may have, at most.
pub const MAX_INPUT: u64 = 268_435_456;

/// The greatest number that is told of a header. Greater ones are told as this one.
pub const MAX_NUMBER: u32 = 999_999_999;

/// How many bytes of the input are held at once, at most.
pub const MAX_PIECE: usize = 32_768;

/// How many images an input may have, at most.
pub const MAX_IMAGES: u32 = 256;
