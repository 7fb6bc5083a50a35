//! A block of black pixels.

/// A solid black block, half-open: the pixels `(x, y)` with `left <= x < right` and
/// `top <= y < foot`.
#[derive(Clone, Copy, Debug, PartialEq, Eq)]
pub struct Block {
    /// The first column that is black.
    pub left: u16,
    /// The column behind the last that is black.
    pub right: u16,
    /// The first row that is black.
    pub top: u16,
    /// The row under the last that is black.
    pub foot: u16,
}
