//! The order in which the lines of a page are read, or the reason why there is none.
use crate::items::Numbers;

/// What is known of the order of reading, as the numbers of lines.
#[derive(Drop)]
pub enum Order {
    /// Each line once, behind all the lines that are read before it.
    Topological(Numbers),
    /// There is no such order: each of these lines is read before the next, and the last before
    /// the first.
    Cycle(Numbers),
}
