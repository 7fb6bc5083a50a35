//! The words of a line of text: its boxes, split at the gaps that are wide.
#![tactic(auto)]

mod gaps;
mod law;
mod line;
mod parting;
#[cfg(test)]
mod tests;
mod threshold;
mod words;

pub use law::words_are_unique;
pub use parting::{LEAST_PART, LEAST_RATIO, MAX_MEMBERS};
pub use words::word_boxes;
