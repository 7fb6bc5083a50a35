//! The words of the command line: which plan they have, and when they have none.
#![tactic(auto)]

mod image;
mod law;
mod number;
mod options;
mod plan;
#[cfg(test)]
mod tests;
mod told;
mod words;

pub use law::words_have_one_plan;
pub use plan::{MAX_DIGITS, MAX_NAME_BYTES, Plan, Program, USUAL_RECTS, USUAL_WORKERS, WordFault};
pub use words::words_of;
