//! Writes the layouts of an input's pages as a document in the manner of hOCR 1.2, and a layout as a summary of its counts.
#![tactic(auto, using(crate::proofs::Joined::growing))]

mod areas;
mod boxes;
mod cells;
mod document;
mod layout;
mod lines;
mod order;
mod summary;
#[cfg(test)]
mod tests;
mod text;
mod whole;

pub use document::{hocr_text, pages_text};
pub use layout::{Layout, Layouts, Mark, Marks, WordRows};
pub use summary::summary_text;
