//! The black pixels of a page, as the runs of each row, and a sink for the rows that a reader gives.
#![tactic(auto)]

mod row_runs;
mod row_words;
mod run_page;
#[cfg(test)]
mod tests;

pub use pbm_reader::RowSink;
pub use row_runs::Run;
pub use run_page::{RunPage, given_page_is_held};
