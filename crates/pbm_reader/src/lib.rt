//! Reads black and white pages: Netpbm's PBM, plain (`P1`) or raw (`P4`), with its comments, one page
//! or several images in one input.
#![tactic(auto)]

mod answer;
mod fault;
mod feed;
mod form;
mod header;
mod image;
mod images;
mod law;
mod limits;
mod page;
mod plain;
mod raster;
mod row_sink;
mod rows;
mod state;
mod tail;
#[cfg(test)]
mod tests;

pub use fault::{PageFault, Size};
pub use images::Images;
pub use law::{each_input_is_judged, equal_pictures_are_one_page};
pub use limits::{MAX_HEADER, MAX_IMAGES, MAX_INPUT, MAX_NUMBER, MAX_PIECE};
pub use page::read_page;
pub use row_sink::RowSink;
