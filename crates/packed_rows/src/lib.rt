//! A row of pixels as packed bytes: eight pixels a byte, the high bit leftmost, 1 for black, as in Netpbm's raw PBM.
#![tactic(auto)]

mod row;
#[cfg(test)]
mod tests;

pub use row::{clear_padding, pixel, row_len, set_pixel, whiten};
