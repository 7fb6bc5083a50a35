//! The connected components of a black and white page: their boxes, without noise and in order, and
//! the median height.
#![tactic(auto)]

mod bounds;
mod groups;
mod kept;
mod place;
mod placed_run;
mod reaching;
mod rows;
mod scan;
#[cfg(test)]
mod tests;

pub use kept::{
    CompFault, Kept, MAX_HEIGHT_IN_MEDIANS, MAX_KEPT, MAX_MEDIAN_IN_HEIGHTS, MAX_WIDTH_IN_MEDIANS,
    components, is_char_sized, kept_is_unique,
};
pub use scan::MAX_NOISE;
