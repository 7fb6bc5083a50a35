//! The run-length smear of a page: short white stretches between black places are filled, in rows and in columns, on one
//! thread or by threads.
#![tactic(auto)]

mod band;
mod columns;
mod fills;
mod forked;
mod law;
mod painting;
mod row;
mod smears;
mod stack;
#[cfg(test)]
mod tests;

pub use forked::smear;
pub use law::smear_is_unique;
pub use smears::smear_alone;
