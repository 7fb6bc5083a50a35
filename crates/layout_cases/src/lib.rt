//! Cases that cross crates. A program has no use for it: there is nothing here but tests.
#![tactic(auto)]

#[cfg(test)]
mod cases;
