//! Numbers that look like chance, for tests alone: no part of the product.
#![tactic(auto)]

/// The next number of a fixed sequence that looks like chance: a step of Knuth's linear congruential generator for
/// 64 bits. Its upper bits look more like chance than its lower ones.
pub fn next_number(number: u64) -> u64 {
    number
        .wrapping_mul(6_364_136_223_846_793_005)
        .wrapping_add(1_442_695_040_888_963_407)
}
