//! Frontiers, searches by one thread, shared searches by hand, and searches by several workers.
use chance::next_number;

mod alone;
mod desk;
mod frontier;
mod shards;
mod shared;
mod workers;

const MOST: u64 = u64::MAX;

// The keys of the rectangles `3 0 16 16` and `0 3 16 16`, worked out by hand.
const RIGHT: u64 = 114_349_209_264_115;

const BELOW: u64 = 114_349_007_962_096;

/// Numbers that look like chance, below 2^32.
fn chance_numbers() -> [u64; 200] {
    let mut numbers = [0; 200];
    let mut number = 1;
    for place in 0..200 {
        number = next_number(number);
        numbers[place] = number >> 32;
    }
    numbers
}
