//! Searches over the white space of a page: a bound word by hand, a shared frontier step by step, and workers; and whole runs, also
//! over devices that fail.
mod pages;
mod runs;
mod shards;
mod shared;
mod streams;
mod word;
mod workers;
