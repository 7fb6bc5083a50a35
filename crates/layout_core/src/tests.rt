//! Runs of both programs over memory: worked pages, faults, words, and devices that fail.
mod blocks;
mod cells;
mod devices;
mod documents;
mod faults;
mod images;
mod line_words;
mod smeared;
mod words;
