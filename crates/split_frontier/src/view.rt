//! What a pass knows. No value of these types but `Claim` is made: they exist in proofs alone.
use box_search::Entry;
use frontier_turn::Snapshot;
use std::collections::LinkedList;

/// A lease that a pass names.
#[derive(Clone, Copy, Debug, PartialEq, Eq)]
pub struct Claim {
    /// The shard from which it came.
    pub home: u32,
    /// What that shard keeps of it.
    pub entry: Entry,
    /// Whether its nodes went to another shard.
    pub spent: bool,
}

/// What reading and raising leave alone.
pub struct Rest {
    /// The problem that is searched.
    pub problem: LinkedList<i64>,
    /// How many swaps of the pass found a turn held.
    pub met: u64,
    /// The shard whose turn the latest of these swaps found held.
    pub found: Option<u32>,
    /// How many splits and joins the pass was lent to.
    pub splits: u64,
    /// The shard whose turn the pass holds.
    pub holds: Option<u32>,
    /// The frontier of that shard as it was when the turn was taken.
    pub taken: Snapshot,
    /// The leases that the pass names.
    pub leases: LinkedList<Claim>,
    /// The shards whose frontier the pass gave back last with nothing open and nothing leased.
    pub empties: LinkedList<u32>,
    /// The share of the pass of 2^64 parts. A pass that was joined away has none.
    pub parts: u64,
}

/// The view of a pass.
pub(crate) type View = bound_word::View<Rest>;
