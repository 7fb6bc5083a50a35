//! A frontier together with the leases that are out from it, and the plain program that it is compared with.
ghost use Rattle.std.specs.Prelude.{◌<◌, vec_len, OnOk};
ghost use Rattle.search_trials.specs.Held.{HoldsAll};

use box_search::{Frontier, Lease, Node, Shape, Take};
use layout_limits::OutOfMemory;
use std::alloc::Global;

/// A call on a frontier. A place is that of a lease among those that are held.
#[derive(Clone, Copy, Debug)]
pub(crate) enum Call<'a> {
    Lease,
    Finish(usize, &'a [u64], u64),
    Reopen(usize),
}

/// What a call gave: of a lease its number and bound.
#[derive(Clone, Copy, Debug, PartialEq, Eq)]
pub(crate) enum Gave {
    Lease(u64, u64),
    Idle,
    Done,
    Nothing,
}

/// A node of some shape with this bound.
pub(crate) fn node_of(bound: u64) -> Node<()> {
    let shape = Shape {
        a0: 0,
        a1: 16,
        b0: 0,
        b1: 16,
        c0: 0,
        c1: 1,
    };
    Node {
        shape,
        bound,
        work: (),
    }
}

fn nodes_of(alloc: Global, bounds: &[u64]) -> Result<Vec<Node<()>>, OutOfMemory> {
    let mut nodes = Vec::new(alloc);
    for &bound in bounds {
        nodes.push(node_of(bound))?;
    }
    Ok(nodes)
}

fn lease_one(frontier: &mut Frontier<()>, leases: &mut Vec<Lease<()>>) -> Result<Gave, OutOfMemory>
    requires held { HoldsAll frontier.old.leased leases.old.items }
    ensures held { OnOk result (HoldsAll frontier.new.leased leases.new.items) }
{
    match frontier.lease() {
        Take::Leased(lease) => {
            let gave = Gave::Lease(lease.number, lease.node.bound);
            leases.push(lease)?;
            Ok(gave)
        }
        Take::Idle => Ok(Gave::Idle),
        Take::Done => Ok(Gave::Done),
    }
}

fn finish_one(
    frontier: &mut Frontier<()>,
    leases: &mut Vec<Lease<()>>,
    place: usize,
    nodes: Vec<Node<()>>,
    seen: u64,
) -> Result<(), OutOfMemory>
    requires held { HoldsAll frontier.old.leased leases.old.items }
    requires within { place < vec_len leases.old }
    ensures held { OnOk result (HoldsAll frontier.new.leased leases.new.items) }
{
    let lease = leases.remove(place);
    match frontier.finish(lease, nodes, seen) {
        Ok(()) => {}
        Err(_) => return Err(OutOfMemory),
    }
    Ok(())
}

fn reopen_one(frontier: &mut Frontier<()>, leases: &mut Vec<Lease<()>>, place: usize)
    requires held { HoldsAll frontier.old.leased leases.old.items }
    requires within { place < vec_len leases.old }
    ensures held { HoldsAll frontier.new.leased leases.new.items }
{
    let lease = leases.remove(place);
    frontier.reopen(lease);
}

/// Makes a call on a frontier. One that names no lease does nothing.
pub(crate) fn make_call(
    alloc: Global,
    frontier: &mut Frontier<()>,
    leases: &mut Vec<Lease<()>>,
    call: Call<'_>,
) -> Result<Gave, OutOfMemory>
    requires held { HoldsAll frontier.old.leased leases.old.items }
    ensures held { OnOk result (HoldsAll frontier.new.leased leases.new.items) }
{
    match call {
        Call::Lease => lease_one(frontier, leases),
        Call::Finish(place, bounds, seen) => {
            if place < leases.len() {
                let nodes = nodes_of(alloc, bounds)?;
                finish_one(frontier, leases, place, nodes, seen)?;
            }
            Ok(Gave::Nothing)
        }
        Call::Reopen(place) => {
            if place < leases.len() {
                reopen_one(frontier, leases, place);
            }
            Ok(Gave::Nothing)
        }
    }
}

/// The plain program of a frontier: the bounds of the open nodes, and number and bound of each lease.
#[derive(Drop)]
pub(crate) struct Plain {
    pub(crate) open: Vec<u64>,
    pub(crate) leases: Vec<(u64, u64)>,
}

impl Plain {
    /// The least number that isn't out.
    fn least_free(&self) -> u64 {
        for number in 0..u64::MAX {
            if self.leases.iter().all(|lease| lease.0 != number) {
                return number;
            }
        }
        u64::MAX
    }

    fn lease(&mut self) -> Result<Gave, OutOfMemory> {
        self.open.sort()?;
        match self.open.pop() {
            Some(bound) => {
                let number = self.least_free();
                self.leases.push((number, bound))?;
                Ok(Gave::Lease(number, bound))
            }
            None if self.leases.is_empty() => Ok(Gave::Done),
            None => Ok(Gave::Idle),
        }
    }

    /// Makes the call that `call` makes on a frontier.
    pub(crate) fn call(&mut self, call: Call<'_>) -> Result<Gave, OutOfMemory> {
        match call {
            Call::Lease => return self.lease(),
            Call::Finish(place, bounds, seen) => {
                if place < self.leases.len() {
                    self.leases.remove(place);
                    for &bound in bounds {
                        if bound > seen {
                            self.open.push(bound)?;
                        }
                    }
                }
            }
            Call::Reopen(place) => {
                if place < self.leases.len() {
                    let lease = self.leases.remove(place);
                    self.open.push(lease.1)?;
                }
            }
        }
        Ok(Gave::Nothing)
    }
}
