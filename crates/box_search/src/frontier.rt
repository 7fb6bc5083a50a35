//! The nodes that are still to be searched, and the calls that take them out and bring them back.
ghost use Rattle.std.specs.Prelude.{◌≡◌, ◌+◌, ◌≤◌, [], length, IfOk, IfErr, OnOk, OnErr, Contains, vec_len, vec_capacity};
ghost use Rattle.std.specs.Option.{option_to_list};
ghost use Rattle.std.specs.BinaryHeap.{heap_items, heap_len, heap_capacity};
ghost use Rattle.box_search.specs.Leasing.{entry_of, Takes, Finishes, Reopens, Adds, Ends};

use crate::heap::{Open, pop_greatest, push_above, push_in_room};
use crate::lease::{Entry, Lease, Take, Unfinished};
use crate::leased::{insert_in_room, least_free, remove_number};
use crate::space::Node;
use layout_limits::OutOfMemory;
use std::alloc::Global;
use std::collections::BinaryHeap;
use std::marker::Model;

/// The nodes that are still to be searched: the open ones whole, and of each that is out its number, shape and bound.
///
/// Each of them has room kept for it, once among the open and once among the leased, so `lease` and `reopen` take
/// no memory. Taking out and adding a node cost a number of comparisons that grows as the logarithm of how many
/// are open. Taking one out walks over the entries of those that are out, and ending a lease does so where its
/// number is not the greatest.
#[derive(Drop)]
pub struct Frontier<W> {
    open: BinaryHeap<Open<W>>,
    leased: Vec<Entry>,
}

impl<W> Model for Frontier<W> {
    ghost use Rattle.std.specs.Prelude.{map, vec_capacity};
    ghost use Rattle.std.specs.BinaryHeap.{heap_items, heap_capacity};
    ghost use Rattle.box_search.specs.Contents.{Contents, IsOrderly, node_of};

    ghost Value = { Contents W };

    ghost view = { λ a. record { open_nodes = map node_of (heap_items a.open); leased = a.leased.items } };

    ghost invariant = { λ a. IsOrderly (heap_items a.open) (heap_capacity a.open) a.leased.items (vec_capacity a.leased) };
}

/// Makes room for more nodes, once among the open and once among the leased ones.
fn reserve<W>(
    open_nodes: &mut BinaryHeap<Open<W>>,
    leased: &mut Vec<Entry>,
    more: usize,
) -> Result<(), OutOfMemory>
    ensures items { heap_items open_nodes.new ≡ heap_items open_nodes.old }
    ensures entries { leased.new.items ≡ leased.old.items }
    ensures capacity { heap_capacity open_nodes.old ≤ heap_capacity open_nodes.new }
    ensures leased_capacity { vec_capacity leased.old ≤ vec_capacity leased.new }
    ensures room { OnOk result (heap_len open_nodes.new + vec_len leased.new + more ≤ heap_capacity open_nodes.new) }
    ensures leased_room { OnOk result (heap_len open_nodes.new + vec_len leased.new + more ≤ vec_capacity leased.new) }
{
    let for_leased = leased.len().checked_add(more).ok_or(OutOfMemory)?;
    let for_open = open_nodes.len().checked_add(more).ok_or(OutOfMemory)?;
    open_nodes.reserve(for_leased)?;
    leased.reserve(for_open)
}

impl<W: Drop> Frontier<W> {
    /// A frontier with the root open, or an empty one.
    pub fn new(alloc: Global, root: Option<Node<W>>) -> Result<Frontier<W>, OutOfMemory>
        ensures open { IfOk result (λ frontier. frontier.open_nodes ≡ option_to_list root) }
        ensures leased { IfOk result (λ frontier. frontier.leased ≡ []) }
    {
        let mut open = BinaryHeap::with_capacity(alloc, 1)?;
        let leased = Vec::with_capacity(alloc, 1)?;
        if let Some(node) = root {
            push_in_room(&mut open, node);
        }
        Ok(Frontier { open, leased })
    }

    /// Moves out an open node of greatest bound, under the least number that isn't out. Among equal bounds any
    /// node may come. It takes no memory.
    pub fn lease(&mut self) -> Take<W>
        ensures takes { Takes self.old result self.new }
    {
        match pop_greatest(&mut self.open) {
            Some(node) => {
                let place = least_free(&self.leased);
                let number = place as u64;
                let entry = Entry {
                    number,
                    shape: node.shape,
                    bound: node.bound,
                };
                insert_in_room(&mut self.leased, place, entry);
                Take::Leased(Lease { number, node })
            }
            None => {
                if self.leased.is_empty() {
                    Take::Done
                } else {
                    Take::Idle
                }
            }
        }
    }

    /// Ends a lease, opens the nodes whose bound is above `seen`, and drops the other nodes. Its refusal is want of
    /// memory, which hands the lease and the nodes back.
    pub fn finish(
        &mut self,
        lease: Lease<W>,
        nodes: Vec<Node<W>>,
        seen: u64,
    ) -> Result<(), Unfinished<W>>
        requires out { Contains self.old.leased (entry_of lease) }
        ensures ok { OnOk result (Finishes self.old lease nodes.items seen self.new) }
        ensures err { OnErr result (self.new ≡ self.old) }
        ensures lease_returned { IfErr result (λ unfinished. unfinished.lease ≡ lease) }
        ensures nodes_returned { IfErr result (λ unfinished. unfinished.nodes ≡ nodes) }
    {
        match reserve(&mut self.open, &mut self.leased, nodes.len()) {
            Err(OutOfMemory) => Err(Unfinished { lease, nodes }),
            Ok(()) => {
                remove_number(&mut self.leased, lease.number);
                push_above(&mut self.open, nodes, seen);
                Ok(())
            }
        }
    }

    /// Ends a lease, and opens its node again. It can't fail, and takes no memory.
    pub fn reopen(&mut self, lease: Lease<W>)
        requires out { Contains self.old.leased (entry_of lease) }
        ensures reopens { Reopens self.old lease self.new }
    {
        let Lease { number, node } = lease;
        remove_number(&mut self.leased, number);
        push_in_room(&mut self.open, node);
    }

    /// Opens the nodes whose bound is above `seen`, and drops the others. Its refusal is want of memory, which hands
    /// the nodes back.
    pub fn add(&mut self, nodes: Vec<Node<W>>, seen: u64) -> Result<(), Vec<Node<W>>>
        ensures ok { OnOk result (Adds self.old nodes.items seen self.new) }
        ensures err { OnErr result (self.new ≡ self.old) }
        ensures nodes_returned { IfErr result (λ back. back ≡ nodes) }
    {
        match reserve(&mut self.open, &mut self.leased, nodes.len()) {
            Err(OutOfMemory) => Err(nodes),
            Ok(()) => {
                push_above(&mut self.open, nodes, seen);
                Ok(())
            }
        }
    }

    /// Ends a lease whose nodes went to another frontier. It can't fail, and takes no memory.
    pub fn end(&mut self, lease: Lease<W>)
        requires out { Contains self.old.leased (entry_of lease) }
        ensures ends { Ends self.old lease self.new }
    {
        let ended = lease.number;
        remove_number(&mut self.leased, ended);
    }

    /// The open nodes, which leave the frontier. It takes memory.
    pub fn into_nodes(self, alloc: Global) -> Result<Vec<Node<W>>, OutOfMemory>
        ensures nodes { IfOk result (λ nodes. nodes.items ≡ self.open_nodes) }
    {
        let Frontier { open, leased: _ } = self;
        let mut nodes = Vec::with_capacity(alloc, open.len())?;
        for Open { bound, shape, work } in open.into_vec() {
            nodes.push(Node { shape, bound, work })?;
        }
        Ok(nodes)
    }

    /// How many nodes are open.
    pub fn waiting(&self) -> u64
        ensures open { result ≡ length self.now.open_nodes }
    {
        self.open.len() as u64
    }

    /// How many nodes are leased.
    pub fn out(&self) -> u64
        ensures leased { result ≡ length self.now.leased }
    {
        self.leased.len() as u64
    }
}
