//! The frontier over the page with a block in its corner, call by call.
ghost use Rattle.std.specs.Prelude.{◌≡◌, All, Contains, IfOk, OnOk, IfSome};
ghost use Rattle.box_search.specs.Leasing.{entry_of};
ghost use Rattle.whitespace_cover.specs.Problem.{white_numbers};
ghost use Rattle.whitespace_cover.specs.Regions.{FitsWhite};

use super::{RIGHT, white_of};
use crate::{Region, White};
use box_search::{Frontier, Lease, Node, Shape, Space, Step, Take};
use layout_limits::OutOfMemory;
use std::alloc::Global;
use std::process::Abort;
use std::test::Fail;

fn shape_of(x0: i32, y0: i32, x1: i32, y1: i32) -> Shape {
    Shape {
        a0: x0,
        a1: x1,
        b0: y0,
        b1: y1,
        c0: 0,
        c1: 1,
    }
}

/// A frontier with a root open.
fn begin(alloc: Global, white: &White, root: Node<Region>) -> Result<Frontier<Region>, OutOfMemory>
    requires { FitsWhite (white_numbers white.now) root }
    ensures fitting { IfOk result (λ frontier. All (FitsWhite (white_numbers white.now)) frontier.open_nodes) }
{
    let _white = white;
    let frontier = Frontier::new(alloc, Some(root))?;
    Ok(frontier)
}

/// Leases an open node.
fn lease(white: &White, frontier: &mut Frontier<Region>) -> Option<Lease<Region>>
    requires fitting { All (FitsWhite (white_numbers white.now)) frontier.old.open_nodes }
    ensures fitting { IfSome result (λ _. All (FitsWhite (white_numbers white.now)) frontier.new.open_nodes) }
    ensures fits { IfSome result (λ lease. FitsWhite (white_numbers white.now) lease.node) }
    ensures out { IfSome result (λ lease. Contains frontier.new.leased (entry_of lease)) }
{
    let _white = white;
    match frontier.lease() {
        Take::Leased(lease) => Some(lease),
        Take::Idle => None,
        Take::Done => None,
    }
}

/// Leases an open node, which has this shape.
fn leased(
    rt: &impl Abort,
    white: &White,
    frontier: &mut Frontier<Region>,
    shape: Shape,
) -> Lease<Region>
    requires fitting { All (FitsWhite (white_numbers white.now)) frontier.old.open_nodes }
    ensures fitting { All (FitsWhite (white_numbers white.now)) frontier.new.open_nodes }
    ensures fits { FitsWhite (white_numbers white.now) result.node }
    ensures out { Contains frontier.new.leased (entry_of result) }
{
    let Some(lease) = lease(white, frontier) else {
        panic!(rt; "nothing is open");
    };
    assert!(rt; lease.node.shape == shape);
    lease
}

/// `Some` where nothing is open and something is out.
fn look_idle(white: &White, frontier: &mut Frontier<Region>) -> Option<()>
    requires fitting { All (FitsWhite (white_numbers white.now)) frontier.old.open_nodes }
    ensures fitting { IfSome result (λ _. All (FitsWhite (white_numbers white.now)) frontier.new.open_nodes) }
    ensures same { IfSome result (λ _. frontier.new ≡ frontier.old) }
{
    let _white = white;
    match frontier.lease() {
        Take::Idle => Some(()),
        Take::Done => None,
        Take::Leased(_) => None,
    }
}

/// Ends a lease.
fn finish(
    white: &White,
    frontier: &mut Frontier<Region>,
    lease: Lease<Region>,
    nodes: Vec<Node<Region>>,
    seen: u64,
) -> Result<(), OutOfMemory>
    requires fitting { All (FitsWhite (white_numbers white.now)) frontier.old.open_nodes }
    requires nodes { All (FitsWhite (white_numbers white.now)) nodes.items }
    requires out { Contains frontier.old.leased (entry_of lease) }
    ensures fitting { OnOk result (All (FitsWhite (white_numbers white.now)) frontier.new.open_nodes) }
{
    let _white = white;
    match frontier.finish(lease, nodes, seen) {
        Ok(()) => {}
        Err(_) => return Err(OutOfMemory),
    }
    Ok(())
}

/// Opens the node of a lease again.
fn reopen(white: &White, frontier: &mut Frontier<Region>, lease: Lease<Region>)
    requires fitting { All (FitsWhite (white_numbers white.now)) frontier.old.open_nodes }
    requires fits { FitsWhite (white_numbers white.now) lease.node }
    requires out { Contains frontier.old.leased (entry_of lease) }
    ensures fitting { All (FitsWhite (white_numbers white.now)) frontier.new.open_nodes }
{
    let _white = white;
    frontier.reopen(lease);
}

/// The nodes of a step that splits.
fn split(
    rt: &impl Abort,
    alloc: Global,
    white: &White,
    node: &Node<Region>,
) -> Result<Vec<Node<Region>>, OutOfMemory>
    requires { FitsWhite (white_numbers white.now) node.now }
    ensures { IfOk result (λ nodes. All (FitsWhite (white_numbers white.now)) nodes.items) }
{
    match white.step(alloc, node)? {
        Step::Split(nodes) => Ok(nodes),
        Step::Settled(_) => panic!(rt; "settled"),
    }
}

/// The key of a step that settles.
fn settle(
    rt: &impl Abort,
    alloc: Global,
    white: &White,
    node: &Node<Region>,
) -> Result<u64, OutOfMemory>
    requires { FitsWhite (white_numbers white.now) node.now }
{
    match white.step(alloc, node)? {
        Step::Settled(key) => Ok(key),
        Step::Split(_) => panic!(rt; "split"),
    }
}

/// The page is leased, alone, and cut into the part right of the block and the part below it.
fn cut_the_page(
    rt: &impl Abort,
    alloc: Global,
    white: &White,
    frontier: &mut Frontier<Region>,
) -> Result<(), OutOfMemory>
    requires fitting { All (FitsWhite (white_numbers white.now)) frontier.old.open_nodes }
    ensures fitting { OnOk result (All (FitsWhite (white_numbers white.now)) frontier.new.open_nodes) }
{
    let whole = leased(rt, white, frontier, shape_of(0, 0, 16, 16));
    assert!(rt; whole.number == 0);
    let Some(()) = look_idle(white, frontier) else {
        panic!(rt; "not idle");
    };
    let nodes = split(rt, alloc, white, &whole.node)?;
    assert!(rt; nodes.len() == 2);
    assert!(rt;
        nodes[0].shape == shape_of(3, 0, 16, 16) && nodes[1].shape == shape_of(0, 3, 16, 16)
    );
    finish(white, frontier, whole, nodes, 0)
}

#[test]
fn frontier_by_hand(rt: HostRuntime) -> Result<(), Fail> {
    let alloc = rt.alloc();
    let white = white_of(&rt, alloc, (0, 0, 16, 16), &[(0, 0, 3, 3)], 8)?;
    let Some(root) = white.root(alloc)? else {
        panic!(rt; "no root");
    };
    let mut frontier = begin(alloc, &white, root)?;
    cut_the_page(&rt, alloc, &white, &mut frontier)?;
    assert!(rt; frontier.waiting() == 2 && frontier.out() == 0);

    // The part right of the block is leased and opened again. Then both parts are leased and ended.
    let right = leased(&rt, &white, &mut frontier, shape_of(3, 0, 16, 16));
    assert!(rt; settle(&rt, alloc, &white, &right.node)? == RIGHT);
    reopen(&white, &mut frontier, right);
    let right = leased(&rt, &white, &mut frontier, shape_of(3, 0, 16, 16));
    finish(&white, &mut frontier, right, Vec::new(alloc), RIGHT)?;
    let below = leased(&rt, &white, &mut frontier, shape_of(0, 3, 16, 16));
    finish(&white, &mut frontier, below, Vec::new(alloc), RIGHT)?;
    assert!(rt; matches!(frontier.lease(), Take::Done));
    Ok(())
}
