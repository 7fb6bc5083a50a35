//! Frontiers against calls worked by hand, and against a plain program.
use super::desk::{Call, Gave, Plain, make_call, node_of};
use super::{BELOW, MOST, RIGHT};
use box_search::{Frontier, Take};
use chance::next_number;
use layout_limits::OutOfMemory;
use std::alloc::Global;
use std::process::Abort;
use std::test::Fail;

// A call, what it gives, and how many nodes are open and out after it.
const BY_HAND: [(Call<'static>, Gave, u64, u64); 11] = [
    (Call::Lease, Gave::Lease(0, MOST), 0, 1),
    (Call::Lease, Gave::Idle, 0, 1),
    (Call::Finish(0, &[RIGHT, BELOW], 0), Gave::Nothing, 2, 0),
    (Call::Lease, Gave::Lease(0, RIGHT), 1, 1),
    (Call::Reopen(0), Gave::Nothing, 2, 0),
    (Call::Lease, Gave::Lease(0, RIGHT), 1, 1),
    (Call::Finish(0, &[], RIGHT), Gave::Nothing, 1, 0),
    (Call::Lease, Gave::Lease(0, BELOW), 0, 1),
    (Call::Finish(0, &[], RIGHT), Gave::Nothing, 0, 0),
    (Call::Lease, Gave::Done, 0, 0),
    (Call::Lease, Gave::Done, 0, 0),
];

// Equal bounds, numbers that are free again, and nodes at and below what was seen.
const MANY: [(Call<'static>, Gave, u64, u64); 14] = [
    (Call::Lease, Gave::Lease(0, MOST), 0, 1),
    (
        Call::Finish(0, &[9, 5, 9, 4, 9, 3, 9, 6], 4),
        Gave::Nothing,
        6,
        0,
    ),
    (Call::Lease, Gave::Lease(0, 9), 5, 1),
    (Call::Lease, Gave::Lease(1, 9), 4, 2),
    (Call::Lease, Gave::Lease(2, 9), 3, 3),
    (Call::Finish(1, &[], 4), Gave::Nothing, 3, 2),
    (Call::Lease, Gave::Lease(1, 9), 2, 3),
    (Call::Reopen(0), Gave::Nothing, 3, 2),
    (Call::Lease, Gave::Lease(0, 9), 2, 3),
    (Call::Lease, Gave::Lease(3, 6), 1, 4),
    (Call::Lease, Gave::Lease(4, 5), 0, 5),
    (Call::Lease, Gave::Idle, 0, 5),
    (Call::Finish(3, &[7, 7], 7), Gave::Nothing, 0, 4),
    (Call::Finish(0, &[8], 7), Gave::Nothing, 1, 3),
];

/// Makes the calls on a frontier and on the plain program, and compares what they give.
fn follow(
    rt: &impl Abort,
    alloc: Global,
    calls: &[(Call<'_>, Gave, u64, u64)],
) -> Result<(), OutOfMemory> {
    let mut frontier = Frontier::new(alloc, Some(node_of(MOST)))?;
    let mut leases = Vec::new(alloc);
    let mut plain = Plain {
        open: vec![in alloc; MOST]?,
        leases: Vec::new(alloc),
    };
    for (turn, &(made, gave, waiting, out)) in calls.iter().enumerate() {
        assert_eq!(rt;
            make_call(alloc, &mut frontier, &mut leases, made)?,
            gave,
            "call {turn}"
        );
        assert_eq!(rt; plain.call(made)?, gave, "plain call {turn}");
        assert_eq!(rt; frontier.waiting(), waiting, "waiting after call {turn}");
        assert_eq!(rt; frontier.out(), out, "out after call {turn}");
    }
    Ok(())
}

#[test]
fn frontier_by_hand(rt: HostRuntime) -> Result<(), Fail> {
    follow(&rt, rt.alloc(), &BY_HAND)?;
    follow(&rt, rt.alloc(), &MANY)?;
    let mut empty: Frontier<()> = Frontier::new(rt.alloc(), None)?;
    assert!(rt; matches!(empty.lease(), Take::Done));
    Ok(())
}

// The frontier gives what the plain program gives, over calls that look like chance.
#[test]
fn heap_and_plain_program_agree(rt: HostRuntime) -> Result<(), Fail> {
    let alloc = rt.alloc();
    let mut frontier = Frontier::new(alloc, Some(node_of(MOST)))?;
    let mut leases = Vec::new(alloc);
    let mut plain = Plain {
        open: vec![in alloc; MOST]?,
        leases: Vec::new(alloc),
    };
    let mut number = 1;
    for turn in 0..3000 {
        number = next_number(number);
        let bounds = [number >> 60, (number >> 56) % 16, (number >> 52) % 16];
        let place = (number >> 40) as usize % 8;
        let made = match (number >> 32) % 4 {
            0 | 1 => Call::Lease,
            2 => Call::Finish(place, &bounds, (number >> 36) % 8),
            _ => Call::Reopen(place),
        };
        let gave = make_call(alloc, &mut frontier, &mut leases, made)?;
        assert_eq!(rt; gave, plain.call(made)?, "call {turn}");
        assert_eq!(rt; frontier.waiting(), plain.open.len() as u64);
        assert_eq!(rt; frontier.out(), plain.leases.len() as u64);
    }
    Ok(())
}

fn goes_across<T: Send + Drop>(_value: T) {}

// A frontier and a lease may go to another thread.
#[test]
fn frontiers_and_leases_cross_threads(rt: HostRuntime) -> Result<(), Fail> {
    let mut frontier = Frontier::new(rt.alloc(), Some(node_of(1)))?;
    goes_across(frontier.lease());
    goes_across(frontier);
    Ok(())
}
