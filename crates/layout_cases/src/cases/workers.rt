//! Searches by several workers over the white space of a page.
ghost use Rattle.std.specs.Prelude.{◌≤◌};
ghost use Rattle.layout_limits.specs.declared.TheConstants.{MAX_WORKERS};

use super::pages::{RIGHT, Sides, corner_block, shape_of, white_of};
use box_search::{Alone, Searcher};
use chance::next_number;
use layout_limits::OutOfMemory;
use lease_workers::{OpenGate, Workers};
use search_trials::{Meeting, RefusesOnce, StepsMeet, Watched};
use std::alloc::Global;
use std::process::Abort;
use std::sync::Wait;
use std::test::Fail;
use std::thread::Threads;
use whitespace_cover::White;

/// A box by chance of at most 16 by 16 pixels, within 240 by 240.
fn chance_box(number: u64) -> Sides {
    let x0 = ((number >> 56) % 224) as u16;
    let y0 = ((number >> 48) % 224) as u16;
    let width = ((number >> 40) % 16) as u16 + 1;
    let height = ((number >> 32) % 16) as u16 + 1;
    (x0, y0, x0 + width, y0 + height)
}

/// A page of 240 by 240 pixels with 48 boxes by chance.
fn many_boxes(rt: &impl Abort, alloc: Global) -> Result<White, OutOfMemory> {
    let mut boxes = [(0, 0, 1, 1); 48];
    let mut number = 1;
    for place in 0..48 {
        number = next_number(number);
        boxes[place] = chance_box(number);
    }
    white_of(rt, alloc, (0, 0, 240, 240), &boxes)
}

#[test]
fn worker_counts(rt: HostRuntime) -> Result<(), Fail> {
    let alloc = rt.alloc();
    for white in [corner_block(&rt, alloc)?, many_boxes(&rt, alloc)?] {
        let greatest = Alone.best(alloc, &white)?;
        for count in [1, 2, 7, 64] {
            let mut workers = Workers::new(count, &OpenGate);
            assert_eq!(rt; workers.best(alloc, &rt, &white)?, greatest, "{count}");
        }
    }
    Ok(())
}

/// How a search by some workers stood as it was closed, of whose steps number 1 was refused memory: the word, and how many
/// nodes were open and leased.
fn refused_at_step_one<R: Threads + Wait + Sync>(
    rt: &R,
    alloc: Global,
    count: u32,
    white: &White,
) -> Result<(u64, u64, u64), OutOfMemory>
    requires counts { (1 ≤ count) × (count ≤ MAX_WORKERS) }
{
    let space = Watched {
        space: white,
        watcher: &RefusesOnce::after(1),
    };
    let closed = Workers::new(count, &OpenGate).run(alloc, rt, &space)?;
    Ok((closed.word, closed.waiting, closed.leased))
}

#[test]
fn memory_refused_at_step_one(rt: HostRuntime) -> Result<(), Fail> {
    let alloc = rt.alloc();
    let white = corner_block(&rt, alloc)?;
    assert_eq!(rt; refused_at_step_one(&rt, alloc, 1, &white)?, (0, 2, 0));
    assert_eq!(rt; refused_at_step_one(&rt, alloc, 2, &white)?, (RIGHT, 0, 0));
    let space = Watched {
        space: &white,
        watcher: &RefusesOnce::after(1),
    };
    let mut worker = Workers::new(1, &OpenGate);
    assert!(rt; worker.best(alloc, &rt, &space).is_err());
    assert_eq!(rt; worker.best(alloc, &rt, &white)?, RIGHT);
    Ok(())
}

#[test]
fn two_steps_at_one_time(rt: HostRuntime) -> Result<(), Fail> {
    let alloc = rt.alloc();
    let white = corner_block(&rt, alloc)?;
    let meeting = Meeting::new();
    let steps = StepsMeet {
        shapes: (shape_of((3, 0, 16, 16)), shape_of((0, 3, 16, 16))),
        meeting: &meeting,
    };
    let space = Watched {
        space: &white,
        watcher: &steps,
    };
    let mut workers = Workers::new(2, &OpenGate);
    assert_eq!(rt; workers.best(alloc, &rt, &space)?, RIGHT);
    assert!(rt; meeting.took_place());
    Ok(())
}
