//! Whole runs on made pages, and workers that meet in a run.
use layout_core::{layout_alone, layout_shared, output_is_unique};
use layout_outside::{MemSink, MemSource};
use lease_workers::{Gate, OpenGate};
use search_trials::Meeting;
use std::alloc::Global;
use std::sync::Wait;
use std::test::Fail;
use std::thread::Threads;

/// What a run wrote, and how often it asked its source.
#[derive(Drop)]
struct Outcome {
    status: u8,
    text: MemSink,
    reads: u64,
}

fn strings(alloc: Global, words: &[&str]) -> Result<Vec<String>, Fail> {
    let mut strings = Vec::new(alloc);
    for word in words {
        strings.push(String::from_str(alloc, *word)?)?;
    }
    Ok(strings)
}

/// A source whose first reads fail.
fn failing_source(alloc: Global) -> Result<MemSource, Fail> {
    Ok(MemSource::new(Vec::new(alloc), 1, [0, 1, 2, 3].to_vec(alloc)?))
}

/// A run on one thread over a source whose reads fail.
fn run_alone(alloc: Global, words: &[&str]) -> Result<Outcome, Fail> {
    let words = strings(alloc, words)?;
    let mut src = failing_source(alloc)?;
    let mut text = MemSink::with_room(alloc, 4096, 4096, Vec::new(alloc))?;
    let mut err = MemSink::with_room(alloc, 80, 80, Vec::new(alloc))?;
    let status = layout_alone(alloc, &words, &mut src, &mut text, &mut err);
    let reads = src.calls;
    Ok(Outcome {
        status,
        text,
        reads,
    })
}

/// A run by workers over a source, through a gate.
fn run_shared<R: Threads + Wait + Sync, G: Gate>(
    rt: &R,
    alloc: Global,
    words: &[&str],
    mut src: MemSource,
    gate: &G,
) -> Result<Outcome, Fail> {
    let words = strings(alloc, words)?;
    let mut text = MemSink::with_room(alloc, 4096, 4096, Vec::new(alloc))?;
    let mut err = MemSink::with_room(alloc, 80, 80, Vec::new(alloc))?;
    let status = layout_shared(rt, alloc, &words, &mut src, &mut text, &mut err, gate);
    let reads = src.calls;
    Ok(Outcome {
        status,
        text,
        reads,
    })
}

const COMPONENTS: &[u8] = b"\ncomponents 1936\nmedian ";

/// Whether a run made its page without a read, and its summary has these facts besides the black count and the median.
fn tells(outcome: &Outcome, facts: &[u8]) -> bool {
    let text = outcome.text.as_slice();
    outcome.status == 0
        && outcome.reads == 0
        && text.starts_with(b"page 2480 3508\nblack ")
        && text
            .windows(COMPONENTS.len())
            .any(|part| part == COMPONENTS)
        && text.ends_with(facts)
}

const EACH_SEED: &[u8] = b"\nrectangles 32\ngutters 1\nlines 88\nareas 2\norder topological\n";

#[test]
fn made_page(rt: HostRuntime) -> Result<(), Fail> {
    let alloc = rt.alloc();
    for seed in ["0", "7", "18446744073709551615"] {
        let alone = run_alone(alloc, &["--make", seed])?;
        assert!(rt; tells(&alone, EACH_SEED), "{seed}");
        for workers in ["1", "8"] {
            let words = ["--make", seed, "--workers", workers];
            let src = failing_source(alloc)?;
            let shared = run_shared(&rt, alloc, &words, src, &OpenGate)?;
            assert!(rt; tells(&shared, EACH_SEED), "{seed}, {workers}");
            assert_eq!(rt;
                shared.text.as_slice(),
                alone.text.as_slice(),
                "{seed}, {workers}"
            );
        }
    }
    Ok(())
}

#[test]
fn made_page_two_rectangles(rt: HostRuntime) -> Result<(), Fail> {
    let facts = b"\nrectangles 2\ngutters 0\nlines 44\nareas 1\norder topological\n";
    let alone = run_alone(rt.alloc(), &["--make", "7", "--rects", "2"])?;
    assert!(rt; tells(&alone, facts));
    output_is_unique();
    Ok(())
}

/// The page of two columns, three rows of three blocks 10 by 10 in each, in plain PBM.
fn two_columns(alloc: Global) -> Result<MemSource, Fail> {
    let mut input = b"P1\n84 41\n".to_vec(alloc)?;
    for y in 0..41u16 {
        for x in 0..84u16 {
            let in_column = (x >= 2 && x < 36 && (x - 2) % 12 < 10)
                || (x >= 48 && x < 82 && (x - 48) % 12 < 10);
            let in_row = y >= 2 && y < 36 && (y - 2) % 12 < 10;
            input.push(if in_column && in_row { b'1' } else { b'0' })?;
        }
    }
    Ok(MemSource::new(input, 4096, Vec::new(alloc)))
}

#[test]
fn gate_test(rt: HostRuntime) -> Result<(), Fail> {
    let alloc = rt.alloc();
    let meeting = Meeting::new();
    let words = ["--workers", "2", "--make", "7"];
    let outcome = run_shared(&rt, alloc, &words, failing_source(alloc)?, &meeting)?;
    assert!(rt; tells(&outcome, EACH_SEED));
    assert!(rt; meeting.took_place());
    Ok(())
}
