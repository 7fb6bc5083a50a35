//! The maximal runs of black pixels of one row of packed bytes.
ghost use Rattle.std.specs.Prelude.{◌≡◌, ◌<◌, ◌≤◌, ◌+◌, ◌*◌, ℕ, List, Some, OnOk, OnErr, IfOk, length};
ghost use Rattle.packed_rows.specs.Page.{IsPackedRow};
ghost use Rattle.page_runs.specs.declared.row_runs.Run.{Run};
ghost use Rattle.page_runs.specs.Black.{black_in};
ghost use Rattle.page_runs.specs.Runs.{AddsRow, AreAll, Extends};
ghost use Rattle.page_runs.specs.Walk.{HasWalked, IsUpTo};

use crate::row_words::{
    BLACK, WHITE, WORD_BYTES, WORD_PIXELS, behind_white, first_in_word, word_at,
};
use layout_limits::{MAX_SIDE, OutOfMemory};

/// Black pixels of a row, from `x0` up to but not including `x1`, as many as follow one another. The row is the one whose
/// runs were asked for.
#[derive(Clone, Copy, Debug)]
pub struct Run {
    /// The first column, from 0 at the left.
    pub x0: u16,
    /// The column behind the last.
    pub x1: u16,
}

/// What is known of a row up to a column.
#[derive(Drop)]
struct Walk {
    /// The first column of the run that has not ended.
    begun: Option<u16>,
    /// How many pixels of the runs that ended are black.
    black: u64,
}

/// Walks over the word of a row from this byte on, from edge to edge, and adds the runs that end in it.
fn add_word(
    runs: &mut Vec<Run>,
    walk: &mut Walk,
    bits: &[u8],
    byte: usize,
) -> Result<(), OutOfMemory>
    requires byte { byte < length bits.now }
    requires small { length bits.now * 8 ≤ MAX_SIDE + 7 }
    requires up_to { IsUpTo walk.old.begun walk.old.black (byte * 8) }
    ensures up_to { OnOk result (IsUpTo walk.new.begun walk.new.black (byte * 8 + 64)) }
    ensures walked { (old : List Run) (width : ℕ) → HasWalked bits.now width (byte * 8) old runs.old.items walk.old.begun walk.old.black
        → OnOk result (HasWalked bits.now width (byte * 8 + 64) old runs.new.items walk.new.begun walk.new.black) }
    ensures err { OnErr result (Extends runs.old.items runs.new.items) }
{
    let word = word_at(bits, byte);
    let x = byte as u16 * 8;
    let mut place = 0;
    while place < WORD_PIXELS {
        match walk.begun {
            None => {
                place = first_in_word(word, place, BLACK);
                if place < WORD_PIXELS {
                    walk.begun = Some(x + place);
                }
            }
            Some(start) => {
                place = first_in_word(word, place, WHITE);
                if place < WORD_PIXELS {
                    runs.push(Run {
                        x0: start,
                        x1: x + place,
                    })?;
                    walk.black += u64::from(x + place - start);
                    walk.begun = None;
                }
            }
        }
    }
    Ok(())
}

/// The byte of the next word that is walked over: where no run has begun, white words are passed over.
fn next_word(bits: &[u8], begun: Option<u16>, byte: usize) -> usize
    requires byte { byte < length bits.now }
    ensures not_before { byte + 8 ≤ result }
    ensures bound { result < length bits.now + 8 }
    ensures white { AreAll 0 bits.now (byte * 8 + 64) (result * 8) }
    ensures begun { (start : ℕ) → begun ≡ Some start → result ≡ byte + 8 }
{
    match begun {
        None => behind_white(bits, byte + WORD_BYTES),
        Some(_) => byte + WORD_BYTES,
    }
}

/// Adds the runs of a row, from the left, and answers how many of its pixels are black. Where memory is refused some of
/// the runs were added.
pub(crate) fn add_row(runs: &mut Vec<Run>, bits: &[u8], width: u16) -> Result<u64, OutOfMemory>
    requires width { width ≤ MAX_SIDE }
    requires packed { IsPackedRow width bits.now }
    ensures ok { OnOk result (AddsRow bits.now width width runs.old.items runs.new.items) }
    ensures err { OnErr result (Extends runs.old.items runs.new.items) }
    ensures black { IfOk result (λ black. (black ≡ black_in width bits.now) × (black ≤ width)) }
{
    let mut walk = Walk {
        begun: None,
        black: 0,
    };
    let mut byte = behind_white(bits, 0);
    while byte < bits.len() {
        add_word(runs, &mut walk, bits, byte)?;
        byte = next_word(bits, walk.begun, byte);
    }
    if let Some(start) = walk.begun {
        runs.push(Run {
            x0: start,
            x1: width,
        })?;
        walk.black += u64::from(width - start);
    }
    Ok(walk.black)
}
