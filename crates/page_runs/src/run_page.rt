//! A page whose rows come one by one from the top.
ghost use Rattle.std.specs.Prelude.{◌≡◌, ◌<◌, ◌≤◌, ◌+◌, ◌^◌, ℕ, [], ◌∷◌, ◌++◌, OnOk, OnErr, IfOk, IsTrue, ◌↔◌, length, slice_index};
ghost use Rattle.packed_rows.specs.Page.{Page, IsPackedRow, IsPageSize};
ghost use Rattle.page_runs.specs.Packed.{Holds, IsWhole, page_of, row_of, rows_of};
ghost use Rattle.page_runs.specs.Runs.{AddsRow, AreRunsOf, Extends};
ghost use Rattle.page_runs.specs.Black.{black_in, black_of};
ghost use Rattle.page_runs.specs.Rows.{Given, GivenPageIsHeld};

use crate::row_runs::{Run, add_row};
use layout_limits::{MAX_SIDE, OutOfMemory};
use pbm_reader::RowSink;
use std::alloc::Global;
use std::marker::Model;

/// A page of black and white pixels, at most `MAX_SIDE` wide and high, and `MAX_PIXELS` pixels in all.
///
/// It takes the rows from the top, as packed bytes: eight pixels a byte, the high bit leftmost, 1
/// for black, as in Netpbm's raw PBM. It keeps the runs of their black pixels, 4 bytes each, and 4 bytes
/// more a row. It is whole once all of its rows are there.
#[derive(Drop)]
pub struct RunPage {
    width: u16,
    height: u16,
    runs: Vec<Run>,
    // for each row that is there, how many runs lie in it and above
    ends: Vec<u32>,
    black: u64,
}

impl Model for RunPage {
    ghost use Rattle.page_runs.specs.Packed.{Packed};
    ghost use Rattle.page_runs.specs.Black.{IsPacked};

    ghost Value = { Packed };

    ghost view = { λ p. record { width = p.width; height = p.height; runs = p.runs.items; ends = p.ends.items } };

    ghost invariant = { λ p. IsPacked (record { width = p.width; height = p.height; runs = p.runs.items; ends = p.ends.items }) p.black };
}

/// Adds a row's runs, and where they end, and answers how many of its pixels are black. Where memory is refused some runs may have been added, but no end.
fn add_ended_row(
    runs: &mut Vec<Run>,
    ends: &mut Vec<u32>,
    bits: &[u8],
    width: u16,
) -> Result<u64, OutOfMemory>
    requires width { width ≤ MAX_SIDE }
    requires packed { IsPackedRow width bits.now }
    requires room { length runs.old.items + MAX_SIDE < 2 ^ 32 }
    ensures black { IfOk result (λ black. (black ≡ black_in width bits.now) × (black ≤ width)) }
    ensures added { OnOk result (AddsRow bits.now width width runs.old.items runs.new.items) }
    ensures ended { OnOk result (ends.new.items ≡ ends.old.items ++ length runs.new.items ∷ []) }
    ensures begun { OnErr result (Extends runs.old.items runs.new.items) }
    ensures none_ended { OnErr result (ends.new.items ≡ ends.old.items) }
{
    let black = add_row(runs, bits, width)?;
    ends.push(runs.len() as u32)?;
    Ok(black)
}

#[tactic(auto, unfolding(crate::specs::Packed::page_of, crate::specs::Packed::rows_of, crate::specs::Packed::row_of))]
impl RunPage {
    /// The page that was not begun: 0 pixels wide and high.
    pub fn empty(alloc: Global) -> RunPage
        ensures width { (page_of result).width ≡ 0 }
        ensures height { (page_of result).height ≡ 0 }
        ensures rows { rows_of result ≡ 0 }
    {
        RunPage {
            width: 0,
            height: 0,
            runs: Vec::new(alloc),
            ends: Vec::new(alloc),
            black: 0,
        }
    }

    /// The width in pixels.
    pub fn width(&self) -> u16
        ensures value { result ≡ (page_of self.now).width }
        ensures unbegun { (page_of self.now).height ≡ 0 → result ≡ 0 }
        ensures size { 0 < (page_of self.now).height → IsPageSize (page_of self.now).width (page_of self.now).height }
    {
        self.width
    }

    /// The height in pixels.
    pub fn height(&self) -> u16
        ensures value { result ≡ (page_of self.now).height }
        ensures size { 0 < result → IsPageSize (page_of self.now).width (page_of self.now).height }
    {
        self.height
    }

    /// Whether all of the page's rows are there, and there is one.
    pub fn is_whole(&self) -> bool
        ensures { IsTrue result ↔ IsWhole self.now }
    {
        self.ends.len() == usize::from(self.height) && self.height > 0
    }

    /// Whether the pixel in column x and row y is black.
    pub fn is_black(&self, x: u16, y: u16) -> bool
        requires whole { IsWhole self.now }
        requires in_row { x < (page_of self.now).width }
        requires in_column { y < (page_of self.now).height }
        ensures { result ≡ (page_of self.now).is_black x y }
    {
        self.row(y).iter().any(|run| run.x0 <= x && x < run.x1)
    }

    /// How many runs lie above a row.
    fn runs_above(&self, y: u16) -> usize
        requires { y ≤ length self.now.ends }
        ensures { result ≡ slice_index (0 ∷ self.now.ends) y }
    {
        if y == 0 {
            0
        } else {
            self.ends[usize::from(y) - 1] as usize
        }
    }

    /// The maximal runs of the black pixels of a row that is there, from the left: where one ends and another
    /// begins, there is white between them.
    pub fn row(&self, y: u16) -> &[Run]
        requires { y < rows_of self.now }
        ensures runs { AreRunsOf (page_of self.now) y result.now }
        ensures value { result.now ≡ row_of self.now y }
        ensures few { length result.now ≤ (page_of self.now).width }
    {
        let from = self.runs_above(y);
        let to = self.ends[usize::from(y)] as usize;
        &self.runs[from..to]
    }

    /// Adds the next row, as packed bytes, the padding bits behind the width clear. The one refusal
    /// is want of memory.
    pub fn push_row(&mut self, bits: &[u8]) -> Result<(), OutOfMemory>
        requires more { rows_of self.old < (page_of self.old).height }
        requires packed { IsPackedRow (page_of self.old).width bits.now }
        ensures ok { OnOk result (Given self.old bits.now self.new) }
        ensures err { OnErr result (self.new ≡ self.old) }
    {
        let len = self.runs.len();
        match add_ended_row(&mut self.runs, &mut self.ends, bits, self.width) {
            Ok(black) => {
                self.black += black;
                Ok(())
            }
            Err(refused) => {
                self.runs.truncate(len);
                Err(refused)
            }
        }
    }

    /// The number of black pixels of the rows that are there.
    pub fn black(&self) -> u64
        ensures value { result ≡ black_of (page_of self.now) }
        // The same is the number of black pixels of each page whose pixels these are.
        ensures held { (page : Page) → Holds self.now page → result ≡ black_of page }
    {
        self.black
    }
}

#[tactic(auto, unfolding(crate::specs::Packed::page_of, crate::specs::Packed::rows_of, crate::specs::Packed::row_of))]
impl RowSink for RunPage {
    ghost use Rattle.std.specs.Prelude.{◌≡◌, ◌-◌};
    ghost use Rattle.page_runs.specs.Packed.{page_of, rows_of};
    ghost use Rattle.page_runs.specs.Rows.{Begun, Given};

    ghost width_of = { λ s. (page_of s).width };

    ghost rows_left = { λ s. (page_of s).height - rows_of s };

    ghost begun = { Begun };

    ghost given = { Given };

    ghost unchanged = { λ old new. new ≡ old };

    fn begin(&mut self, width: u16, height: u16) -> Result<(), OutOfMemory> {
        self.runs.clear();
        self.ends.clear();
        self.black = 0;
        self.width = width;
        self.height = height;
        Ok(())
    }

    fn row(&mut self, bits: &[u8]) -> Result<(), OutOfMemory> {
        self.push_row(bits)
    }
}

/// States a law, and does nothing: a `RunPage` that `begin` and `row` gave all rows of a page is
/// whole, and holds that page.
pub fn given_page_is_held()
    ensures { GivenPageIsHeld }
{}
