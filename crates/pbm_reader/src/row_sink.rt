//! Where the rows of a page go.
ghost use Rattle.std.specs.Prelude.{◌≡◌, ◌<◌, ◌+◌, ℕ, List, OnOk, OnErr};
ghost use Rattle.packed_rows.specs.Page.{IsPackedRow, IsPageSize};

use layout_limits::OutOfMemory;

/// Takes the rows of a page, from the top. The one refusal of both calls is want of memory, and a
/// refused call leaves the sink as it was.
pub trait RowSink {
    // the width of the page that was begun, and how many of its rows are still taken: 0 before the first page
    ghost width_of: { Self → ℕ };

    ghost rows_left: { Self → ℕ };

    // what an `Ok` of `begin` makes of a sink
    ghost begun: { Self → ℕ → ℕ → Self → Type 0 };

    // what an `Ok` of `row` makes of a sink
    ghost given: { Self → List ℕ → Self → Type 0 };

    // a sink that a refused call left as it was
    ghost unchanged: { Self → Self → Type 0 };

    /// Begins a page of this width and height in pixels.
    fn begin(&mut self, width: u16, height: u16) -> Result<(), OutOfMemory>
        requires { IsPageSize width height }
        ensures ok { OnOk result (begun self.old width height self.new) }
        ensures width { OnOk result (width_of self.new ≡ width) }
        ensures rows { OnOk result (rows_left self.new ≡ height) }
        ensures err { OnErr result (unchanged self.old self.new) };

    /// Takes the next row as packed bytes: eight pixels a byte, the high bit leftmost, 1 for black,
    /// the padding bits behind the width clear.
    fn row(&mut self, bits: &[u8]) -> Result<(), OutOfMemory>
        requires more { 0 < rows_left self.old }
        requires packed { IsPackedRow (width_of self.old) bits.now }
        ensures ok { OnOk result (given self.old bits.now self.new) }
        ensures width { OnOk result (width_of self.new ≡ width_of self.old) }
        ensures rows { OnOk result (rows_left self.new + 1 ≡ rows_left self.old) }
        ensures err { OnErr result (unchanged self.old self.new) };
}
