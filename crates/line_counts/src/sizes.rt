//! Which pages get a table of counts.
ghost use Rattle.std.specs.Prelude.{◌≡◌, ◌≤◌, ◌↔◌, IsTrue, length};
ghost use Rattle.line_counts.specs.Table;
ghost use Rattle.line_counts.specs.Table.{FitsTable};

use crate::limits::{MAX_TABLE_BYTES, MAX_TABLE_GUTTERS, PLACES_BEYOND, SLOPES};
use layout_geom::Rects;
use layout_limits::MAX_SIDE;

/// How many bytes a table of counts takes for a page of this height, whose boxes lie on it, and so many gutters.
fn table_bytes(height: u16, gutters: usize) -> usize
    requires height { height ≤ MAX_SIDE }
    requires gutters { gutters ≤ MAX_TABLE_GUTTERS }
    ensures { result ≡ Table.table_bytes height gutters }
{
    2 * SLOPES * (gutters + 1) * (height as usize + PLACES_BEYOND as usize)
}

/// Whether a page gets a table of counts: it has few gutters, and the table is not too large.
pub fn fits_table(height: u16, gutters: &Rects) -> bool
    requires { height ≤ MAX_SIDE }
    ensures measure { IsTrue result ↔ FitsTable height (length gutters.now) }
    ensures few_gutters { IsTrue result → length gutters.now ≤ MAX_TABLE_GUTTERS }
{
    gutters.len() <= MAX_TABLE_GUTTERS && table_bytes(height, gutters.len()) <= MAX_TABLE_BYTES
}
