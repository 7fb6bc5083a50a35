//! The rows of a raster: in the raw form eight pixels a byte, in the plain one as `plain` reads them.
ghost use Rattle.std.specs.Prelude.{◌≡◌, ◌<◌, ◌≤◌, ◌+◌, ◌*◌, ◌^◌, [], length, IfOk, IfErr, OnOk, OnErr};
ghost use Rattle.pbm_reader.specs.Reading.{HasReadCause};
ghost use Rattle.pbm_reader.specs.Given.{Stays};
ghost use Rattle.packed_rows.specs.Page.{IsPageSize, row_len};
ghost use Rattle.pbm_reader.specs.Raster.{BytesFail, GivenTopRows, RasterFails, RowFails, TakesRow, TookCleared, TookRaster, TookRowIn};
ghost use Rattle.pbm_reader.specs.Held.{TakesHeld};
ghost use Rattle.pbm_reader.specs.declared.form.Form.TheVariants.{Raw};

use crate::fault::PageFault;
use crate::feed::Feed;
use crate::form::Form;
use crate::header::Header;
use crate::limits::{MAX_HEADER, MAX_INPUT};
use crate::plain::fill_pixels;
use crate::row_sink::RowSink;
use layout_outside::Source;
use packed_rows::{clear_padding, row_len};
use std::alloc::Global;

/// Fills a row with the next bytes, which stand at this offset, and clears its padding bits.
fn fill_row<S: Source>(
    feed: &mut Feed<'_, S>,
    row: &mut [u8],
    width: u16,
    at: u64,
) -> Result<(), PageFault>
    requires short { at + length row.old < 2 ^ 64 }
    requires len { length row.old ≡ row_len width }
    ensures ok { OnOk result (TookCleared feed.old.source feed.new.source width row.new) }
    ensures len { length row.new ≡ length row.old }
    ensures fault { IfErr result (BytesFail feed.old.source feed.new.source at (row_len width)) }
    ensures held { row_len width ≤ length feed.old.unread → TakesHeld feed.old feed.new (row_len width) result }
    ensures drained { result ≡ Err PageFault.ReadFault → feed.new.unread ≡ [] }
    ensures same { feed.new.borrow ≡ feed.old.borrow }
    ensures cause { HasReadCause feed.old.source feed.new.source result }
{
    let count = feed.fill(row)?;
    if count < row.len() {
        return Err(PageFault::Truncated {
            at: at + count as u64,
        });
    }
    clear_padding(row, width);
    Ok(())
}

/// Fills a row with the next pixels in this form, from this offset on, and answers the offset of
/// their end.
fn take_row<S: Source>(
    feed: &mut Feed<'_, S>,
    form: Form,
    row: &mut [u8],
    width: u16,
    start: u64,
) -> Result<u64, PageFault>
    requires low { start ≤ MAX_INPUT }
    requires len { length row.old ≡ row_len width }
    ensures ok { IfOk result (λ end. TookRowIn form feed.old.source feed.new.source start end width row.new) }
    ensures fault { IfErr result (RowFails form feed.old.source feed.new.source start width) }
    ensures held { form ≡ Raw → row_len width ≤ length feed.old.unread → TakesHeld feed.old feed.new (row_len width) result }
    ensures len { length row.new ≡ length row.old }
    ensures drained { result ≡ Err PageFault.ReadFault → feed.new.unread ≡ [] }
    ensures same { feed.new.borrow ≡ feed.old.borrow }
    ensures cause { HasReadCause feed.old.source feed.new.source result }
{
    match form {
        Form::Plain => fill_pixels(feed, row, width, start),
        Form::Raw => {
            fill_row(feed, row, width, start)?;
            Ok(start + row.len() as u64)
        }
    }
}

/// Reads a row, from this offset on, gives it to the sink, and answers the offset of its end.
fn read_row<S: Source, R: RowSink>(
    feed: &mut Feed<'_, S>,
    form: Form,
    row: &mut [u8],
    width: u16,
    start: u64,
    rows: &mut R,
) -> Result<u64, PageFault>
    requires low { start ≤ MAX_INPUT }
    requires len { length row.old ≡ row_len width }
    requires width { R.width_of rows.old ≡ width }
    requires more { 0 < R.rows_left rows.old }
    ensures ok { IfOk result (λ end. TakesRow R.given form feed.old.source feed.new.source start end width rows.old rows.new) }
    ensures len { length row.new ≡ length row.old }
    ensures width { OnOk result (R.width_of rows.new ≡ width) }
    ensures rows { OnOk result (R.rows_left rows.new + 1 ≡ R.rows_left rows.old) }
    ensures fault { IfErr result (RowFails form feed.old.source feed.new.source start width) }
    ensures held { form ≡ Raw → row_len width ≤ length feed.old.unread → TakesHeld feed.old feed.new (row_len width) result }
    ensures stays { OnErr result (Stays R.unchanged rows.old rows.new) }
    ensures drained { result ≡ Err PageFault.ReadFault → feed.new.unread ≡ [] }
    ensures same { feed.new.borrow ≡ feed.old.borrow }
    ensures cause { HasReadCause feed.old.source feed.new.source result }
{
    let end = take_row(feed, form, row, width, start)?;
    rows.row(row)?;
    Ok(end)
}

/// Reads the rows of a page in the form that its header names, gives each to the sink, and answers
/// the offset of their end.
pub(crate) fn read_raster<S: Source, R: RowSink>(
    alloc: Global,
    feed: &mut Feed<'_, S>,
    header: Header,
    rows: &mut R,
) -> Result<u64, PageFault>
    requires short { header.len ≤ MAX_HEADER }
    requires size { IsPageSize header.size.width header.size.height }
    requires width { R.width_of rows.old ≡ header.size.width }
    requires rows { R.rows_left rows.old ≡ header.size.height }
    ensures ok { IfOk result (λ end. TookRaster R.given feed.old.source
        feed.new.source header.form header.size.width header.size.height header.len end rows.old rows.new) }
    ensures fault { IfErr result (RasterFails feed.old.source
        feed.new.source header.form header.size.width header.size.height header.len) }
    ensures top { IfErr result (GivenTopRows R.given R.unchanged header.form header.size.width header.size.height header.len
        feed.old.source feed.new.source rows.old rows.new) }
    // Where a raw raster is held whole nothing is read.
    ensures held { header.form ≡ Raw → header.size.height * row_len header.size.width ≤ length feed.old.unread
        → TakesHeld feed.old feed.new (header.size.height * row_len header.size.width) result }
    ensures drained { result ≡ Err PageFault.ReadFault → feed.new.unread ≡ [] }
    ensures same { feed.new.borrow ≡ feed.old.borrow }
    ensures cause { HasReadCause feed.old.source feed.new.source result }
{
    let len = row_len(header.size.width);
    let mut row = vec![in alloc; 0; len]?;
    let mut at = header.len;
    for _y in 0..header.size.height {
        at = read_row(feed, header.form, &mut row, header.size.width, at, rows)?;
    }
    Ok(at)
}
