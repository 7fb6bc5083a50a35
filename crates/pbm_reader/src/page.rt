//! A whole page, from the first byte of the input to its end.
ghost use Rattle.std.specs.Prelude.{◌≡◌, ◌≤◌, ℕ, List, [], Some, IfOk, IfErr, OnErr, IsOkUnless};
ghost use Rattle.layout_outside.specs.Causes.{Rose};
ghost use Rattle.pbm_reader.specs.declared.fault.PageFault.{PageFault};
ghost use Rattle.pbm_reader.specs.Spelling.{IsPage};
ghost use Rattle.pbm_reader.specs.Fault.{HasFault};
ghost use Rattle.pbm_reader.specs.Given.{AfterFault};
ghost use Rattle.pbm_reader.specs.Reading.{AnswersFault, HasReadCause, ReadsPage, Refuses};

use crate::fault::{PageFault, Size};
use crate::feed::{Feed, Piece};
use crate::header::read_name;
use crate::row_sink::RowSink;
use crate::rows::read_rows;
use crate::tail::read_tail;
use layout_outside::Source;
use std::alloc::Global;

/// Reads a page of Netpbm's PBM, plain (`P1`) or raw (`P4`), to the end of the input, and gives its
/// rows to the sink from the top. Memory is taken for one piece of the input and one row.
///
/// `begin` is called once, when the header is whole, and `row` once for each row. Where the page is
/// refused the sink was given nothing, or top rows that the bytes before the fault spell whole.
pub fn read_page<S: Source, R: RowSink>(
    alloc: Global,
    src: &mut S,
    rows: &mut R,
) -> Result<Size, PageFault>
    // The input was read to its end, it spells a page, and the sink was given the page.
    ensures page { IfOk result (ReadsPage R.begun R.given (S.view src.old) (S.view src.new) rows.old rows.new) }
    // The input has just this fault; or a read failed, and the bytes taken decide no fault.
    ensures fault { IfErr result (Refuses (S.view src.old) (S.view src.new)) }
    // After a fault the sink was given nothing, or top rows that the bytes before the fault spell whole.
    ensures top { IfErr result (AfterFault R.begun R.given R.unchanged (S.view src.old) (S.view src.new) rows.old rows.new) }
    ensures cause { HasReadCause (S.view src.old) (S.view src.new) result }
    // Where the input spells a page and no read failed, the page is read unless memory is refused.
    ensures complete { (input : List ℕ) → (S.view src.old).left ≡ Some input → IsPage input
        → ¬ Rose (S.view src.old).faults (S.view src.new).faults → IsOkUnless result PageFault.Memory }
    // Where the input has a fault and no read failed, that fault is answered unless memory is refused.
    ensures faulty { (input : List ℕ) (fault : PageFault) → (S.view src.old).left ≡ Some input → HasFault input fault
        → ¬ Rose (S.view src.old).faults (S.view src.new).faults → AnswersFault fault result }
{
    let mut feed = Feed::new(src, Piece::new(alloc)?);
    let result = read_from(alloc, &mut feed, rows);
    // The source comes back out of the feed: by this the proof sees what was read of it.
    feed.into_source();
    result
}

/// Reads a page out of a feed.
fn read_from<S: Source, R: RowSink>(
    alloc: Global,
    feed: &mut Feed<'_, S>,
    rows: &mut R,
) -> Result<Size, PageFault>
    ensures page { IfOk result (ReadsPage R.begun R.given feed.old.source
        feed.new.source rows.old rows.new) }
    ensures fault { IfErr result (Refuses feed.old.source feed.new.source) }
    ensures top { IfErr result (AfterFault R.begun R.given R.unchanged feed.old.source
        feed.new.source rows.old rows.new) }
    ensures drained { result ≡ Err PageFault.ReadFault → feed.new.unread ≡ [] }
    ensures same { feed.new.borrow ≡ feed.old.borrow }
    ensures cause { HasReadCause feed.old.source feed.new.source result }
{
    let Some(form) = read_name(feed)? else {
        return Err(PageFault::Magic { at: 0 });
    };
    let read = read_rows(alloc, feed, form, rows)?;
    read_tail(feed, read.header.form, read.end)?;
    Ok(read.header.size)
}
