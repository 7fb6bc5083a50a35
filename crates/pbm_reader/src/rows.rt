//! A page to the end of its raster.
ghost use Rattle.std.specs.Prelude.{◌≡◌, ◌≤◌, ◌⊎◌, ◌+◌, [], ◌++◌, length, IfOk, IfErr};
ghost use Rattle.layout_outside.specs.Views.{SourceView};
ghost use Rattle.layout_outside.specs.Taken.{Took};
ghost use Rattle.pbm_reader.specs.Spelling.{magic};
ghost use Rattle.pbm_reader.specs.Fault.{HasLowPlace};
ghost use Rattle.pbm_reader.specs.Given.{AfterFault};
ghost use Rattle.pbm_reader.specs.Reading.{HasReadCause};
ghost use Rattle.pbm_reader.specs.Rows.{RowsFail, TookRows};
ghost use Rattle.pbm_reader.specs.Images.{AreUndecided};
ghost use Rattle.pbm_reader.specs.Held.{ReadsNothing};
ghost use Rattle.pbm_reader.specs.declared.form.Form.TheVariants.{Raw};

use crate::fault::PageFault;
use crate::feed::Feed;
use crate::form::Form;
use crate::header::{Header, read_sizes};
use crate::limits::MAX_INPUT;
use crate::raster::read_raster;
use crate::row_sink::RowSink;
use layout_outside::Source;
use std::alloc::Global;

/// The header of a page whose rows were given, and where its raster ends.
#[derive(Debug, Clone, Copy, PartialEq, Eq, Drop)]
pub struct PageRows {
    pub header: Header,
    /// In bytes from the front of the page.
    pub end: u64,
}

/// Reads a page, behind the name of its form, to the end of its raster, and gives its rows to the
/// sink.
pub(crate) fn read_rows<S: Source, R: RowSink>(
    alloc: Global,
    feed: &mut Feed<'_, S>,
    form: Form,
    rows: &mut R,
) -> Result<PageRows, PageFault>
    ensures ok { IfOk result (λ read. (first : SourceView) → Took first feed.old.source (magic form)
        → TookRows R.begun R.given first feed.new.source rows.old rows.new read) }
    ensures form { IfOk result (λ read. read.header.form ≡ form) }
    ensures end { IfOk result (λ read. read.end ≤ MAX_INPUT) }
    ensures fault { IfErr result (λ fault. (first : SourceView) → Took first feed.old.source (magic form)
        → RowsFail first feed.new.source fault) }
    ensures low { IfErr result HasLowPlace }
    ensures top { IfErr result (λ fault. (first : SourceView) → Took first feed.old.source (magic form)
        → AfterFault R.begun R.given R.unchanged first feed.new.source rows.old rows.new fault) }
    // Where what is held has the rows of a raw image whole, or decides a fault, nothing is read.
    ensures held { form ≡ Raw → ReadsNothing feed.old feed.new (2 + length feed.old.unread) result
        ⊎ AreUndecided (magic form ++ feed.old.unread) }
    ensures drained { result ≡ Err PageFault.ReadFault → feed.new.unread ≡ [] }
    ensures same { feed.new.borrow ≡ feed.old.borrow }
    ensures cause { HasReadCause feed.old.source feed.new.source result }
{
    let header = read_sizes(feed, form)?;
    rows.begin(header.size.width, header.size.height)?;
    let end = read_raster(alloc, feed, header, rows)?;
    Ok(PageRows { header, end })
}
