//! The words of the text lines of a page.
ghost use Rattle.std.specs.Prelude.{IfOk, All};
ghost use Rattle.layout_core.specs.WordRows.{AreShownWords, AreWordsOfLines, HasMembers};

use components::Kept;
use hocr_writer::WordRows;
use layout_limits::OutOfMemory;
use line_search::{Line, Lines};
use std::alloc::Global;
use word_split::word_boxes;

/// The words of each line.
fn words_of_lines(alloc: Global, kept: &Kept, lines: &[Line]) -> Result<WordRows, OutOfMemory>
    requires { All (HasMembers kept.now.boxes) lines.now }
    ensures { IfOk result (AreWordsOfLines kept.now lines.now) }
{
    let mut rows = WordRows::new(alloc);
    for line in lines {
        let words = word_boxes(alloc, &kept.boxes, &line.members, kept.median)?;
        rows.push(words)?;
    }
    Ok(rows)
}

/// The words of each line where they are shown, and none where they are not.
pub(crate) fn shown_words(
    alloc: Global,
    shown: bool,
    kept: &Kept,
    lines: &Lines,
) -> Result<WordRows, OutOfMemory>
    requires { All (HasMembers kept.now.boxes) lines.now }
    ensures { IfOk result (AreShownWords shown kept.now lines.now) }
{
    if shown {
        words_of_lines(alloc, kept, lines.as_slice())
    } else {
        Ok(WordRows::new(alloc))
    }
}
