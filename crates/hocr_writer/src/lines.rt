//! The element of a text line: its box, its baseline, the line of its descenders, and its words.
ghost use Rattle.std.specs.Prelude.{◌≡◌, ◌++◌, OnOk};
ghost use Rattle.hocr_writer.specs.Lines.{sign_text, slope_text, constant_of, descent_text, depth_text, word_element, words_text, mark_front, mark_line};

use crate::boxes::{put_box_front, put_numbered_box};
use crate::layout::Mark;
use crate::text::TextBuffer;
use layout_geom::Rect;
use layout_limits::OutOfMemory;
use line_quality::height_at;

// The sign of a number, where it is negative.
fn sign(slope: i8) -> &'static [u8]
    ensures { result.now ≡ sign_text slope }
{
    if slope < 0 { b"-" } else { b"" }
}

// A slope in thousandths, with three decimals.
fn put_slope(text: &mut TextBuffer, slope: i8) -> Result<(), OutOfMemory>
    ensures grown { OnOk result (text.new ≡ text.old ++ slope_text slope) }
{
    let steps = slope.unsigned_abs();
    let digits = [
        b'0' + steps / 100,
        b'0' + steps / 10 % 10,
        b'0' + steps % 10,
    ];
    text.push(sign(slope))?;
    text.push(b"0.")?;
    text.push(&digits)?;
    Ok(())
}

// How far below the bottom edge of its box the baseline begins, at the box's left edge.
fn constant(mark: Mark) -> i32
    ensures { result ≡ constant_of mark }
{
    height_at(mark.slope, mark.offset, mark.bbox.x0()) - mark.bbox.y1() as i32
}

// How many rows below the baseline the line of the descenders lies.
fn put_descent(text: &mut TextBuffer, depth: u8) -> Result<(), OutOfMemory>
    ensures grown { OnOk result (text.new ≡ text.old ++ descent_text depth) }
{
    text.push(b"; x_depth ")?;
    text.push_number(depth)?;
    Ok(())
}

// The same, where the two are not one line.
#[tactic(auto, using(crate::proofs::Joined::growing), unfolding(crate::specs::Lines::depth_text))]
fn put_depth(text: &mut TextBuffer, depth: u8) -> Result<(), OutOfMemory>
    ensures grown { OnOk result (text.new ≡ text.old ++ depth_text depth) }
{
    if depth == 0 {
        Ok(())
    } else {
        put_descent(text, depth)
    }
}

// A word of a line, by the numbers of the line and of the word.
#[tactic(auto, using(crate::proofs::Joined::growing), unfolding(crate::specs::Lines::word_element))]
fn put_word(
    text: &mut TextBuffer,
    page: u32,
    line: usize,
    number: usize,
    bbox: &Rect,
) -> Result<(), OutOfMemory>
    ensures grown { OnOk result (text.new ≡ text.old ++ word_element page line number bbox.now) }
{
    text.push(b"<span class='ocrx_word' id='word_")?;
    text.push_number(page)?;
    text.push(b"_")?;
    text.push_number(line)?;
    put_numbered_box(text, number, bbox)?;
    text.push(b"'></span>")?;
    Ok(())
}

// The words of a line, from left to right and numbered from 0.
fn put_words(
    text: &mut TextBuffer,
    page: u32,
    line: usize,
    words: &[Rect],
) -> Result<(), OutOfMemory>
    ensures grown { OnOk result (text.new ≡ text.old ++ words_text page line words.now) }
{
    for (number, bbox) in words.iter().enumerate() {
        put_word(text, page, line, number, bbox)?;
    }
    Ok(())
}

// The element of a text line begins.
fn put_mark_front(
    text: &mut TextBuffer,
    page: u32,
    number: usize,
    mark: Mark,
) -> Result<(), OutOfMemory>
    ensures grown { OnOk result (text.new ≡ text.old ++ mark_front page number mark) }
{
    put_box_front(
        text,
        b"<span class='ocr_line' id='line_",
        page,
        number,
        &mark.bbox,
    )?;
    text.push(b"; baseline ")?;
    put_slope(text, mark.slope)?;
    text.push(b" ")?;
    text.push_number(constant(mark))?;
    put_depth(text, mark.depth)?;
    text.push(b"'>")?;
    Ok(())
}

/// A text line of a number, with its words.
pub fn put_mark(
    text: &mut TextBuffer,
    page: u32,
    number: usize,
    mark: Mark,
    words: &[Rect],
) -> Result<(), OutOfMemory>
    ensures grown { OnOk result (text.new ≡ text.old ++ mark_line page number mark words.now) }
{
    put_mark_front(text, page, number, mark)?;
    put_words(text, page, number, words)?;
    text.push(b"</span>\n")?;
    Ok(())
}
