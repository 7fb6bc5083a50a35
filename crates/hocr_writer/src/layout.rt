//! What was found on a page: what its document tells.
use layout_geom::{Areas, Items, Name, Order, Rect, Rects};
use xy_cut::Cells;

/// A text line as the document shows it.
#[derive(Clone, Copy, Debug, PartialEq, Eq)]
pub struct Mark {
    /// The least rectangle round the boxes of the line: its `bbox`, in pixels.
    pub bbox: Rect,
    /// The slope of its baseline in thousandths, from `LEAST_SLOPE` to `MAX_SLOPE`. It sinks to the right where it is positive.
    pub slope: i8,
    /// The height of its baseline at the left edge of the page, in rows from the top: from
    /// `LEAST_OFFSET` to `MAX_OFFSET`.
    pub offset: i16,
    /// How far the line of its descenders lies below its baseline, in rows: from 0 to `MAX_DEPTH`.
    pub depth: u8,
}

/// Text lines, each named by its place.
pub type Marks = Items<Mark>;

/// What was found on a page: what its document tells.
#[derive(Drop)]
pub struct Layout {
    /// The number of the page in its input, from 0. It is hOCR's `ppageno`, and stands in each `id`.
    pub page: u32,
    /// The width of the page in pixels: the right end of its `bbox`, which begins at 0.
    pub width: u16,
    /// The height of the page in pixels: the lower end of its `bbox`, which begins at 0.
    pub height: u16,
    /// How many pixels of the page are black. It is the property `x_black`, one of those with `x_`
    /// that hOCR leaves to each program.
    pub black: u64,
    /// How many connected components of black pixels are kept: those that are no noise. The document
    /// does not have it.
    pub kept: u32,
    /// The lower median of the heights of the kept components in pixels, or 0 where none is kept. The
    /// document does not have it.
    pub median: u16,
    /// The name of the page's image, hOCR's property `image`, or no byte where it has none.
    pub image: Name,
    /// The white rectangles, in the order in which they were found. The k-th, from 0, is an element
    /// `ocrx_whitespace`, with the `id` `white_` and the page's number, `_` and k.
    pub whites: Rects,
    /// The white rectangles that are gutters between columns of text. The k-th, from 0, is an element
    /// `ocr_separator`, with the `id` `gutter_` and the page's number, `_` and k.
    pub gutters: Rects,
    /// The blocks of the page: the boxes of what its smeared runs of black join. The k-th, from 0, is an
    /// element `ocrx_block`, with the `id` `block_` and the page's number, `_` and k.
    pub blocks: Rects,
    /// The cells that the boxes of the page fall into, in the order of their paths. The k-th, from 0, is
    /// an element `ocrx_cell`, with the `id` `cell_` and the page's number, `_` and k. Its property
    /// `x_path` is its path: the digit 0 or 1 for each cut, or `r` where there is none.
    pub cells: Cells,
    /// The text lines, by their numbers. The one of number n is an element `ocr_line`, with the `id`
    /// `line_` and the page's number, `_` and n.
    pub lines: Marks,
    /// The order in which the lines are read, or a cycle that forbids it.
    pub order: Order,
    /// The areas that the listing of the lines falls into. The k-th, from 0, is an element
    /// `ocr_carea`, with the `id` `area_` and the page's number, `_` and k. Its lines stand in it.
    pub areas: Areas,
    /// Whether the words of each line are shown.
    pub with_words: bool,
    /// The words of each line, by the number of the line and from left to right; no item where they are not
    /// shown. The k-th word, from 0, of the line of number n is an element `ocrx_word`, with the `id` `word_` and
    /// the page's number, `_`, n, `_` and k. It stands in its line.
    pub words: WordRows,
}

/// The boxes of words, line by line.
pub type WordRows = Items<Rects>;

/// The layouts of the pages of an input, in the order of the pages.
pub type Layouts = Items<Layout>;
