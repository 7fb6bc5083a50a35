//! Documents and summaries that were written down by hand from the format, line by line.
ghost use Rattle.std.specs.Prelude.{IsTrue};
ghost use Rattle.hocr_writer.specs.Listing.{AreWholeLayouts};

use crate::{Layout, Layouts, Mark, Marks, WordRows, hocr_text, pages_text, summary_text};
use layout_geom::{Area, Areas, Name, Numbers, Order, Rect, Rects};
use std::alloc::Global;
use std::test::Fail;
use xy_cut::{Cell, Cells, Path, Side};

type Sides = [u16; 4];

// A layout, field by field, with what its document says of it.
struct Case {
    name: &'static str,
    page: u32,
    size: [u16; 2],
    black: u64,
    image: &'static [u8],
    whites: &'static [Sides],
    gutters: &'static [Sides],
    blocks: &'static [Sides],
    // The path and the box of each cell.
    cells: &'static [(&'static [Side], Sides)],
    // The box, the slope, the offset and the depth of each line.
    lines: &'static [(Sides, i8, i16, u8)],
    is_cycle: bool,
    order: &'static [u32],
    // The first position, the count and the box of each area.
    areas: &'static [(u32, u32, Sides)],
    // The content of the meta element `layout-order`.
    order_text: &'static str,
    // The page's element.
    element: &'static str,
    summary: &'static [u8],
    // The words of each line, where they are shown.
    words: &'static [&'static [Sides]],
}

// A sinking and a rising line, with the greatest values of the other numbers, and a name.
const SLANTED_LINES: Case = Case {
    name: "slanted lines",
    page: u32::MAX,
    size: [u16::MAX, u16::MAX],
    black: u64::MAX,
    image: b"scan.pbm",
    whites: &[],
    gutters: &[],
    blocks: &[],
    cells: &[],
    lines: &[
        ([0, 20, 1010, 40], 10, 30, 0),
        ([0, 20, 1010, 40], -10, 41, 0),
    ],
    is_cycle: false,
    order: &[1, 0],
    areas: &[(0, 1, [0, 20, 1010, 40]), (1, 1, [0, 20, 1010, 40])],
    order_text: "4294967295 topological",
    element: "\
<div class='ocr_page' id='page_4294967295' title='image \"scan.pbm\"; bbox 0 0 65535 65535; \
ppageno 4294967295; x_black 18446744073709551615'>\n\
<div class='ocr_carea' id='area_4294967295_0' title='bbox 0 20 1010 40'>\n\
<span class='ocr_line' id='line_4294967295_1' title='bbox 0 20 1010 40; baseline -0.010 1'>\
<span class='ocrx_word' id='word_4294967295_1_0' title='bbox 0 20 1010 40'></span></span>\n\
</div>\n\
<div class='ocr_carea' id='area_4294967295_1' title='bbox 0 20 1010 40'>\n\
<span class='ocr_line' id='line_4294967295_0' title='bbox 0 20 1010 40; baseline 0.010 -10'>\
<span class='ocrx_word' id='word_4294967295_0_0' title='bbox 0 20 500 40'></span>\
<span class='ocrx_word' id='word_4294967295_0_1' title='bbox 510 20 1010 40'></span></span>\n\
</div>\n\
</div>\n",
    summary: b"\
page 65535 65535\nblack 18446744073709551615\ncomponents 12\nmedian 10\nrectangles 0\ngutters 0\n\
lines 2\nareas 2\norder topological\n",
    words: &[
        &[[0, 20, 500, 40], [510, 20, 1010, 40]],
        &[[0, 20, 1010, 40]],
    ],
};

// Two white rectangles, of which one is a gutter; two blocks; two cells, at the ends of no cut and of two; three lines and a cycle of
// two of them, which is not in rising order.
const CYCLE: Case = Case {
    name: "cycle",
    page: 0,
    size: [100, 60],
    black: 0,
    image: b"",
    whites: &[[0, 10, 100, 20], [70, 0, 80, 60]],
    gutters: &[[70, 0, 80, 60]],
    blocks: &[[0, 0, 60, 30], [40, 40, 60, 50]],
    cells: &[
        (&[], [0, 0, 60, 50]),
        (&[Side::Before, Side::After], [40, 40, 60, 50]),
    ],
    lines: &[
        ([0, 0, 60, 10], 0, 10, 0),
        ([0, 20, 60, 30], 32, 31, 0),
        ([40, 40, 60, 50], -32, 50, 0),
    ],
    is_cycle: true,
    order: &[2, 0],
    areas: &[(0, 2, [0, 0, 60, 30]), (2, 1, [40, 40, 60, 50])],
    order_text: "0 cycle 2 0",
    element: "\
<div class='ocr_page' id='page_0' title='bbox 0 0 100 60; ppageno 0; x_black 0'>\n\
<div class='ocrx_whitespace' id='white_0_0' title='bbox 0 10 100 20'></div>\n\
<div class='ocrx_whitespace' id='white_0_1' title='bbox 70 0 80 60'></div>\n\
<div class='ocr_separator' id='gutter_0_0' title='bbox 70 0 80 60'></div>\n\
<div class='ocrx_block' id='block_0_0' title='bbox 0 0 60 30'></div>\n\
<div class='ocrx_block' id='block_0_1' title='bbox 40 40 60 50'></div>\n\
<div class='ocrx_cell' id='cell_0_0' title='bbox 0 0 60 50; x_path r'></div>\n\
<div class='ocrx_cell' id='cell_0_1' title='bbox 40 40 60 50; x_path 01'></div>\n\
<div class='ocr_carea' id='area_0_0' title='bbox 0 0 60 30'>\n\
<span class='ocr_line' id='line_0_0' title='bbox 0 0 60 10; baseline 0.000 0'></span>\n\
<span class='ocr_line' id='line_0_1' title='bbox 0 20 60 30; baseline 0.032 1'></span>\n\
</div>\n\
<div class='ocr_carea' id='area_0_1' title='bbox 40 40 60 50'>\n\
<span class='ocr_line' id='line_0_2' title='bbox 40 40 60 50; baseline -0.032 -2'></span>\n\
</div>\n\
</div>\n",
    summary: b"\
page 100 60\nblack 0\ncomponents 12\nmedian 10\nrectangles 2\ngutters 1\nlines 3\nareas 2\norder cycle 2 0\n",
    words: &[],
};

// Five letters, of which two have tails: the line of the tails lies 4 rows below the baseline, at the bottom edge of the box.
const LETTERS_WITH_TAILS: Case = Case {
    name: "letters with tails",
    page: 0,
    size: [110, 60],
    black: 1080,
    image: b"",
    whites: &[],
    gutters: &[],
    blocks: &[],
    cells: &[],
    lines: &[([10, 10, 100, 34], 0, 30, 4)],
    is_cycle: false,
    order: &[0],
    areas: &[(0, 1, [10, 10, 100, 34])],
    order_text: "0 topological",
    element: "\
<div class='ocr_page' id='page_0' title='bbox 0 0 110 60; ppageno 0; x_black 1080'>\n\
<div class='ocr_carea' id='area_0_0' title='bbox 10 10 100 34'>\n\
<span class='ocr_line' id='line_0_0' title='bbox 10 10 100 34; baseline 0.000 -4; x_depth 4'></span>\n\
</div>\n\
</div>\n",
    summary: b"\
page 110 60\nblack 1080\ncomponents 12\nmedian 10\nrectangles 0\ngutters 0\n\
lines 1\nareas 1\norder topological\n",
    words: &[],
};

const CASES: [Case; 3] = [SLANTED_LINES, CYCLE, LETTERS_WITH_TAILS];

// The whole document of a case.
fn document(alloc: Global, case: &Case) -> Result<String, Fail> {
    let order = case.order_text;
    let element = case.element;
    let words = if case.words.is_empty() {
        ""
    } else {
        " ocrx_word"
    };
    Ok(format!(in alloc;
        "\
<!DOCTYPE html>\n<html>\n<head>\n<title>layout</title>\n<meta charset='utf-8'>\n<meta name='ocr-system' content='layout'>\n\
<meta name='ocr-capabilities' content='ocr_page ocr_carea ocr_line ocr_separator{words}'>\n\
<meta name='layout-order' content='{order}'>\n</head>\n<body>\n{element}</body>\n</html>\n"
    )?)
}

fn rect([x0, y0, x1, y1]: &Sides) -> Result<Rect, Fail> {
    Ok(Rect::new(*x0, *y0, *x1, *y1).ok_or("no rectangle")?)
}

fn boxes(alloc: Global, sides: &[Sides]) -> Result<Rects, Fail> {
    let mut boxes = Rects::new(alloc);
    for sides in sides {
        boxes.push(rect(sides)?)?;
    }
    Ok(boxes)
}

fn marks(alloc: Global, lines: &[(Sides, i8, i16, u8)]) -> Result<Marks, Fail> {
    let mut marks = Marks::new(alloc);
    for (sides, slope, offset, depth) in lines {
        marks.push(Mark {
            bbox: rect(sides)?,
            slope: *slope,
            offset: *offset,
            depth: *depth,
        })?;
    }
    Ok(marks)
}

fn cells(alloc: Global, rows: &[(&[Side], Sides)]) -> Result<Cells, Fail> {
    let mut cells = Cells::new(alloc);
    for (sides, bbox) in rows {
        let mut path = Path::new(alloc);
        for side in sides.iter() {
            path.push(*side)?;
        }
        cells.push(Cell {
            path,
            count: 1,
            bbox: rect(bbox)?,
        })?;
    }
    Ok(cells)
}

fn word_rows(alloc: Global, rows: &[&[Sides]]) -> Result<WordRows, Fail> {
    let mut words = WordRows::new(alloc);
    for row in rows {
        words.push(boxes(alloc, *row)?)?;
    }
    Ok(words)
}

fn areas(alloc: Global, stretches: &[(u32, u32, Sides)]) -> Result<Areas, Fail> {
    let mut areas = Areas::new(alloc);
    for (first, count, sides) in stretches {
        areas.push(Area {
            first: *first,
            count: *count,
            bbox: rect(sides)?,
        })?;
    }
    Ok(areas)
}

fn order(alloc: Global, is_cycle: bool, lines: &[u32]) -> Result<Order, Fail> {
    let mut numbers = Numbers::new(alloc);
    for line in lines {
        numbers.push(*line)?;
    }
    Ok(if is_cycle {
        Order::Cycle(numbers)
    } else {
        Order::Topological(numbers)
    })
}

fn name(alloc: Global, bytes: &[u8]) -> Result<Name, Fail> {
    let mut name = Name::new(alloc);
    for byte in bytes {
        name.push(*byte)?;
    }
    Ok(name)
}

fn layout_of_case(alloc: Global, case: &Case) -> Result<Layout, Fail> {
    Ok(Layout {
        page: case.page,
        width: case.size[0],
        height: case.size[1],
        black: case.black,
        kept: 12,
        median: 10,
        image: name(alloc, case.image)?,
        whites: boxes(alloc, case.whites)?,
        gutters: boxes(alloc, case.gutters)?,
        blocks: boxes(alloc, case.blocks)?,
        cells: cells(alloc, case.cells)?,
        lines: marks(alloc, case.lines)?,
        order: order(alloc, case.is_cycle, case.order)?,
        areas: areas(alloc, case.areas)?,
        with_words: !case.words.is_empty(),
        words: word_rows(alloc, case.words)?,
    })
}

#[test]
fn documents_are_as_the_format_says(rt: HostRuntime) -> Result<(), Fail> {
    for case in &CASES {
        let layout = layout_of_case(rt.alloc(), case)?;
        if !layout.is_whole() {
            return Err("not whole")?;
        }
        let text = hocr_text(rt.alloc(), &layout)?;
        let name = case.name;
        let document = document(rt.alloc(), case)?;
        assert_eq!(rt; text.as_slice(), document.as_bytes(), "{name}");
    }
    Ok(())
}

// Whether the layouts, which show no words, can be written in one document.
fn are_whole(layouts: &Layouts) -> bool
    ensures { IsTrue result → AreWholeLayouts layouts.now }
{
    if layouts.is_empty() {
        return false;
    }
    for (place, layout) in layouts.as_slice().iter().enumerate() {
        if !layout.is_whole() || layout.page as usize != place || layout.with_words {
            return false;
        }
    }
    true
}

// The document of layouts that can be written.
fn text_of(alloc: Global, layouts: &Layouts) -> Result<Vec<u8>, Fail> {
    if !are_whole(layouts) {
        return Err("not whole")?;
    }
    Ok(pages_text(alloc, layouts)?)
}

// A blank page of 16 by 16 pixels, by its number.
fn blank_page(alloc: Global, page: u32) -> Result<Layout, Fail> {
    Ok(Layout {
        page,
        width: 16,
        height: 16,
        black: 0,
        kept: 0,
        median: 0,
        image: Name::new(alloc),
        whites: boxes(alloc, &[[0, 0, 16, 16]])?,
        gutters: Rects::new(alloc),
        blocks: Rects::new(alloc),
        cells: Cells::new(alloc),
        lines: Marks::new(alloc),
        order: order(alloc, false, &[])?,
        areas: Areas::new(alloc),
        with_words: false,
        words: WordRows::new(alloc),
    })
}

#[test]
fn one_page_twice_has_one_head_and_two_pages(rt: HostRuntime) -> Result<(), Fail> {
    let alloc = rt.alloc();
    let mut layouts = Layouts::new(alloc);
    layouts.push(blank_page(alloc, 0)?)?;
    layouts.push(blank_page(alloc, 1)?)?;
    let document = "\
<!DOCTYPE html>\n<html>\n<head>\n<title>layout</title>\n<meta charset='utf-8'>\n<meta name='ocr-system' content='layout'>\n\
<meta name='ocr-capabilities' content='ocr_page ocr_carea ocr_line ocr_separator'>\n\
<meta name='layout-order' content='0 topological'>\n\
<meta name='layout-order' content='1 topological'>\n\
</head>\n<body>\n\
<div class='ocr_page' id='page_0' title='bbox 0 0 16 16; ppageno 0; x_black 0'>\n\
<div class='ocrx_whitespace' id='white_0_0' title='bbox 0 0 16 16'></div>\n\
</div>\n\
<div class='ocr_page' id='page_1' title='bbox 0 0 16 16; ppageno 1; x_black 0'>\n\
<div class='ocrx_whitespace' id='white_1_0' title='bbox 0 0 16 16'></div>\n\
</div>\n\
</body>\n</html>\n";
    let text = text_of(alloc, &layouts)?;
    assert_eq!(rt; text.as_slice(), document.as_bytes());
    Ok(())
}

// The first page has a cycle of its lines, and the second has one line.
#[test]
fn each_page_has_its_own_order_and_its_own_elements(rt: HostRuntime) -> Result<(), Fail> {
    let alloc = rt.alloc();
    let mut layouts = Layouts::new(alloc);
    layouts.push(layout_of_case(alloc, &CYCLE)?)?;
    let mut second = layout_of_case(alloc, &LETTERS_WITH_TAILS)?;
    second.page = 1;
    layouts.push(second)?;
    let case = &CYCLE;
    let first = case.element;
    let document = format!(in alloc;
        "\
<!DOCTYPE html>\n<html>\n<head>\n<title>layout</title>\n<meta charset='utf-8'>\n<meta name='ocr-system' content='layout'>\n\
<meta name='ocr-capabilities' content='ocr_page ocr_carea ocr_line ocr_separator'>\n\
<meta name='layout-order' content='0 cycle 2 0'>\n\
<meta name='layout-order' content='1 topological'>\n\
</head>\n<body>\n{first}\
<div class='ocr_page' id='page_1' title='bbox 0 0 110 60; ppageno 1; x_black 1080'>\n\
<div class='ocr_carea' id='area_1_0' title='bbox 10 10 100 34'>\n\
<span class='ocr_line' id='line_1_0' title='bbox 10 10 100 34; baseline 0.000 -4; x_depth 4'></span>\n\
</div>\n\
</div>\n\
</body>\n</html>\n"
    )?;
    let text = text_of(alloc, &layouts)?;
    assert_eq!(rt; text.as_slice(), document.as_bytes());
    Ok(())
}

#[test]
fn summaries_are_as_the_format_says(rt: HostRuntime) -> Result<(), Fail> {
    for case in &CASES {
        let layout = layout_of_case(rt.alloc(), case)?;
        let text = summary_text(rt.alloc(), &layout)?;
        let name = case.name;
        assert_eq!(rt; text.as_slice(), case.summary, "{name}");
    }
    Ok(())
}

#[test]
fn layouts_with_a_gap_or_a_wrong_number_are_not_whole(rt: HostRuntime) -> Result<(), Fail> {
    let alloc = rt.alloc();
    let page: Sides = [0, 0, 10, 10];
    let two: &[(Sides, i8, i16, u8)] = &[(page, 0, 10, 0), (page, 0, 10, 0)];
    let whole: &[(u32, u32, Sides)] = &[(0, 1, page), (1, 1, page)];
    let cases: [(
        &[(Sides, i8, i16, u8)],
        bool,
        &[u32],
        &[(u32, u32, Sides)],
        bool,
    ); 12] = [
        (two, false, &[1, 0], whole, true),
        (two, true, &[1], whole, true),
        (two, false, &[0, 0], whole, false),
        (two, false, &[0], whole, false),
        (two, false, &[0, 2], whole, false),
        (two, true, &[2], whole, false),
        (two, false, &[0, 1], &[(0, 1, page)], false),
        (two, false, &[0, 1], &[(1, 1, page), (0, 1, page)], false),
        (two, false, &[0, 1], &[(0, 2, page), (1, 1, page)], false),
        (
            &[(page, 33, 10, 0), (page, 0, 10, 0)],
            false,
            &[0, 1],
            whole,
            false,
        ),
        (
            &[(page, 0, 10, 0), (page, 0, -301, 0)],
            false,
            &[0, 1],
            whole,
            false,
        ),
        (
            &[(page, 0, 10, 64), (page, 0, 10, 0)],
            false,
            &[0, 1],
            whole,
            false,
        ),
    ];
    for (place, (lines, is_cycle, numbers, stretches, is_whole)) in cases.iter().enumerate() {
        let mut layout = layout_of_case(alloc, &CASES[0])?;
        layout.lines = marks(alloc, lines)?;
        layout.order = order(alloc, *is_cycle, numbers)?;
        layout.areas = areas(alloc, stretches)?;
        layout.with_words = false;
        layout.words = WordRows::new(alloc);
        assert_eq!(rt; layout.is_whole(), *is_whole, "case {place}");
    }
    Ok(())
}

// So many lines without a word.
fn wordless_rows(alloc: Global, count: u32) -> Result<WordRows, Fail> {
    let mut rows = WordRows::new(alloc);
    for _ in 0..count {
        rows.push(Rects::new(alloc))?;
    }
    Ok(rows)
}

// A layout of two lines, with words that are told or not, and so many rows of them.
#[test]
fn a_layout_has_words_for_each_line_or_tells_none(rt: HostRuntime) -> Result<(), Fail> {
    let alloc = rt.alloc();
    for (with_words, rows, is_whole) in [
        (true, 2, true),
        (true, 1, false),
        (true, 0, false),
        (false, 0, true),
        (false, 2, false),
    ] {
        let mut layout = layout_of_case(alloc, &CASES[0])?;
        layout.with_words = with_words;
        layout.words = wordless_rows(alloc, rows)?;
        assert_eq!(rt; layout.is_whole(), is_whole, "{rows} rows");
    }
    Ok(())
}
