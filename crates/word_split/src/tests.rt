//! Words of lines that were written down by hand.
ghost use Rattle.std.specs.Prelude.{IsTrue, ◌↔◌, All};
ghost use Rattle.layout_geom.specs.Rectangles.{Encloses};

use crate::{MAX_MEMBERS, word_boxes, words_are_unique};
use layout_geom::{Numbers, Rect, Rects};
use layout_limits::OutOfMemory;
use std::alloc::Global;
use std::process::Abort;
use std::test::Fail;

/// A line, its members in the order in which they are named, and its words; boxes are `x0 y0 x1 y1`.
struct Case<'a> {
    name: &'a str,
    boxes: &'a [[u16; 4]],
    members: &'a [u32],
    median: u16,
    words: &'a [[u16; 4]],
}

const CASES: [Case; 14] = [
    Case {
        name: "a wide gap between two narrow ones",
        boxes: &[
            [0, 10, 10, 20],
            [12, 10, 22, 20],
            [34, 10, 44, 20],
            [46, 10, 56, 20],
        ],
        members: &[0, 1, 2, 3],
        median: 10,
        words: &[[0, 10, 22, 20], [34, 10, 56, 20]],
    },
    Case {
        name: "gaps that are too much alike",
        boxes: &[[0, 0, 10, 10], [22, 0, 32, 10], [52, 0, 62, 10]],
        members: &[0, 1, 2],
        median: 10,
        words: &[[0, 0, 62, 10]],
    },
    Case {
        name: "equal gaps",
        boxes: &[[10, 10, 20, 20], [30, 10, 40, 20], [50, 10, 60, 20]],
        members: &[0, 1, 2],
        median: 10,
        words: &[[10, 10, 60, 20]],
    },
    Case {
        name: "one member",
        boxes: &[[0, 0, 1, 1], [3, 4, 5, 6]],
        members: &[1],
        median: 0,
        words: &[[3, 4, 5, 6]],
    },
    Case {
        name: "no gap at all",
        boxes: &[[0, 0, 10, 10], [10, 0, 20, 10], [15, 0, 30, 10]],
        members: &[0, 1, 2],
        median: 0,
        words: &[[0, 0, 30, 10]],
    },
    Case {
        name: "two thresholds that separate alike: gaps of 1, 10 and 19",
        boxes: &[
            [0, 0, 10, 10],
            [11, 0, 21, 10],
            [31, 0, 41, 10],
            [60, 0, 70, 10],
        ],
        members: &[0, 1, 2, 3],
        median: 10,
        words: &[[0, 0, 21, 10], [31, 0, 41, 10], [60, 0, 70, 10]],
    },
    Case {
        name: "the same with the gaps the other way round",
        boxes: &[
            [0, 0, 10, 10],
            [29, 0, 39, 10],
            [49, 0, 59, 10],
            [60, 0, 70, 10],
        ],
        members: &[0, 1, 2, 3],
        median: 10,
        words: &[[0, 0, 10, 10], [29, 0, 39, 10], [49, 0, 70, 10]],
    },
    Case {
        name: "members in any order, and a box that is none",
        boxes: &[
            [34, 10, 44, 20],
            [0, 10, 10, 20],
            [24, 0, 32, 9],
            [46, 10, 56, 20],
            [12, 10, 22, 20],
        ],
        members: &[3, 1, 0, 4],
        median: 10,
        words: &[[0, 10, 22, 20], [34, 10, 56, 20]],
    },
    Case {
        name: "a box over the next one: gaps of 0, 2, 2 and 40",
        boxes: &[
            [0, 0, 40, 10],
            [5, 3, 10, 12],
            [42, 0, 50, 10],
            [52, 0, 60, 10],
            [100, 2, 110, 8],
        ],
        members: &[0, 1, 2, 3, 4],
        median: 10,
        words: &[[0, 0, 60, 12], [100, 2, 110, 8]],
    },
    Case {
        name: "wide gaps exactly twice as wide, and a quarter of the median",
        boxes: &[[0, 0, 10, 10], [20, 0, 30, 10], [50, 0, 60, 10]],
        members: &[0, 1, 2],
        median: 80,
        words: &[[0, 0, 30, 10], [50, 0, 60, 10]],
    },
    Case {
        name: "the same under a greater median",
        boxes: &[[0, 0, 10, 10], [20, 0, 30, 10], [50, 0, 60, 10]],
        members: &[0, 1, 2],
        median: 81,
        words: &[[0, 0, 60, 10]],
    },
    Case {
        name: "wide gaps less than twice as wide",
        boxes: &[[0, 0, 10, 10], [20, 0, 30, 10], [49, 0, 59, 10]],
        members: &[0, 1, 2],
        median: 10,
        words: &[[0, 0, 59, 10]],
    },
    Case {
        name: "two members are one word, however far apart",
        boxes: &[[0, 0, 10, 10], [900, 0, 910, 10]],
        members: &[1, 0],
        median: 10,
        words: &[[0, 0, 910, 10]],
    },
    Case {
        name: "equal boxes",
        boxes: &[
            [0, 0, 10, 10],
            [0, 0, 10, 10],
            [30, 0, 40, 10],
            [30, 0, 40, 10],
        ],
        members: &[3, 0, 2, 1],
        median: 10,
        words: &[[0, 0, 10, 10], [30, 0, 40, 10]],
    },
];

/// The rectangles of these sides.
fn rects(alloc: Global, sides: &[[u16; 4]]) -> Result<Rects, OutOfMemory> {
    let mut rects = Rects::new(alloc);
    for [x0, y0, x1, y1] in sides {
        if let Some(rect) = Rect::new(*x0, *y0, *x1, *y1) {
            rects.push(rect)?;
        }
    }
    Ok(rects)
}

fn numbers(alloc: Global, items: &[u32]) -> Result<Numbers, OutOfMemory> {
    let mut numbers = Numbers::new(alloc);
    for item in items {
        numbers.push(*item)?;
    }
    Ok(numbers)
}

/// Whether a rectangle contains each box.
fn contains_all(outer: &Rect, boxes: &Rects) -> bool
    ensures { IsTrue result ↔ All (Encloses outer.now) boxes.now }
{
    boxes.as_slice().iter().all(|rect| outer.contains(rect))
}

/// The words of members, after a look that the call has what it asks for.
fn words_of(
    rt: &impl Abort,
    alloc: Global,
    boxes: &Rects,
    members: &Numbers,
    median: u16,
) -> Result<Rects, Fail> {
    let page = Rect::new(0, 0, 8192, 4096).expect(rt, "a page");
    assert!(rt; 0 < members.len() && members.len() <= MAX_MEMBERS);
    assert!(rt;
        members
            .as_slice()
            .iter()
            .all(|position| (*position as usize) < boxes.len())
    );
    if !contains_all(&page, boxes) {
        return Err("a box is outside of the page")?;
    }
    Ok(word_boxes(alloc, boxes, members, median)?)
}

#[test]
fn lines_have_the_words_of_the_cases(rt: HostRuntime) -> Result<(), Fail> {
    for case in &CASES {
        let boxes = rects(rt.alloc(), case.boxes)?;
        let members = numbers(rt.alloc(), case.members)?;
        let words = words_of(&rt, rt.alloc(), &boxes, &members, case.median)?;
        let wanted = rects(rt.alloc(), case.words)?;
        assert!(rt; words.as_slice() == wanted.as_slice(), "{}", case.name);
    }
    Ok(())
}

/// As many members as a line may have: 15 a column, and so many columns left of a gap of 1000 as right of it.
#[test]
fn a_line_of_60_000_members_has_two_words(rt: HostRuntime) -> Result<(), Fail> {
    let alloc = rt.alloc();
    let mut boxes = Rects::new(alloc);
    let mut members = Numbers::new(alloc);
    for number in 0u16..60_000 {
        let column = number / 15;
        let x0 = if column < 2000 { column } else { column + 1000 };
        let y0 = number % 15;
        let rect = Rect::new(x0, y0, x0 + 1, y0 + 1).expect(&rt, "a pixel");
        boxes.push(rect)?;
        members.push(59_999 - u32::from(number))?;
    }
    let words = words_of(&rt, alloc, &boxes, &members, 1)?;
    let wanted = rects(alloc, &[[0, 0, 2000, 15], [3000, 0, 5000, 15]])?;
    assert!(rt; words.as_slice() == wanted.as_slice());
    Ok(())
}

#[test]
fn the_law_is_stated(_rt: HostRuntime) {
    words_are_unique();
}
