//! Values that were worked out by hand, and each call once.
ghost use Rattle.std.specs.Prelude.{IfOk};
ghost use Rattle.layout_geom.specs.Rectangles.{HasSides};

use crate::{Area, Areas, Name, Numbers, Order, Rect, Rects, is_clear};
use std::test::Fail;

fn rect(x0: u16, y0: u16, x1: u16, y1: u16) -> Result<Rect, Fail>
    ensures { IfOk result (λ r. HasSides r x0 y0 x1 y1) }
{
    match Rect::new(x0, y0, x1, y1) {
        Some(r) => Ok(r),
        None => Err("no rectangle")?,
    }
}

#[test]
fn a_key_stands_for_its_rectangle(rt: HostRuntime) -> Result<(), Fail> {
    let cases = [
        ((3, 0, 16, 16), 114_349_209_264_115),
        ((0, 3, 16, 16), 114_349_007_962_096),
        ((0, 0, 8192, 4096), 18_446_744_073_709_543_424),
        ((8191, 8191, 8192, 8192), 8191),
    ];
    for ((x0, y0, x1, y1), key) in cases {
        let r = rect(x0, y0, x1, y1)?;
        assert_eq!(rt; r.key(), key, "{x0} {y0} {x1} {y1}");
        assert_eq!(rt; Rect::of_key(key), Some(r), "{x0} {y0} {x1} {y1}");
    }
    Ok(())
}

#[test]
fn some_numbers_are_no_keys(rt: HostRuntime) {
    // 0; a pixel in column and row 0 whose width is 0; two pixels of width 1 that end below 8192;
    // three pixels of width 2.
    let cases = [
        0,
        8191 * (1 << 26) + 8191 * (1 << 13) + 8192,
        (1 << 39) + 8191,
        (2 << 39) + 8191 * (1 << 26) + 8191 * (1 << 13) + 8190,
    ];
    for key in cases {
        assert_eq!(rt; Rect::of_key(key), None, "{key}");
    }
}

#[test]
fn some_sides_are_of_no_rectangle(rt: HostRuntime) {
    // The first column and the one behind the last, and the same of the rows.
    let cases = [
        ([3, 3], [0, 5]),
        ([0, 4], [5, 5]),
        ([4, 3], [0, 5]),
        ([0, 8193], [0, 1]),
        ([0, 1], [0, 8193]),
        ([0, 8192], [0, 4097]),
    ];
    for ([x0, x1], [y0, y1]) in cases {
        assert_eq!(rt; Rect::new(x0, y0, x1, y1), None, "{x0} {y0} {x1} {y1}");
    }
}

#[test]
fn a_rectangle_has_its_measures(rt: HostRuntime) -> Result<(), Fail> {
    let r = rect(2, 5, 12, 9)?;
    assert_eq!(rt; (r.x0(), r.y0(), r.x1(), r.y1()), (2, 5, 12, 9));
    assert_eq!(rt; (r.width(), r.height(), r.area()), (10, 4, 40));
    Ok(())
}

#[test]
fn touching_rectangles_share_no_pixel(rt: HostRuntime) -> Result<(), Fail> {
    let middle = rect(4, 4, 8, 8)?;
    let cases = [
        ((0, 4, 4, 8), false),
        ((0, 4, 5, 8), true),
        ((8, 8, 9, 9), false),
        ((7, 7, 9, 9), true),
        ((5, 0, 6, 4), false),
        ((5, 0, 6, 12), true),
    ];
    for ((x0, y0, x1, y1), meets) in cases {
        let other = rect(x0, y0, x1, y1)?;
        assert_eq!(rt; middle.overlaps(&other), meets, "{x0} {y0} {x1} {y1}");
        let mut boxes = Rects::new(rt.alloc());
        boxes.push(other)?;
        assert_eq!(rt; is_clear(&middle, &boxes), !meets, "{x0} {y0} {x1} {y1}");
    }
    Ok(())
}

#[test]
fn a_hull_contains_both(rt: HostRuntime) -> Result<(), Fail> {
    let (a, b) = (rect(2, 5, 4, 9)?, rect(3, 1, 12, 6)?);
    let hull = a.hull(&b);
    assert_eq!(rt; hull, rect(2, 1, 12, 9)?);
    assert!(rt; hull.contains(&a) && hull.contains(&b) && !a.contains(&b));
    Ok(())
}

#[test]
fn a_cut_leaves_four_parts(rt: HostRuntime) -> Result<(), Fail> {
    let page = rect(0, 0, 16, 16)?;
    let inner = page.cut4(&rect(4, 5, 6, 9)?);
    let parts = [
        Some(rect(0, 0, 4, 16)?),
        Some(rect(6, 0, 16, 16)?),
        Some(rect(0, 0, 16, 5)?),
        Some(rect(0, 9, 16, 16)?),
    ];
    assert_eq!(rt; inner, parts);

    // The block of three by three in the corner.
    let corner = page.cut4(&rect(0, 0, 3, 3)?);
    let parts = [
        None,
        Some(rect(3, 0, 16, 16)?),
        None,
        Some(rect(0, 3, 16, 16)?),
    ];
    assert_eq!(rt; corner, parts);
    assert_eq!(rt; page.cut4(&page), [None; 4]);
    Ok(())
}

#[test]
fn a_list_keeps_what_is_put_in(rt: HostRuntime) -> Result<(), Fail> {
    let mut numbers = Numbers::new(rt.alloc());
    assert!(rt; numbers.is_empty());
    numbers.push(7)?;
    numbers.push(5)?;
    assert_eq!(rt; numbers.len(), 2);
    assert_eq!(rt; *numbers.get(1), 5);
    assert_eq!(rt; numbers.as_slice(), [7, 5].as_slice());
    let mut items = numbers.into_vec();
    items.push(9)?;
    assert_eq!(rt; items.len(), 3);
    let order = Order::Topological(Numbers::from_vec(items));
    match order {
        Order::Topological(listing) => assert_eq!(rt; listing.as_slice(), [7, 5, 9].as_slice()),
        Order::Cycle(_) => assert!(rt; false),
    }

    let mut name = Name::new(rt.alloc());
    name.push(b'a')?;
    assert_eq!(rt; name.as_slice(), b"a".as_slice());

    let area = Area {
        first: 0,
        count: 2,
        bbox: rect(1, 2, 3, 4)?,
    };
    let mut areas = Areas::new(rt.alloc());
    areas.push(area)?;
    assert_eq!(rt; areas.as_slice(), [area].as_slice());
    Ok(())
}
