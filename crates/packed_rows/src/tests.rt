//! Packed rows by hand.
use crate::{clear_padding, pixel, row_len, set_pixel, whiten};
use std::test::Fail;

#[test]
fn a_row_of_ten_pixels_takes_two_bytes(rt: HostRuntime) -> Result<(), Fail> {
    assert!(rt; row_len(0) == 0 && row_len(8) == 1 && row_len(9) == 2);
    let mut row = [0xA5u8, 0xFF];
    clear_padding(&mut row, 10);
    assert!(rt; row == [0xA5, 0xC0]);
    assert!(rt;
        pixel(&row, 0) == 1 && pixel(&row, 1) == 0 && pixel(&row, 9) == 1 && pixel(&row, 10) == 0
    );
    whiten(&mut row);
    set_pixel(&mut row, 3);
    set_pixel(&mut row, 8);
    assert!(rt; row == [0x10, 0x80]);
    Ok(())
}
