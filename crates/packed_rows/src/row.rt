//! The pixels of a packed row, read and written.
ghost use Rattle.std.specs.Prelude.{◌≡◌, ◌<◌, ◌/◌, ℕ, length, nat_eq, if◌then◌else◌};
ghost use Rattle.packed_rows.specs.Page.{IsCleared, pixel, row_len};

/// How many bytes a row takes that is so many pixels wide.
pub fn row_len(width: u16) -> usize
    ensures { result ≡ row_len width }
{
    (usize::from(width) + 7) / 8
}

/// The pixel in column `x`, which the row's bytes have: 1 for black, 0 for white.
pub fn pixel(bits: &[u8], x: u16) -> u8
    requires { x / 8 < length bits.now }
    ensures { result ≡ pixel bits.now x }
{
    (bits[usize::from(x / 8)] >> (7 - x % 8)) % 2
}

/// Makes the pixel in column `x`, which the row's bytes have, black. No other pixel changes.
pub fn set_pixel(bits: &mut [u8], x: u16)
    requires { x / 8 < length bits.old }
    ensures len { length bits.new ≡ length bits.old }
    ensures pixels { (k : ℕ) → pixel bits.new k ≡ (if nat_eq k x then 1 else pixel bits.old k) }
{
    bits[usize::from(x / 8)] |= 1 << (7 - x % 8);
}

/// Makes all pixels of a row white, and clears its padding bits.
pub fn whiten(bits: &mut [u8])
    ensures len { length bits.new ≡ length bits.old }
    ensures pixels { (k : ℕ) → pixel bits.new k ≡ 0 }
{
    bits.fill(0);
}

/// Clears the padding bits of a row that is so many pixels wide: those of the last byte behind the width.
pub fn clear_padding(bits: &mut [u8], width: u16)
    requires { length bits.old ≡ row_len width }
    ensures { IsCleared width bits.old bits.new }
{
    let len = bits.len();
    if len > 0 {
        let padding = (len * 8 - usize::from(width)) as u32;
        bits[len - 1] = (bits[len - 1] >> padding) << padding;
    }
}
