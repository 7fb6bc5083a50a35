//! Packed rows that are painted.
ghost use Rattle.std.specs.Prelude.{◌≡◌, ◌<◌, ◌≤◌, ◌+◌, ◌*◌, ℕ, length, min};
ghost use Rattle.packed_rows.specs.Page.{pixel};
ghost use Rattle.run_smear.specs.Painted.{GotBlack, IsBetween};

/// Makes the pixels of one byte of a packed row black, from a column of the byte up to another, which is excluded.
fn blacken_in_byte(bits: &mut [u8], byte: usize, from: u16, to: u16)
    requires byte { byte < length bits.old }
    requires order { from ≤ to }
    requires inside { to ≤ 8 }
    ensures { GotBlack (IsBetween (8 * byte + from) (8 * byte + to)) bits.old bits.new }
{
    let mask = (1_u16 << (8 - from)) - (1_u16 << (8 - to));
    bits[byte] |= mask as u8;
}

/// Makes all pixels of bytes of a packed row black, from one up to another, which is excluded.
fn blacken_bytes(bits: &mut [u8], from: usize, to: usize)
    requires { to ≤ length bits.old }
    ensures { GotBlack (IsBetween (8 * from) (8 * to)) bits.old bits.new }
{
    for byte in from..to {
        bits[byte] = 0xff;
    }
}

/// Makes the pixels of a packed row black from a column up to another, which is excluded.
pub(crate) fn blacken(bits: &mut [u8], from: u16, to: u16)
    requires { to ≤ 8 * length bits.old }
    ensures { GotBlack (IsBetween from to) bits.old bits.new }
{
    if to <= from {
        return;
    }
    let first = usize::from(from / 8);
    let last = usize::from(to / 8);
    if first == last {
        blacken_in_byte(bits, first, from % 8, to % 8);
        return;
    }
    blacken_in_byte(bits, first, from % 8, 8);
    blacken_bytes(bits, first + 1, last);
    if to % 8 > 0 {
        blacken_in_byte(bits, last, 0, to % 8);
    }
}

/// Leaves the pixels of a packed row black that are black in another row of its length too.
pub(crate) fn keep_common(bits: &mut [u8], others: &[u8])
    requires { length others.now ≡ length bits.old }
    ensures len { length bits.new ≡ length bits.old }
    ensures common { (k : ℕ) → pixel bits.new k ≡ min (pixel bits.old k) (pixel others.now k) }
{
    for place in 0..bits.len() {
        bits[place] &= others[place];
    }
}
