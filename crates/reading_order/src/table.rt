//! A table of bits that says which of some numbers are before which.
use layout_limits::OutOfMemory;
use std::alloc::Global;

/// Which numbers below a limit are before which, a bit each: the row of a number has the bits of those before it.
#[derive(Drop)]
pub(crate) struct Table {
    side: usize,
    words: Vec<u64>,
    pub(crate) ghost room: { side * side / 64 < vec_len words },
    pub(crate) ghost small: { side < 2 ^ 32 },
}

ghost use Rattle.std.specs.Prelude.{vec_len, ◌<◌, ◌*◌, ◌/◌, ◌^◌};

impl Table {
    ghost use Rattle.std.specs.Prelude.{◌≡◌, ℕ, ◌<◌, ◌*◌, ◌/◌, ◌^◌, true, false, IfOk};
    ghost use Rattle.reading_order.specs.Tables.{is_marked};

    /// A table without marks.
    pub(crate) fn new(alloc: Global, side: usize) -> Result<Table, OutOfMemory>
        requires { side < 2 ^ 32 }
        ensures side { IfOk result (λ table. table.side ≡ side) }
        ensures blank { IfOk result (λ table. (a b : ℕ) → is_marked table a b ≡ false) }
    {
        Ok(Table {
            side,
            words: vec![in alloc; 0u64; side * side / 64 + 1]?,
        })
    }

    /// How many numbers there are.
    pub(crate) fn side(&self) -> usize
        ensures { result ≡ self.now.side }
    {
        self.side
    }

    /// Whether a number is before another.
    pub(crate) fn get(&self, earlier: usize, later: usize) -> bool
        requires earlier { earlier < self.now.side }
        requires later { later < self.now.side }
        ensures { result ≡ is_marked self.now earlier later }
    {
        let place = later * self.side + earlier;
        self.words[place / 64] >> (place % 64) & 1 == 1
    }

    /// Notes that a number is before another.
    pub(crate) fn mark(&mut self, earlier: usize, later: usize)
        requires earlier { earlier < self.old.side }
        requires later { later < self.old.side }
        ensures side { self.new.side ≡ self.old.side }
        ensures marked { is_marked self.new earlier later ≡ true }
        ensures others { (a b : ℕ) → a < self.old.side → b < self.old.side → (b ≡ later → a ≡ earlier → ⊥)
            → is_marked self.new a b ≡ is_marked self.old a b }
    {
        let place = later * self.side + earlier;
        self.words[place / 64] |= 1 << (place % 64);
    }
}
