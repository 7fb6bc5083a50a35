//! Gaps that a threshold parts into narrow ones and wide ones, and how well it separates them.
ghost use Rattle.word_split.specs.Small.{AreSmall};

/// The most members of a line.
pub const MAX_MEMBERS: usize = 60_000;

/// How many times as wide as the gaps within words those between words are at least, on the average.
pub const LEAST_RATIO: u64 = 2;

/// Gaps between words are on the average at least the median height divided by this.
pub const LEAST_PART: u64 = 4;

/// The gaps of a line, parted by a threshold: the narrow ones are at most so wide.
#[derive(Clone, Copy)]
pub(crate) struct Parting {
    /// The threshold in columns.
    pub(crate) threshold: u16,
    /// How many gaps are narrow.
    pub(crate) narrow_count: u64,
    /// The columns of these together.
    pub(crate) narrow_sum: u64,
    /// How many gaps are wide.
    pub(crate) wide_count: u64,
    /// The columns of these together.
    pub(crate) wide_sum: u64,
    pub(crate) ghost small: { AreSmall narrow_count narrow_sum wide_count wide_sum },
}

impl Parting {
    ghost use Rattle.std.specs.Prelude.{◌≡◌, ◌*◌, ◌<◌, ◌≤◌, ◌^◌, IsTrue, ◌↔◌};
    ghost use Rattle.word_split.specs.Small.{AreSmall};
    ghost use Rattle.word_split.specs.Partings.{top_of, bottom_of, IsWide};

    /// How well the threshold separates the gaps: what is above the line of the fraction.
    fn top(&self) -> u64
        ensures value { result ≡ top_of self.now }
        ensures small { result < 2 ^ 58 }
    {
        let apart = (self.narrow_sum * self.wide_count).abs_diff(self.wide_sum * self.narrow_count);
        apart * apart
    }

    /// What is below it.
    fn bottom(&self) -> u64
        ensures value { result ≡ bottom_of self.now }
        ensures small { result < 2 ^ 32 }
    {
        self.narrow_count * self.wide_count
    }

    /// Whether the threshold separates the gaps better than another.
    pub(crate) fn separates_better(&self, other: &Parting) -> bool
        ensures { IsTrue result ↔ (top_of other.now * bottom_of self.now < top_of self.now * bottom_of other.now) }
    {
        u128::from(self.top()) * u128::from(other.bottom())
            > u128::from(other.top()) * u128::from(self.bottom())
    }

    /// Whether the wide gaps are wide enough to part words, where the text has this median height in rows.
    pub(crate) fn parts_words(&self, median: u16) -> bool
        ensures { IsTrue result ↔ IsWide self.now median }
    {
        LEAST_RATIO * (self.narrow_sum * self.wide_count) <= self.wide_sum * self.narrow_count
            && u64::from(median) * self.wide_count <= LEAST_PART * self.wide_sum
    }
}
