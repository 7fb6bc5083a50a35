//! A stretch of a list, which a node of the search carries.
ghost use Rattle.std.specs.Prelude.{◌≡◌, ◌<◌, ◌+◌};

/// The items of a list from one position to another, which is not among them.
#[derive(Clone, Copy, Debug, PartialEq, Eq)]
pub struct Span {
    /// The first position.
    pub from: u32,
    /// The position behind the last.
    pub to: u32,
}

impl Span {
    /// The stretch from its first position, or from this one where it is empty, to this one.
    pub(crate) fn grown(self, position: u32) -> Span
        requires { position < 4294967295 }
        ensures first { self.to ≡ 0 → result.from ≡ position }
        ensures same { 0 < self.to → result.from ≡ self.from }
        ensures end { result.to ≡ position + 1 }
    {
        let from = if self.to == 0 { position } else { self.from };
        Span {
            from,
            to: position + 1,
        }
    }
}
