//! What a command line asks for, and how it can fail to ask.
use layout_geom::Name;
use layout_limits::{MAX_RECTS, MAX_WORKERS, OutOfMemory};

/// How many white rectangles are searched for at most, where no word tells.
pub const USUAL_RECTS: u16 = 32;

/// How many threads of `layout` search, where no word tells.
pub const USUAL_WORKERS: u16 = 4;

/// The most bytes of an image's name.
pub const MAX_NAME_BYTES: usize = 255;

/// The most digits of a number among the words. Zeros in front count.
pub const MAX_DIGITS: usize = 20;

/// The program whose words they are: `layout1`, which works on one thread, or `layout`, which
/// shares the work among several.
#[derive(Debug, Clone, Copy, PartialEq, Eq, Drop)]
pub enum Program {
    /// `layout1`.
    Alone,
    /// `layout`.
    Shared,
}

/// What a run shall do.
#[derive(Drop)]
pub struct Plan {
    /// How many white rectangles are searched for at most: 1 to [`MAX_RECTS`], and
    /// [`USUAL_RECTS`] where no word tells.
    pub rects: u16,
    /// How many threads search: 1 to [`MAX_WORKERS`], and [`USUAL_WORKERS`] where no word tells.
    /// `layout1` has 1.
    pub workers: u16,
    /// The bytes of the image's name, as hOCR's property `image` has it: at most [`MAX_NAME_BYTES`]
    /// printable ASCII bytes. It is empty where no word tells.
    pub image: Name,
    /// The seed from which a page is made, where it is not read: none where no word tells. A plan
    /// with a seed has no name of an image.
    pub make: Option<u64>,
    /// Whether the document shows the words of each line. A plan with a seed does not.
    pub words: bool,
    /// Whether the document shows the blocks of each page. A plan with a seed does not.
    pub blocks: bool,
    /// Whether the document shows the cells of each page. A plan with a seed does not.
    pub xy: bool,
}

/// Why words have no answer.
#[derive(Debug, Clone, Copy, PartialEq, Eq, Drop)]
pub enum WordFault {
    /// The words have no plan.
    Usage,
    /// Memory was refused.
    Memory,
}

impl From<OutOfMemory> for WordFault {
    ghost use Rattle.std.specs.Prelude.{◌≡◌};
    ghost use Rattle.command_words.specs.declared.plan.WordFault.TheVariants.{Memory};

    ghost from_gives = { λ _ fault. fault ≡ Memory };

    fn from(_: OutOfMemory) -> WordFault {
        WordFault::Memory
    }
}
