//! What a reader answers.
ghost use Rattle.std.specs.Prelude.{◌≡◌, ◌≤◌};
ghost use Rattle.pbm_reader.specs.declared.limits.TheConstants.{MAX_INPUT};
ghost use Rattle.pbm_reader.specs.Images.{behind_bytes};
ghost use Rattle.pbm_reader.specs.Fault.{HasLowPlace};
ghost use Rattle.pbm_reader.specs.declared.fault.PageFault.TheVariants.{ReadFault, Memory};

use layout_limits::OutOfMemory;
use layout_outside::Failed;

/// The size of a page in pixels.
#[derive(Debug, Clone, Copy, PartialEq, Eq, Drop)]
pub struct Size {
    /// From 1 to `MAX_SIDE`.
    pub width: u16,
    /// From 1 to `MAX_SIDE`.
    pub height: u16,
}

/// Why no page was read. An offset `at` counts the bytes of the input before the one that is meant.
///
/// All but the last two are faults of the input, which exclude each other and come exactly where the
/// whole input has them; the last two say that it was not read to the end.
#[derive(Debug, Clone, Copy, PartialEq, Eq, Drop)]
pub enum PageFault {
    /// The input is no PBM: the byte at 0 is no `P`, or the one at 1 is neither `1` nor `4`.
    Magic { at: u64 },
    /// The bytes before this one begin a header, and no header has this byte here.
    Header { at: u64 },
    /// The first 65,536 bytes begin a header, and more bytes follow them.
    HeaderTooLong,
    /// The header says that a side is 0.
    ZeroSize,
    /// The header says that a side is above 8,192 pixels, or that there are more than 33,554,432
    /// pixels. A side above 999,999,999 is told as 999,999,999.
    TooLarge { width: u32, height: u32 },
    /// The input ends here, before the header or the last row is whole.
    Truncated { at: u64 },
    /// The bytes before this one begin a plain raster, and no raster has this byte here.
    Pixel { at: u64 },
    /// A raster ends here, and this byte may not follow it: any in the raw form, one that isn't white
    /// in the plain form.
    Trailing { at: u64 },
    /// The first 268,435,456 bytes decide none of the other faults, and more bytes follow them.
    InputTooLong,
    /// 256 raw images are whole, and a byte stands behind them. Only a reader of several images
    /// answers it.
    TooManyImages,
    /// A read of the source failed before the bytes that it gave decided one of the faults above.
    ReadFault,
    /// Memory was refused, here or in the row sink.
    Memory,
}

impl PageFault {
    /// The fault, with its offset counted from so many bytes further to the front.
    pub(crate) fn behind(self, len: u64) -> PageFault
        requires place { HasLowPlace self }
        requires len { len ≤ MAX_INPUT }
        ensures { result ≡ behind_bytes len self }
    {
        match self {
            PageFault::Magic { at } => PageFault::Magic { at: len + at },
            PageFault::Header { at } => PageFault::Header { at: len + at },
            PageFault::Truncated { at } => PageFault::Truncated { at: len + at },
            PageFault::Pixel { at } => PageFault::Pixel { at: len + at },
            PageFault::Trailing { at } => PageFault::Trailing { at: len + at },
            fault => fault,
        }
    }
}

impl From<Failed> for PageFault {
    ghost from_gives = { λ _ fault. fault ≡ ReadFault };

    fn from(_: Failed) -> PageFault {
        PageFault::ReadFault
    }
}

impl From<OutOfMemory> for PageFault {
    ghost from_gives = { λ _ fault. fault ≡ Memory };

    fn from(_: OutOfMemory) -> PageFault {
        PageFault::Memory
    }
}
