//! The two sides of a cut.
ghost use Rattle.std.specs.Prelude.{◌≡◌, ◌<◌, ◌++◌, ◌∷◌, [], length, IfOk};
ghost use Rattle.xy_cut.specs.declared.cell.TheConstants.{MAX_CUTS};
ghost use Rattle.xy_cut.specs.declared.cell.Side.TheVariants.{Before, After};
ghost use Rattle.xy_cut.specs.Bands.{part_of};

use crate::band::Band;
use crate::cell::{Path, Side};
use layout_geom::Rects;
use layout_limits::OutOfMemory;
use std::alloc::Global;

/// The boxes on a side of a band, in their order.
pub(crate) fn part_on(
    alloc: Global,
    boxes: &Rects,
    band: &Band,
    side: Side,
) -> Result<Rects, OutOfMemory>
    ensures { IfOk result (λ part. part ≡ part_of band.now side boxes.now) }
{
    let mut part = Rects::new(alloc);
    for rect in boxes.as_slice() {
        if band.has_on(side, rect) {
            part.push(*rect)?;
        }
    }
    Ok(part)
}

/// The path with one cut more.
pub(crate) fn longer(alloc: Global, path: &Path, side: Side) -> Result<Path, OutOfMemory>
    requires { length path.now < MAX_CUTS }
    ensures { IfOk result (λ more. more ≡ path.now ++ side ∷ []) }
{
    let mut sides = Vec::from_slice(alloc, path.as_slice())?;
    sides.push(side)?;
    Ok(Path::from_vec(sides))
}
