//! The table of counts of a page.
use crate::limits::{MAX_TABLE_BOXES, MAX_TABLE_GUTTERS, SLOPES};
use crate::table::{count_all, lower_all, width_for};
use layout_geom::{Numbers, Rects};
use layout_limits::{MAX_SIDE, OutOfMemory};
use std::alloc::Global;
use std::marker::Model;

/// The living boxes of a page, counted by slope, segment and fit. A fit is the offset of the line of a slope on which a
/// box stands exactly; a segment is what lies between two neighbours among the gutters, by the middles of both.
///
/// It takes 130 bytes for each segment and each row of the page or of 672 rows round it.
#[derive(Drop)]
pub struct Counts {
    pub(crate) height: u16,
    pub(crate) boxes: Rects,
    pub(crate) alive: Numbers,
    pub(crate) gutters: Rects,
    pub(crate) width: usize,
    pub(crate) cells: Vec<u16>,
}

impl Model for Counts {
    ghost use Rattle.line_counts.specs.Table.{LivingPage, IsTable};

    ghost Value = { LivingPage };

    ghost view = { λ counts. record { height = counts.height; boxes = counts.boxes; alive = counts.alive; gutters = counts.gutters } };

    ghost invariant = { λ counts. IsTable
        (record { height = counts.height; boxes = counts.boxes; alive = counts.alive; gutters = counts.gutters })
        counts.width counts.cells.items };
}

impl Counts {
    ghost use Rattle.std.specs.Prelude.{◌≡◌, ◌<◌, ◌≤◌, ◌++◌, IfOk, length, All};
    ghost use Rattle.std.specs.List.Sorted.{IsPermutation};

    /// Counts the boxes at the positions that are alive. The one refusal is want of memory.
    pub fn new(
        alloc: Global,
        boxes: Rects,
        alive: Numbers,
        gutters: Rects,
        height: u16,
    ) -> Result<Counts, OutOfMemory>
        requires high { height ≤ MAX_SIDE }
        requires few_boxes { length boxes ≤ MAX_TABLE_BOXES }
        requires few_alive { length alive ≤ MAX_TABLE_BOXES }
        requires few_gutters { length gutters ≤ MAX_TABLE_GUTTERS }
        requires positions { All (λ position. position < length boxes) alive }
        ensures height { IfOk result (λ counts. counts.height ≡ height) }
        ensures boxes { IfOk result (λ counts. counts.boxes ≡ boxes) }
        ensures alive { IfOk result (λ counts. counts.alive ≡ alive) }
        ensures gutters { IfOk result (λ counts. counts.gutters ≡ gutters) }
    {
        let width = width_for(height, boxes.as_slice());
        let mut cells = vec![in alloc; 0u16; SLOPES * (gutters.len() + 1) * width]?;
        count_all(
            cells.as_mut_slice(),
            &boxes,
            &gutters,
            width,
            alive.as_slice(),
        );
        Ok(Counts {
            height,
            boxes,
            alive,
            gutters,
            width,
            cells,
        })
    }

    /// Takes the members of a line out of the counts: the others alone are alive from now on.
    pub fn take(&mut self, members: &[u32], others: Numbers)
        requires divided { IsPermutation self.old.alive (members.now ++ others) }
        ensures others { self.new ≡ record self.old { alive = others } }
        ensures members { All (λ position. position < length self.old.boxes) members.now }
    {
        lower_all(
            self.cells.as_mut_slice(),
            &self.boxes,
            &self.gutters,
            self.width,
            members,
        );
        self.alive = others;
    }

    /// The height of the page.
    pub fn height(&self) -> u16
        ensures value { result ≡ self.now.height }
        ensures high { result ≤ MAX_SIDE }
    {
        self.height
    }

    /// The boxes of the page.
    pub fn boxes(&self) -> &Rects
        ensures value { result.now ≡ self.now.boxes }
        ensures few { length result.now ≤ MAX_TABLE_BOXES }
    {
        &self.boxes
    }

    /// The positions of the boxes that are alive.
    pub fn alive(&self) -> &Numbers
        ensures value { result.now ≡ self.now.alive }
        ensures few { length result.now ≤ MAX_TABLE_BOXES }
        ensures positions { All (λ position. position < length self.now.boxes) result.now }
    {
        &self.alive
    }

    /// The gutters of the page.
    pub fn gutters(&self) -> &Rects
        ensures value { result.now ≡ self.now.gutters }
        ensures few { length result.now ≤ MAX_TABLE_GUTTERS }
    {
        &self.gutters
    }
}
