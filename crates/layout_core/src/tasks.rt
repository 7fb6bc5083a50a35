//! Tasks on a whole page that can be shared out over threads.
ghost use Rattle.std.specs.Prelude.{◌≤◌, [], IfOk, All};
ghost use Rattle.layout_geom.specs.declared.rect.Rect.{Rect};
ghost use Rattle.layout_geom.specs.Rectangles.{Encloses};
ghost use Rattle.page_runs.specs.Packed.{IsWhole, page_of};
ghost use Rattle.run_smear.specs.Smear.{IsSmearOf};
ghost use Rattle.xy_cut.specs.Cells.{AreCells};

use layout_geom::Rects;
use layout_limits::OutOfMemory;
use page_runs::RunPage;
use run_smear::{smear, smear_alone};
use std::alloc::Global;
use std::thread::Threads;
use xy_cut::{Cells, cells, cells_alone};

/// Tasks on a whole page, done on one thread or shared out over several. What they answer does not depend on it.
pub trait PageTasks {
    // what has to hold where a task is asked for
    ghost ready: { Self → Type 0 };

    /// The cells that boxes fall into where they are cut at white bands of at least `t` columns or rows (Nagy and Seth 1984).
    ///
    /// `t` is at least 1, and one rectangle contains all boxes. Want of memory is the one refusal.
    fn cells(&self, alloc: Global, boxes: &Rects, t: u16) -> Result<Cells, OutOfMemory>
        requires ready { ready self.now }
        requires least { 1 ≤ t }
        requires contained { (outer : Rect) × All (Encloses outer) boxes.now }
        ensures cells { IfOk result (AreCells t [] boxes.now) };

    /// The smear of a whole page: its white stretches of at most `h` columns or `v` rows are filled (Wong, Casey and Wahl 1982).
    /// Want of memory is the one refusal.
    fn smear(&self, alloc: Global, page: &RunPage, h: u16, v: u16) -> Result<RunPage, OutOfMemory>
        requires ready { ready self.now }
        requires whole { IsWhole page.now }
        ensures whole { IfOk result IsWhole }
        ensures smear { IfOk result (λ smear. IsSmearOf (page_of page.now) h v (page_of smear)) };
}

/// Tasks are done on the thread that asks for them.
#[derive(Clone, Copy, Debug, Drop)]
pub struct OneThread;

impl PageTasks for OneThread {
    ghost use Rattle.std.specs.Prelude.{⊤};

    ghost ready = { λ _. ⊤ };

    fn cells(&self, alloc: Global, boxes: &Rects, t: u16) -> Result<Cells, OutOfMemory> {
        cells_alone(alloc, boxes, t)
    }

    fn smear(&self, alloc: Global, page: &RunPage, h: u16, v: u16) -> Result<RunPage, OutOfMemory> {
        smear_alone(alloc, page, h, v)
    }
}

/// Tasks are shared out over threads.
#[derive(Drop)]
pub(crate) struct ManyThreads<'a, R> {
    /// Where threads are begun.
    pub rt: &'a R,
    /// How many workers a run has: with one of them no thread is begun.
    pub workers: u32,
}

impl<'a, R: Threads + Sync> PageTasks for ManyThreads<'a, R> {
    ghost use Rattle.std.specs.Thread.{IsSync};

    // threads may share the runtime
    ghost ready = { λ _. IsSync R.row };

    fn cells(&self, alloc: Global, boxes: &Rects, t: u16) -> Result<Cells, OutOfMemory> {
        if self.workers == 1 {
            return cells_alone(alloc, boxes, t);
        }
        cells(self.rt, alloc, boxes, t)
    }

    fn smear(&self, alloc: Global, page: &RunPage, h: u16, v: u16) -> Result<RunPage, OutOfMemory> {
        if self.workers == 1 {
            return smear_alone(alloc, page, h, v);
        }
        smear(self.rt, alloc, page, h, v)
    }
}
