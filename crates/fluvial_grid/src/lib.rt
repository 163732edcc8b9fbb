// A fluvial run on the grid it works on: the map, or a reduced grid whose change is added back.
#![tactic(auto)]

ghost use Rattle.std.specs.Prelude.{◌≡◌};
ghost use Rattle.run_parts.specs.Reached.{worked_of, whole_run};
ghost use Rattle.fluvial_opening.specs.Opening.{lent_to, SameSlices};
ghost use Rattle.fluvial_loop.specs.Loops.{course_by};
ghost use Rattle.fluvial_grid.specs.Grids.{scratch_of, Erodes};

use fluvial_loop::{FluvialPlan, run_iterations};
use fluvial_opening::Scratch;
use grid::Sides;
use run_parts::{Ended, Reached, add_back, on_map, reduce};

// A run on its working grid: on the map itself where the sides are the map's; else on a reduced copy, whose difference
// is then added to the map. There a run that ends early leaves the map as it came. small and eroded are scratch too.
pub fn erode(
    size: Sides,
    hmap: &mut [f32],
    work: Sides,
    plan: FluvialPlan,
    stop: u32,
    small: &mut [f32],
    eroded: &mut [f32],
    s: &mut Scratch,
) -> Result<Reached, Ended>
    requires { Erodes size.w size.h work.w work.h plan stop hmap.old
        (scratch_of small.old eroded.old s.old.copy.now s.old.area.now s.old.order.now s.old.recv.now
        s.old.queue.now s.old.status.now) }
    ensures same { SameSlices s.old s.new }
    ensures lengths { lent_to hmap.new s.new ≡ lent_to hmap.old s.old }
    ensures ran { worked_of hmap.new result ≡ whole_run size.w size.h (course_by work.w work.h plan stop) hmap.old }
{
    if on_map(work, size) {
        return run_iterations(work, hmap, plan, stop, s);
    }
    reduce(size, hmap, work, small, eroded)?;
    let done = run_iterations(work, eroded, plan, stop, s)?;
    add_back(size, hmap, work, small, eroded, done)
}
