// The loops of gen_fluvial_erosion on its working grid: iterations, each an opening and then its talus passes.
#![tactic(auto)]

ghost use Rattle.std.specs.Prelude.{◌≡◌, ◌*◌, length};
ghost use Rattle.grid.specs.Base.{all_open};
ghost use Rattle.flood.specs.Slices.{AcceptedGrid};
ghost use Rattle.flow.specs.Route.{Enough};
ghost use Rattle.fluvial_opening.specs.Opening.{lent_to, SameSlices};
ghost use Rattle.run_machine.specs.Run.{fluvial_begins};
ghost use Rattle.run_machine.specs.Nested.{nested, Bounded};
ghost use Rattle.run_parts.specs.Reached.{going, worked_of, seen};
ghost use Rattle.fluvial_loop.specs.Loops.{course_by, slid_by, Places, Slides};

use drainage::Land;
use fluvial_erosion::FluvialParams;
use fluvial_opening::{Scratch, open_iteration};
use grid::Sides;
use run_parts::{Ended, Reached, begun, run_pass};
use talus::thresholds;
use thermal_erosion::ThermalParams;

// What a fluvial run does on its working grid.
#[derive(Clone, Copy)]
pub struct FluvialPlan {
    pub iterations: usize,
    pub passes: usize,
    pub cuts: FluvialParams,
    pub slides: ThermalParams,
    pub land: Land,
}

// The fraction of the run at which a pass of an iteration begins.
fn pass_begins(plan: FluvialPlan, it: usize, pass: usize) -> f32
    requires { Places plan it pass }
    ensures { result ≡ fluvial_begins plan.iterations plan.passes it pass }
{
    (it as f32 + 0.5 + 0.5 * pass as f32 / plan.passes as f32) / plan.iterations as f32
}

// Runs the talus passes of an iteration, until one ends the run.
fn talus_passes(
    size: Sides,
    hmap: &mut [f32],
    copy: &mut [f32],
    plan: FluvialPlan,
    it: usize,
    stop: u32,
    reached: Reached,
) -> Result<Reached, Ended>
    requires { Slides (course_by size.w size.h plan stop) it (length hmap.old) (length copy.old) (going reached) }
    ensures { worked_of hmap.new result ≡ slid_by (course_by size.w size.h plan stop) it plan.passes
        (record { heights = hmap.old; reached = going reached }) }
{
    let ts = thresholds(plan.slides.threshold, plan.land.distances);
    let passes = plan.passes;
    let mut r = reached;
    for q in 0..passes {
        let from = pass_begins(plan, it, q);
        let to = pass_begins(plan, it, q + 1);
        r = run_pass(size, &ts, hmap, copy, plan.slides, from, to, stop, r)?;
    }
    Ok(r)
}

// Runs the iterations on the working grid, until one ends the run.
pub fn run_iterations(
    size: Sides,
    hmap: &mut [f32],
    plan: FluvialPlan,
    stop: u32,
    s: &mut Scratch,
) -> Result<Reached, Ended>
    requires bounded { Bounded (course_by size.w size.h plan stop) }
    requires accepted_grid { AcceptedGrid size.w size.h hmap.old }
    requires enough { Enough (size.w * size.h) (lent_to hmap.old s.old) }
    requires sides_value { plan.land.sides ≡ all_open }
    ensures same { SameSlices s.old s.new }
    ensures lengths { lent_to hmap.new s.new ≡ lent_to hmap.old s.old }
    ensures ran { worked_of hmap.new result ≡ seen (nested (course_by size.w size.h plan stop) hmap.old) }
{
    let iterations = plan.iterations;
    let mut r = begun();
    for it in 0..iterations {
        let p = it as f32 / iterations as f32;
        r = open_iteration(size, hmap, plan.land, plan.cuts, p, stop, r, s)?;
        r = talus_passes(size, hmap, s.copy, plan, it, stop, r)?;
    }
    Ok(r)
}
