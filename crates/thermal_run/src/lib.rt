// The source's gen_thermal_erosion: a whole thermal run, on the map or on a reduced grid whose change is added back.
#![tactic(auto)]

ghost use Rattle.std.specs.Prelude.{◌≡◌, ◌≤◌, false, ◌&&◌, eqb, length};
ghost use Rattle.run_machine.specs.Run.{slide_course};
ghost use Rattle.run_machine.specs.Nested.{nested};
ghost use Rattle.run_parts.specs.Reached.{worked_of, seen, whole_run};
ghost use Rattle.thermal_run.specs.ThermalRun.{ThermalSlides, ThermalReduces, ThermalErodes, ThermalRun};

use answers::RunAnswer;
use floats::ratio;
use grid::Sides;
use grid_spacing::square_distances;
use resample::work_sides;
use run_parts::{Ended, Reached, add_back, answered, begun, on_map, reduce, refused, run_pass};
use run_plans::Working;
use run_settings::{ThermalSettings, bad_thermal, refusal};
use talus::thresholds;
use thermal_erosion::ThermalParams;

// The passes of a run on its working grid: their parameters and their number.
#[derive(Clone, Copy)]
struct ThermalPlan {
    slides: ThermalParams,
    passes: usize,
    ghost some: { 1 ≤ passes },
    ghost few: { passes ≤ 32768 },
}

// Runs every pass on the working grid, until one ends the run.
fn slide_passes(
    work: Sides,
    hmap: &mut [f32],
    plan: ThermalPlan,
    stop: u32,
    copy: &mut [f32],
) -> Result<Reached, Ended>
    requires { ThermalSlides work.w work.h (length hmap.old) (length copy.old) }
    ensures { worked_of hmap.new result
        ≡ seen (nested (slide_course work.w work.h plan.slides plan.passes stop) hmap.old) }
{
    let ts = thresholds(plan.slides.threshold, square_distances());
    let passes = plan.passes;
    let mut r = begun();
    for pass in 0..passes {
        let from = ratio(pass, passes);
        let to = ratio(pass + 1, passes);
        r = run_pass(work, &ts, hmap, copy, plan.slides, from, to, stop, r)?;
    }
    Ok(r)
}

// Erodes a reduced copy, then adds the difference back onto the map; a run that ends early leaves the map as it came.
fn erode_reduced(
    size: Sides,
    hmap: &mut [f32],
    work: Sides,
    plan: ThermalPlan,
    stop: u32,
    small: &mut [f32],
    eroded: &mut [f32],
    copy: &mut [f32],
) -> Result<Reached, Ended>
    requires h_value { (eqb work.w size.w && eqb work.h size.h) ≡ false }
    requires thermal_reduces { ThermalReduces size.w size.h work.w work.h (length hmap.old) (length small.old)
        (length eroded.old) (length copy.old) }
    ensures { worked_of hmap.new result
        ≡ whole_run size.w size.h (slide_course work.w work.h plan.slides plan.passes stop) hmap.old }
{
    reduce(size, hmap, work, small, eroded)?;
    let done = slide_passes(work, eroded, plan, stop, copy)?;
    add_back(size, hmap, work, small, eroded, done)
}

// A run on its working grid: the map itself where the sides are the map's, else the reduced grid.
fn erode(
    size: Sides,
    hmap: &mut [f32],
    work: Sides,
    plan: ThermalPlan,
    stop: u32,
    small: &mut [f32],
    eroded: &mut [f32],
    copy: &mut [f32],
) -> Result<Reached, Ended>
    requires { ThermalErodes size.w size.h work.w work.h (length hmap.old) (length small.old)
        (length eroded.old) (length copy.old) }
    ensures { worked_of hmap.new result
        ≡ whole_run size.w size.h (slide_course work.w work.h plan.slides plan.passes stop) hmap.old }
{
    let m = work.w * work.h;
    if on_map(work, size) {
        return slide_passes(work, hmap, plan, stop, &mut copy[..m]);
    }
    erode_reduced(
        size,
        hmap,
        work,
        plan,
        stop,
        &mut small[..m],
        &mut eroded[..m],
        &mut copy[..m],
    )
}

// A whole thermal run of document 01. small, eroded and copy are scratch.
pub fn gen_thermal_erosion(
    size: Sides,
    hmap: &mut [f32],
    conf: ThermalSettings,
    stop: u32,
    small: &mut [f32],
    eroded: &mut [f32],
    copy: &mut [f32],
) -> RunAnswer
    ensures { ThermalRun size.w size.h conf stop hmap.old
        (record { small = small.old; eroded = eroded.old; copy = copy.old }) result
        hmap.new
        (record { small = small.new; eroded = eroded.new; copy = copy.new }) }
{
    let scratch = small.len().min(eroded.len().min(copy.len()));
    if let Err(why) = refusal(size, hmap, bad_thermal(conf), scratch) {
        return refused(why);
    }
    let work = work_sides(size, conf.work_res);
    let grid = Working::on(work);
    let plan = ThermalPlan {
        slides: grid.thermal_plan(conf),
        passes: grid.passes(conf.iterations),
    };
    answered(erode(size, hmap, work, plan, stop, small, eroded, copy))
}
