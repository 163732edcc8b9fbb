// The source's gen_fluvial_erosion: a whole fluvial run, with what it refuses.
#![tactic(auto)]

ghost use Rattle.std.specs.Prelude.{◌≡◌};
ghost use Rattle.run_machine.specs.Plan.{fluvial_plan};
ghost use Rattle.fluvial_loop.specs.Loops.{plan_of};
ghost use Rattle.fluvial_run.specs.FluvialRun.{FluvialRun};

use answers::RunAnswer;
use fluvial_grid::erode;
use fluvial_loop::FluvialPlan;
use fluvial_opening::Scratch;
use grid::Sides;
use resample::work_sides;
use run_parts::{answered, refused};
use run_plans::{Working, fluvial_iterations, fluvial_land};
use run_settings::{FluvialSettings, bad_fluvial, refusal};

// The settings converted to the working grid.
fn plan_on(grid: Working, conf: FluvialSettings) -> FluvialPlan
    ensures { plan_of result ≡ fluvial_plan grid.sides.w grid.sides.h conf }
{
    FluvialPlan {
        iterations: fluvial_iterations(conf),
        passes: grid.passes(1),
        cuts: grid.fluvial_plan(conf),
        slides: grid.talus_plan(conf),
        land: fluvial_land(conf),
    }
}

// A whole fluvial run of document 01. All slices after stop are scratch: a run takes as much of them as its working
// grid has cells.
pub fn gen_fluvial_erosion(
    size: Sides,
    hmap: &mut [f32],
    conf: FluvialSettings,
    stop: u32,
    small: &mut [f32],
    eroded: &mut [f32],
    copy: &mut [f32],
    area: &mut [f32],
    order: &mut [u32],
    recv: &mut [u32],
    queue: &mut [u32],
    status: &mut [u8],
) -> RunAnswer
    ensures { FluvialRun size.w size.h conf stop hmap.old
        (record {
          small = small.old;
          eroded = eroded.old;
          copy = copy.old;
          area = area.old;
          order = order.old;
          recv = recv.old;
          queue = queue.old;
          status = status.old;
        }) result hmap.new
        (record {
          small = small.new;
          eroded = eroded.new;
          copy = copy.new;
          area = area.new;
          order = order.new;
          recv = recv.new;
          queue = queue.new;
          status = status.new;
        }) }
{
    let maps = small.len().min(eroded.len());
    let values = copy.len().min(area.len());
    let lists = order.len().min(recv.len());
    let marks = queue.len().min(status.len());
    let shortest = maps.min(values).min(lists.min(marks));
    if let Err(why) = refusal(size, hmap, bad_fluvial(conf), shortest) {
        return refused(why);
    }
    let work = work_sides(size, conf.work_res);
    let plan = plan_on(Working::on(work), conf);
    let m = work.w * work.h;
    let mut scratch = Scratch {
        copy: &mut copy[..m],
        area: &mut area[..m],
        order: &mut order[..m],
        recv: &mut recv[..m],
        queue,
        status,
    };
    let done = erode(
        size,
        hmap,
        work,
        plan,
        stop,
        &mut small[..m],
        &mut eroded[..m],
        &mut scratch,
    );
    answered(done)
}
