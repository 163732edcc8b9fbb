// What thermal and fluvial runs share: what a run has reached, one talus pass, the reduction of the map to the working
// grid, and the addition of the difference to the map.
#![tactic(auto)]

ghost use Rattle.std.specs.Prelude.{◌≡◌, ◌&&◌, ◌*◌, eqb, length};
ghost use Rattle.std.specs.Result.{is_ok, IfErr};
ghost use Rattle.upsample.specs.Places.{Grid};
ghost use Rattle.resample.specs.WorkSize.{Within};
ghost use Rattle.thermal_erosion.specs.SlidePass.{rows_of};
ghost use Rattle.run_machine.specs.Run.{difference_of};
ghost use Rattle.run_parts.specs.Reached.{number_of_end, going, gone, reach_of, worked_of, begun as begunOf, halted};
ghost use Rattle.run_parts.specs.Reached.{PassReady, PassRun, added_to, Reduced};
ghost use Rattle.run_parts.specs.Ending.{refused_to, Answered, refused_for};

use answers::{Refusal, RunAnswer};
use downsample::downsample_into;
use generators::{Progress, fresh};
use grid::{Sides, all_finite, copy_heights};
use thermal_erosion::{ThermalParams, slide_pass_into};
use upsample::add_finite;

// Why a run ended before its last pass: a question was answered with stop, or a height was not finite.
#[derive(Clone, Copy, Debug, PartialEq, Eq)]
pub enum End {
    Stopped,
    RunOff,
}

impl From<End> for Refusal {
    ghost from_gives = { λ e r. r ≡ refused_for e };

    fn from(end: End) -> Refusal {
        match end {
            End::Stopped => Refusal::Stopped,
            End::RunOff => Refusal::RunOff,
        }
    }
}

// What a run has reached besides its heights: the stop marks, and the completed incisions and passes.
#[derive(Clone, Copy)]
pub struct Reached {
    pub marks: Progress,
    pub incisions: u32,
    pub passes: u32,
}

// A run that has ended early, and what it had reached.
#[derive(Clone, Copy)]
pub struct Ended {
    pub end: End,
    pub reached: Reached,
}

// A run before its first step.
pub fn begun() -> Reached
    ensures { going result ≡ begunOf }
{
    Reached {
        marks: fresh(),
        incisions: 0,
        passes: 0,
    }
}

// Ends a run by a step that left these marks: the counts stay.
pub fn halt(end: End, marks: Progress, reached: Reached) -> Ended
    ensures { gone result ≡ halted (number_of_end end) marks (going reached) }
{
    Ended {
        end,
        reached: Reached { marks, ..reached },
    }
}

// One talus pass of a run. The copy becomes the map only when the pass is complete and finite; a stop comes before a
// run-off.
pub fn run_pass(
    size: Sides,
    ts: &[f32; 9],
    hmap: &mut [f32],
    copy: &mut [f32],
    params: ThermalParams,
    from: f32,
    to: f32,
    stop: u32,
    r: Reached,
) -> Result<Reached, Ended>
    requires { PassReady size.w size.h (length hmap.old) (length copy.old) (going r) }
    ensures { PassRun hmap.old (going r) (rows_of size.w size.h ts.now params.strength
        params.water_level hmap.old from to stop size.h r.marks)
        (worked_of hmap.new result) copy.new }
{
    let marks = slide_pass_into(
        size,
        ts,
        hmap,
        copy,
        params.strength,
        params.water_level,
        from,
        to,
        r.marks,
        stop,
    );
    if marks.stopped {
        return Err(halt(End::Stopped, marks, r));
    }
    if !all_finite(copy) {
        return Err(halt(End::RunOff, marks, r));
    }
    copy_heights(copy, hmap);
    Ok(Reached {
        marks,
        passes: r.passes + 1,
        ..r
    })
}

// Whether a run goes on the map itself: its working sides are the map's.
pub fn on_map(work: Sides, size: Sides) -> bool
    ensures { result ≡ (eqb work.w size.w && eqb work.h size.h) }
{
    work == size
}

// Writes the reduced grid to small, where it stays, and to eroded, to be eroded there. An average that is not finite
// ends the run before its first step.
pub fn reduce(
    size: Sides,
    hmap: &[f32],
    work: Sides,
    small: &mut [f32],
    eroded: &mut [f32],
) -> Result<(), Ended>
    requires within { Within size.w size.h work.w work.h }
    requires hmap_len { length hmap.now ≡ size.w * size.h }
    requires small_len { length small.old ≡ work.w * work.h }
    requires eroded_len { length eroded.old ≡ work.w * work.h }
    ensures reduced { Reduced size.w size.h work.w work.h hmap.now (is_ok result) small.new
        eroded.new }
    ensures off { IfErr result (λ e. gone e ≡ halted 22 begunOf.marks begunOf) }
{
    downsample_into(hmap, size, small, work);
    copy_heights(small, eroded);
    if !all_finite(small) {
        return Err(Ended {
            end: End::RunOff,
            reached: begun(),
        });
    }
    Ok(())
}

// Replaces the eroded heights of the reduced grid by their difference from `small`.
fn subtract(eroded: &mut [f32], small: &[f32])
    requires { length eroded.old ≡ length small.now }
    ensures { eroded.new ≡ difference_of eroded.old small.now }
{
    let n = small.len();
    for i in 0..n {
        eroded[i] -= small[i];
    }
}

// Ends a reduced run: adds the difference of the reduced grids, which is left in eroded, to the map. A difference or a
// sum that is not finite ends the run by a run-off; the map is written only after these tests.
pub fn add_back(
    size: Sides,
    hmap: &mut [f32],
    work: Sides,
    small: &[f32],
    eroded: &mut [f32],
    r: Reached,
) -> Result<Reached, Ended>
    requires grid { Grid size.w size.h (length hmap.old) }
    requires grid_2 { Grid work.w work.h (length small.now) }
    requires eroded_len { length eroded.old ≡ length small.now }
    ensures fact { worked_of hmap.new result ≡ added_to size.w size.h work.w work.h hmap.old small.now eroded.old
        (going r) }
    ensures eroded_after { eroded.new ≡ difference_of eroded.old small.now }
{
    subtract(eroded, small);
    if !all_finite(eroded) || !add_finite(hmap, size, eroded, work) {
        return Err(Ended {
            end: End::RunOff,
            reached: r,
        });
    }
    Ok(r)
}

// The answer of a call that refuses its input: counts are 0.
pub fn refused(why: Refusal) -> RunAnswer
    ensures { result ≡ refused_to why }
{
    RunAnswer {
        answer: Err(why),
        incisions: 0,
        passes: 0,
        questions: 0,
    }
}

// The answer of a run, done or ended early.
pub fn answered(run: Result<Reached, Ended>) -> RunAnswer
    ensures { Answered (reach_of run) result }
{
    let (answer, r) = match run {
        Ok(r) => (Ok(()), r),
        Err(e) => (Err(Refusal::from(e.end)), e.reached),
    };
    RunAnswer {
        answer,
        incisions: r.incisions,
        passes: r.passes,
        questions: r.marks.asked,
    }
}
