// The source's thermal_erosion.rs, one talus pass: a cell steeper than the threshold sheds a share of its excess to its
// lower neighbours.
#![tactic(auto)]

ghost use Rattle.std.specs.Prelude.{◌≡◌, ◌≤◌, ◌^◌, length, false};
ghost use Rattle.answers.specs.Outcome.{answer_of, gives, refused, refused_at};
ghost use Rattle.thermal_erosion.specs.SlidePass.{fraction_of, Pass, rows_of, RowsReady, bad_marks, bad_pass};
ghost use Rattle.thermal_erosion.specs.SlidePass.{pass_answer, SlideMade};
ghost use Rattle.thermal_erosion.specs.OverPass.{bad_rest, bad_thresholds, bad_over, pass_refusal, PassMade, SlideOver};

use answers::{Refusal, outside};
use floats::is_finite;
use generators::{Progress, bad_report};
use grid::{Map, Sides, all_finite, bad_sides, copy_heights, first_not_finite};
use grid_spacing::square_distances;
use talus::{Slide, table, thresholds};
use talus_rows::slide_row;

// The settings of a pass on its grid.
#[derive(Clone, Copy)]
pub struct ThermalParams {
    pub threshold: f32,
    pub strength: f32,
    pub water_level: f32,
}

// What a pass reports by: p at its two ends, the record before it, and the stop number.
#[derive(Clone, Copy)]
pub struct PassMarks {
    pub from: f32,
    pub to: f32,
    pub marks: Progress,
    pub stop: u32,
}

// What a pass returns: its answer and the record of the stop marks.
#[derive(Clone, Copy)]
pub struct Slid {
    pub answer: Result<(), Refusal>,
    pub progress: Progress,
}

// Returns the fraction p of the question after row y.
fn fraction(from: f32, to: f32, h: usize, y: usize) -> f32
    requires y_bound { y ≤ 4096 }
    requires h_bound { h ≤ 4096 }
    ensures { result ≡ fraction_of from to h y }
{
    from + (to - from) * y as f32 / h as f32
}

// One pass with its stop marks, from hmap to out, by the thresholds `ts`: a question after each row, and an end where
// one stops it. Returns the record of the stop marks.
pub fn slide_pass_into(
    size: Sides,
    ts: &[f32; 9],
    hmap: &[f32],
    out: &mut [f32],
    strength: f32,
    water: f32,
    from: f32,
    to: f32,
    m: Progress,
    stop: u32,
) -> Progress
    requires { RowsReady size.w size.h (length hmap.now) (length out.old) m.asked }
    ensures { ◌≡◌ {A = Pass} (record { out = out.new; marks = result })
        (rows_of size.w size.h ts.now strength water hmap.now from to stop size.h m) }
{
    copy_heights(hmap, out);
    let slide = Slide {
        thresholds: *ts,
        strength,
        water,
    };
    let map = Map {
        size,
        heights: hmap,
    };
    let h = size.h;
    let mut marks = m;
    for y in 0..h {
        if marks.stopped {
            return marks;
        }
        slide_row(&slide, map, out, y);
        marks = marks.ask(fraction(from, to, h, y), stop);
    }
    marks
}

// Refusal 4 of the stop marks: whether an end of p, the last p or the number of questions is outside its range.
fn bad_marks(by: PassMarks) -> bool
    ensures { result ≡ bad_marks by.from by.to by.marks }
{
    outside(by.from, 0.0, 1.0) || bad_report(by.marks, by.to)
}

// Refusal 4 of all but the thresholds: whether strength, water level or a value of the stop marks is outside its range.
fn bad_rest(strength: f32, water: f32, by: PassMarks) -> bool
    ensures { result ≡ bad_rest strength water by.from by.to by.marks }
{
    outside(strength, 0.0, 1.0) || !is_finite(water) || bad_marks(by)
}

// Refusal 4 of `slide_pass`.
fn bad_pass(params: ThermalParams, by: PassMarks) -> bool
    ensures { result ≡ bad_pass params by.from by.to by.marks }
{
    outside(params.threshold, 0.0, 16.0) || bad_rest(params.strength, params.water_level, by)
}

// Whether one of eight thresholds is outside its range.
fn bad_thresholds(eight: [f32; 8]) -> bool
    ensures { result ≡ bad_thresholds eight }
{
    eight.iter().any(|threshold| outside(*threshold, 0.0, 96.0))
}

// Refusal 4 of `slide_pass_over`.
fn bad_over(eight: [f32; 8], strength: f32, water: f32, by: PassMarks) -> bool
    ensures { result ≡ bad_over eight strength water by.from by.to by.marks }
{
    bad_thresholds(eight) || bad_rest(strength, water, by)
}

// The first refusal of a pass in number order; `copy` is the length of the result slice. 4 applies if `bad`: the two
// calls have settings of their own, and the definition takes the verdict on them.
fn pass_refusal(size: Sides, hmap: &[f32], copy: usize, bad: bool) -> Result<(), Refusal>
    ensures { answer_of result
        ≡ pass_refusal size.w size.h hmap.now copy bad refused refused_at (gives tt) }
{
    if bad_sides(size) {
        return Err(Refusal::Side);
    }
    let n = size.w * size.h;
    if hmap.len() != n || copy != n {
        return Err(Refusal::Length);
    }
    if bad {
        return Err(Refusal::Setting);
    }
    if let Some(cell) = first_not_finite(size, hmap) {
        return Err(Refusal::Height(cell));
    }
    Ok(())
}

// The answer of a pass that left these heights and reached this record: a stop comes before a run-off.
fn pass_answer(out: &[f32], reached: Progress) -> Result<(), Refusal>
    ensures { answer_of result ≡ pass_answer (record { out = out.now; marks = reached }) }
{
    if reached.stopped {
        return Err(Refusal::Stopped);
    }
    if !all_finite(out) {
        return Err(Refusal::RunOff);
    }
    Ok(())
}

// The pass behind its refusals, of which 4 applies if `bad`.
fn slide_checked(
    size: Sides,
    hmap: &[f32],
    out: &mut [f32],
    bad: bool,
    slide: &Slide,
    by: PassMarks,
) -> Slid
    requires { bad ≡ false → by.marks.asked ≤ 2 ^ 31 }
    ensures { PassMade size.w size.h hmap.now bad by.marks out.old
        (rows_of size.w size.h slide.now.thresholds slide.now.strength slide.now.water hmap.now by.from by.to by.stop
        size.h by.marks)
        result out.new }
{
    if let Err(why) = pass_refusal(size, hmap, out.len(), bad) {
        return Slid {
            answer: Err(why),
            progress: by.marks,
        };
    }
    let reached = slide_pass_into(
        size,
        &slide.thresholds,
        hmap,
        out,
        slide.strength,
        slide.water,
        by.from,
        by.to,
        by.marks,
        by.stop,
    );
    Slid {
        answer: pass_answer(out, reached),
        progress: reached,
    }
}

// One pass of the source from hmap to out. On 1 to 5 nothing is written and the record comes back as given.
pub fn slide_pass(
    size: Sides,
    hmap: &[f32],
    out: &mut [f32],
    params: ThermalParams,
    progress_from: f32,
    progress_to: f32,
    progress: Progress,
    stop: u32,
) -> Slid
    ensures { SlideMade size.w size.h hmap.now params
        (record { from = progress_from; to = progress_to; marks = progress; stop = stop }) out.old result
        out.new }
{
    let by = PassMarks {
        from: progress_from,
        to: progress_to,
        marks: progress,
        stop,
    };
    let slide = Slide {
        thresholds: thresholds(params.threshold, square_distances()),
        strength: params.strength,
        water: params.water_level,
    };
    slide_checked(size, hmap, out, bad_pass(params, by), &slide, by)
}

// The same pass over eight thresholds in scan order, NW first, each 0 to 96: each direction's excess is taken over its
// own. On 1 to 5 nothing is written and the record comes back as given.
pub fn slide_pass_over(
    size: Sides,
    hmap: &[f32],
    out: &mut [f32],
    thresholds: [f32; 8],
    strength: f32,
    water_level: f32,
    progress_from: f32,
    progress_to: f32,
    progress: Progress,
    stop: u32,
) -> Slid
    ensures { SlideOver size.w size.h hmap.now thresholds strength water_level
        (record { from = progress_from; to = progress_to; marks = progress; stop = stop }) out.old result
        out.new }
{
    let by = PassMarks {
        from: progress_from,
        to: progress_to,
        marks: progress,
        stop,
    };
    let slide = Slide {
        thresholds: table(thresholds),
        strength,
        water: water_level,
    };
    slide_checked(
        size,
        hmap,
        out,
        bad_over(thresholds, strength, water_level, by),
        &slide,
        by,
    )
}
