// The parts of the source's mod.rs that the erosion uses: the progress record with its stop marks, `get_min_max` and
// `normalize`.
#![tactic(auto)]

ghost use Rattle.answers.specs.Outcome.{answer_of};
ghost use Rattle.std.specs.Prelude.{◌-◌, ◌^◌, ◌<◌, ◌≡◌, not, map};
ghost use Rattle.grid.specs.Heights.{all_finite};
ghost use Rattle.generators.specs.Marks.{bad_report, report_of, ReportMade};
ghost use Rattle.generators.specs.Extents.{widened, min_max_of, get_min_max_answer, slope_of, scaled_by};
ghost use Rattle.generators.specs.Extents.{bad_targets, NormalizeMade};

use answers::{Refusal, outside};
use floats::is_finite;
use grid::{Sides, first_not_finite};

// Document 01's record of the stop marks: the last p asked at, the questions asked, and whether one got yes.
#[derive(Clone, Copy, Debug, PartialEq)]
pub struct Progress {
    pub last: f32,
    pub asked: u32,
    pub stopped: bool,
}

// The answer to a report: go on or stop.
#[derive(Clone, Copy, Debug, PartialEq, Eq)]
pub enum Go {
    On,
    Stop,
}

// What a report returns: its answer, and the record after it.
#[derive(Clone, Copy, Debug, PartialEq)]
pub struct Reported {
    pub go: Result<Go, Refusal>,
    pub progress: Progress,
}

// The record that a whole run begins with.
pub fn fresh() -> Progress
    ensures { result ≡ Rattle.generators.specs.Marks.fresh }
{
    Progress {
        last: -1.0,
        asked: 0,
        stopped: false,
    }
}

// Refusal 4 of a report: p, the last p or the number of questions outside its range.
pub fn bad_report(m: Progress, p: f32) -> bool
    ensures { result ≡ bad_report m p }
{
    outside(p, 0.0, 1.0) || outside(m.last, -1.0, 1.0) || m.asked > 0x8000_0000
}

impl Progress {
    // A report without the range tests of refusal 4, for passes and runs. Returns the record after it: a question is
    // asked if p - last ≥ 0.01, and the stop-th question gets yes; a stopped record asks none.
    pub fn ask(self, p: f32, stop: u32) -> Progress
        requires { self.asked < 2 ^ 32 - 1 }
        ensures { result ≡ report_of self p stop }
    {
        if self.stopped {
            return self;
        }
        if p - self.last >= 0.01 {
            let asked = self.asked + 1;
            return Progress {
                last: p,
                asked,
                stopped: asked == stop,
            };
        }
        self
    }

    // Reports p. Returns whether to go on, and the record after the report; on refusal 4 the record as given. The
    // stop-th question asked gets yes; 0 means never.
    pub fn report(self, p: f32, stop: u32) -> Reported
        ensures { ReportMade self p stop result }
    {
        if bad_report(self, p) {
            return Reported {
                go: Err(Refusal::Setting),
                progress: self,
            };
        }
        let after = self.ask(p, stop);
        let go = if after.stopped { Go::Stop } else { Go::On };
        Reported {
            go: Ok(go),
            progress: after,
        }
    }
}

// The least and the greatest value of a map.
#[derive(Clone, Copy, Debug, PartialEq)]
pub struct MinMax {
    pub min: f32,
    pub max: f32,
}

// Min and max with the value x added: above max it becomes max, else below min it becomes min.
fn widen(m: MinMax, x: f32) -> MinMax
    ensures { result ≡ widened m x }
{
    if x > m.max {
        MinMax { max: x, ..m }
    } else if x < m.min {
        MinMax { min: x, ..m }
    } else {
        m
    }
}

// (min, max) of the values, starting with the first; (0, 0) of an empty slice.
fn min_max(v: &[f32]) -> MinMax
    ensures { result ≡ min_max_of v.now }
{
    let Some((first, rest)) = v.split_first() else {
        return MinMax { min: 0.0, max: 0.0 };
    };
    let start = MinMax {
        min: *first,
        max: *first,
    };
    rest.iter().fold(start, |m, x| widen(m, *x))
}

// (min, max) of a map of any length, or refusal 5 with the first height that is not finite.
pub fn get_min_max(v: &[f32]) -> Result<MinMax, Refusal>
    ensures { answer_of result ≡ get_min_max_answer v.now }
{
    let n = v.len();
    if let Some(bad) = first_not_finite(Sides { w: n, h: 1 }, v) {
        return Err(Refusal::Height(bad));
    }
    Ok(min_max(v))
}

// The factor of `normalize`: (hi - lo) / (max - min), or 0 where min and max are equal.
fn slope(m: MinMax, lo: f32, hi: f32) -> f32
    ensures { result ≡ slope_of m lo hi }
{
    if m.min == m.max {
        0.0
    } else {
        (hi - lo) / (m.max - m.min)
    }
}

// lo + (x - min) × slope, the value that is tested and stored.
fn scaled(x: f32, min: f32, lo: f32, slope: f32) -> f32
    ensures { result ≡ scaled_by min lo slope x }
{
    lo + (x - min) * slope
}

// Whether a scaled value of v is not finite; nothing is stored.
fn runs_off(v: &[f32], min: f32, lo: f32, slope: f32) -> bool
    ensures { result ≡ not (all_finite (map (scaled_by min lo slope) v.now)) }
{
    !v.iter().all(|x| is_finite(scaled(*x, min, lo, slope)))
}

// Stores the scaled value of each value.
fn store_scaled(v: &mut [f32], min: f32, lo: f32, slope: f32)
    ensures { v.new ≡ map (scaled_by min lo slope) v.old }
{
    for x in v.iter_mut() {
        *x = scaled(*x, min, lo, slope);
    }
}

// Refusal 4 of `normalize`: a target that is not finite.
fn bad_targets(lo: f32, hi: f32) -> bool
    ensures { result ≡ bad_targets lo hi }
{
    !is_finite(lo) || !is_finite(hi)
}

// Scales a map of any length to target_min … target_max. On a refusal the slice is as it came: every result is tested
// before the first is stored.
pub fn normalize(v: &mut [f32], target_min: f32, target_max: f32) -> Result<(), Refusal>
    ensures { NormalizeMade v.old target_min target_max result v.new }
{
    if bad_targets(target_min, target_max) {
        return Err(Refusal::Setting);
    }
    let n = v.len();
    if let Some(bad) = first_not_finite(Sides { w: n, h: 1 }, v) {
        return Err(Refusal::Height(bad));
    }
    let m = min_max(v);
    let k = slope(m, target_min, target_max);
    if runs_off(v, m.min, target_min, k) {
        return Err(Refusal::RunOff);
    }
    store_scaled(v, m.min, target_min, k);
    Ok(())
}
