// The direct calls on maps, and reports, on slices and numbers alone, for replay and, exported by harness_calls_c, for
// the oracle's comparison with the source: an answer is one u64 (specs/Word.antt). No part of the public calls.
#![tactic(auto)]

ghost use Rattle.std.specs.Prelude.{◌+◌, ◌*◌, ◌%◌, ◌^◌, ◌≡◌};
ghost use Rattle.std.specs.Float.{binary32};
ghost use Rattle.std.specs.Float.Ieee.{to_bits};
ghost use Rattle.answers.specs.Outcome.{number_of, place_of, answer_of};
ghost use Rattle.generators.specs.Marks.{go_of};
ghost use Rattle.generators.specs.Extents.{get_min_max_answer, NormalizeMade};
ghost use Rattle.resample.specs.Blocks.{Downsampled};
ghost use Rattle.bilinear.specs.Samples.{bilinear_answer};
ghost use Rattle.upsample.specs.Samples.{Added};
ghost use Rattle.harness_calls.specs.Word.{export_word, least_bits, greatest_bits, Exported};
ghost use Rattle.harness_calls.specs.Reporting.{go_value, Reporting};

use answers::Refusal;
use generators::{Go, Progress};
use grid::Sides;

// A refusal's number and place in one word.
fn refusal_word(r: Refusal) -> u64
    ensures { result ≡ number_of r * 2 ^ 32 + place_of r % 2 ^ 32 }
{
    let place = r.place() % 0x1_0000_0000;
    u32::from(r) as u64 * 0x1_0000_0000 + place as u64
}

// An answer's word: its value, or the refusal's number and place.
fn answer_word(a: Result<u32, Refusal>) -> u64
    ensures { result ≡ export_word (λ v. v) (answer_of a) }
{
    match a {
        Ok(value) => value as u64,
        Err(r) => refusal_word(r),
    }
}

// The word of an answer that gives nothing: 0 if it is no refusal.
pub fn word(a: Result<(), Refusal>) -> u64
    ensures { result ≡ export_word (λ _. 0) (answer_of a) }
{
    answer_word(a.map(|_| 0))
}

// `get_min_max`: the bits of min.
pub fn harness_least(v: &[f32]) -> u64
    ensures { result ≡ export_word least_bits (get_min_max_answer v.now) }
{
    answer_word(generators::get_min_max(v).map(|m| floats::to_bits(m.min)))
}

// `get_min_max`: the bits of max.
pub fn harness_greatest(v: &[f32]) -> u64
    ensures { result ≡ export_word greatest_bits (get_min_max_answer v.now) }
{
    answer_word(generators::get_min_max(v).map(|m| floats::to_bits(m.max)))
}

// `normalize`.
pub fn harness_normalize(v: &mut [f32], lo: f32, hi: f32) -> u64
    ensures { Exported (λ a. NormalizeMade v.old lo hi a v.new) result }
{
    word(generators::normalize(v, lo, hi))
}

// `downsample`.
pub fn harness_downsample(
    src: &[f32],
    w: usize,
    h: usize,
    dst: &mut [f32],
    dw: usize,
    dh: usize,
) -> u64
    ensures { Exported (λ a. Downsampled src.now w h dst.old dw dh a dst.new)
        result }
{
    let size = Sides { w, h };
    let dsize = Sides { w: dw, h: dh };
    word(downsample::downsample(src, size, dst, dsize))
}

// `add_upsampled`.
pub fn harness_add_upsampled(
    map: &mut [f32],
    w: usize,
    h: usize,
    delta: &[f32],
    dw: usize,
    dh: usize,
) -> u64
    ensures { Exported (λ a. Added map.old w h delta.now dw dh a map.new) result }
{
    let size = Sides { w, h };
    let dsize = Sides { w: dw, h: dh };
    word(upsample::add_upsampled(map, size, delta, dsize))
}

// `bilinear`: the bits of the sample.
pub fn harness_bilinear(v: &[f32], x: f32, y: f32, w: usize, h: usize) -> u64
    ensures { result ≡ export_word (to_bits binary32) (bilinear_answer v.now x y w h) }
{
    answer_word(bilinear::bilinear(v, x, y, Sides { w, h }).map(|sample| floats::to_bits(sample)))
}

// Returns the word of a report's answer: 1 to go on, 0 to stop, or the refusal's word.
fn go_word(go: Result<Go, Refusal>) -> u64
    ensures { result ≡ export_word go_value (go_of go) }
{
    answer_word(go.map(|go| match go {
        Go::On => 1,
        Go::Stop => 0,
    }))
}

// `report`; the record is read and written in place.
pub fn harness_report(last: &mut f32, asked: &mut u32, stopped: &mut bool, p: f32, stop: u32) -> u64
    ensures { Reporting
        (record { last = last.old; asked = asked.old; stopped = stopped.old }) p stop
        (record { last = last.new; asked = asked.new; stopped = stopped.new }) result }
{
    let before = Progress {
        last: *last,
        asked: *asked,
        stopped: *stopped,
    };
    let reported = before.report(p, stop);
    let after = reported.progress;
    *last = after.last;
    *asked = after.asked;
    *stopped = after.stopped;
    go_word(reported.go)
}
