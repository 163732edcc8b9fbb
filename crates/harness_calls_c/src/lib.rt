// The calls of harness_calls by the C convention, as its archive exports them: a slice passes as pointer and length.
#![tactic(auto)]

ghost use Rattle.std.specs.Prelude.{◌+◌, ◌*◌, ◌%◌, ◌^◌, ◌≡◌, cond};
ghost use Rattle.std.specs.Float.{binary32};
ghost use Rattle.std.specs.Float.Ieee.{to_bits};
ghost use Rattle.answers.specs.Outcome.{number_of, place_of, answer_of};
ghost use Rattle.generators.specs.Marks.{go_of};
ghost use Rattle.generators.specs.Extents.{get_min_max_answer, NormalizeMade};
ghost use Rattle.resample.specs.Blocks.{Downsampled};
ghost use Rattle.bilinear.specs.Samples.{bilinear_answer};
ghost use Rattle.upsample.specs.Samples.{Added};
ghost use Rattle.harness_calls.specs.Word.{export_word, least_bits, greatest_bits, Exported};
ghost use Rattle.harness_calls.specs.Reporting.{go_value, Reporting};

// `get_min_max`: the bits of min.
#[unsafe(no_mangle)]
pub extern "C" fn harness_least(v: &[f32]) -> u64
    ensures { result ≡ export_word least_bits (get_min_max_answer v.now) }
{
    harness_calls::harness_least(v)
}

// `get_min_max`: the bits of max.
#[unsafe(no_mangle)]
pub extern "C" fn harness_greatest(v: &[f32]) -> u64
    ensures { result ≡ export_word greatest_bits (get_min_max_answer v.now) }
{
    harness_calls::harness_greatest(v)
}

// `normalize`.
#[unsafe(no_mangle)]
pub extern "C" fn harness_normalize(v: &mut [f32], lo: f32, hi: f32) -> u64
    ensures { Exported (λ a. NormalizeMade v.old lo hi a v.new) result }
{
    harness_calls::harness_normalize(v, lo, hi)
}

// `downsample`.
#[unsafe(no_mangle)]
pub extern "C" fn harness_downsample(
    src: &[f32],
    w: usize,
    h: usize,
    dst: &mut [f32],
    dw: usize,
    dh: usize,
) -> u64
    ensures { Exported (λ a. Downsampled src.now w h dst.old dw dh a dst.new)
        result }
{
    harness_calls::harness_downsample(src, w, h, dst, dw, dh)
}

// `add_upsampled`.
#[unsafe(no_mangle)]
pub extern "C" fn harness_add_upsampled(
    map: &mut [f32],
    w: usize,
    h: usize,
    delta: &[f32],
    dw: usize,
    dh: usize,
) -> u64
    ensures { Exported (λ a. Added map.old w h delta.now dw dh a map.new) result }
{
    harness_calls::harness_add_upsampled(map, w, h, delta, dw, dh)
}

// `bilinear`: the bits of the sample.
#[unsafe(no_mangle)]
pub extern "C" fn harness_bilinear(v: &[f32], x: f32, y: f32, w: usize, h: usize) -> u64
    ensures { result ≡ export_word (to_bits binary32) (bilinear_answer v.now x y w h) }
{
    harness_calls::harness_bilinear(v, x, y, w, h)
}

// `report`; the record is read and written in place.
#[unsafe(no_mangle)]
pub extern "C" fn harness_report(
    last: &mut f32,
    asked: &mut u32,
    stopped: &mut bool,
    p: f32,
    stop: u32,
) -> u64
    ensures { Reporting
        (record { last = last.old; asked = asked.old; stopped = stopped.old }) p stop
        (record { last = last.new; asked = asked.new; stopped = stopped.new }) result }
{
    harness_calls::harness_report(last, asked, stopped, p, stop)
}
