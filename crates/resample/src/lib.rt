// The source's resample.rs: the sides of the reduced grid, and the refusals of a full map beside a reduced one. The
// block average onto it is in the crate `downsample`, the way back in `bilinear`, `upsample_rows` and `upsample`.
#![tactic(auto)]

ghost use Rattle.std.specs.Prelude.{◌≡◌, not, ◌||◌, ◌*◌, ◌≤◌, eqb};
ghost use Rattle.answers.specs.Outcome.{gives, refused, refused_at, answer_of};
ghost use Rattle.resample.specs.WorkSize.{scaled_side, work_size, work_answer};
ghost use Rattle.resample.specs.Blocks.{bad_reduced, map_refusal};

use answers::Refusal;
use floats::{ratio, round, to_count};
use grid::{Sides, bad_sides, first_not_finite, longest};

// One side of the working grid: side × coef, rounded half away from zero, at least 1.
fn scaled_side(side: usize, coef: f32) -> usize
    requires { side ≤ 4096 }
    ensures { result ≡ scaled_side coef side }
{
    to_count(round(side as f32 * coef))
}

// The working sides: the full ones where the longest fits, else both scaled by max_res / longest. The bounds are no
// fact of `Sides`, which also holds the sides that are refused.
pub fn work_sides(size: Sides, max_res: u32) -> Sides
    requires w_bound { size.w ≤ 4096 }
    requires h_bound { size.h ≤ 4096 }
    ensures { result ≡ work_size size.w size.h max_res }
{
    let side = longest(size);
    let res = max_res as usize;
    if side <= res {
        return size;
    }
    let coef = ratio(res, side);
    Sides {
        w: scaled_side(size.w, coef),
        h: scaled_side(size.h, coef),
    }
}

// Returns the working sides of a map (document 01), or refusal 1.
pub fn work_size(size: Sides, max_res: u32) -> Result<Sides, Refusal>
    ensures { answer_of result ≡ work_answer size.w size.h max_res }
{
    if bad_sides(size) {
        return Err(Refusal::Side);
    }
    Ok(work_sides(size, max_res))
}

// Refusal 2 of one side: whether the reduced side is 0 or greater than the full one.
fn bad_reduced_side(reduced: usize, side: usize) -> bool
    ensures { result ≡ bad_reduced reduced side }
{
    reduced == 0 || side < reduced
}

// Refusal 2: whether either reduced side is 0 or greater than the full one.
fn bad_reduced(dsize: Sides, size: Sides) -> bool
    ensures { result ≡ (bad_reduced dsize.w size.w || bad_reduced dsize.h size.h) }
{
    bad_reduced_side(dsize.w, size.w) || bad_reduced_side(dsize.h, size.h)
}

// Refusal 3: whether len is not the number of the grid's cells.
pub fn bad_length(len: usize, size: Sides) -> bool
    requires w_bound { size.w ≤ 4096 }
    requires h_bound { size.h ≤ 4096 }
    ensures { result ≡ not (eqb len (size.w * size.h)) }
{
    len != size.w * size.h
}

// Refusals 1, 2, 3 and 5 for a full map and a reduced one of dlen values; only the heights of the full map are checked.
// Returns the first refusal that applies, or `Ok`.
pub fn map_refusal(map: &[f32], size: Sides, dsize: Sides, dlen: usize) -> Result<(), Refusal>
    ensures { answer_of result
        ≡ map_refusal map.now size.w size.h dlen dsize.w dsize.h refused refused_at (gives tt) }
{
    if bad_sides(size) {
        return Err(Refusal::Side);
    }
    if bad_reduced(dsize, size) {
        return Err(Refusal::ReducedSide);
    }
    if bad_length(map.len(), size) || bad_length(dlen, dsize) {
        return Err(Refusal::Length);
    }
    if let Some(bad) = first_not_finite(size, map) {
        return Err(Refusal::Height(bad));
    }
    Ok(())
}
