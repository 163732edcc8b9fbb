// The source's resample.rs, the bilinear sample between the cells of a grid.
#![tactic(auto)]

ghost use Rattle.std.specs.Prelude.{◌≡◌, ◌*◌, ◌<◌, ◌≤◌, length};
ghost use Rattle.answers.specs.Outcome.{answer_of};
ghost use Rattle.grid.specs.Directions.{Place};
ghost use Rattle.bilinear.specs.Samples.{as_source, corner_of, between, across_of, bilinear_at, bilinear_of};
ghost use Rattle.bilinear.specs.Samples.{bad_coordinate, bilinear_answer};
ghost use Rattle.bilinear.specs.Places.{Grid};

use answers::Refusal;
use floats::{fract, index, is_finite};
use grid::{Sides, bad_sides, first_not_finite};
use resample::bad_length;

// (1 - d) × a + d × b.
pub fn mixed(d: f32, a: f32, b: f32) -> f32
    ensures { result ≡ between d a b }
{
    (1.0 - d) * a + d * b
}

// A map that is sampled between its cells: the values of a grid with sides in range, row by row.
#[derive(Clone, Copy)]
pub struct SampledMap<'a> {
    pub v: &'a [f32],
    pub size: Sides,
    pub ghost whole: { Grid size.w size.h (length v.now) },
}

impl SampledMap<'_> {
    // The cell of the sample `east` columns east and `south` rows south (0 or 1) of column x, row y. Where that lies
    // past the east or the south edge it is the north-west one, column x, row y.
    fn corner(self, x: usize, y: usize, east: usize, south: usize) -> usize
        requires column { x < self.size.w }
        requires row { y < self.size.h }
        requires east_bound { east ≤ 1 }
        requires south_bound { south ≤ 1 }
        ensures { result ≡ corner_of as_source self.entry.size.w self.entry.size.h x y east south }
    {
        let w = self.size.w;
        let at = x + y * w;
        if w <= x + east || self.size.h <= y + south {
            at
        } else {
            at + east + south * w
        }
    }

    // The value dx of the way from the west sample to the east one, both `south` rows south of row y.
    pub fn across(self, x: usize, dx: f32, y: usize, south: usize) -> f32
        requires column { x < self.size.w }
        requires row { y < self.size.h }
        requires south_bound { south ≤ 1 }
        ensures { result
            ≡ across_of as_source self.entry.v.now self.entry.size.w self.entry.size.h x dx y south }
    {
        let west = self.v[self.corner(x, y, 0, south)];
        let east = self.v[self.corner(x, y, 1, south)];
        mixed(dx, west, east)
    }

    // The bilinear sample dx of the way from column x to the next and dy of the way from row y to the next.
    fn sample_at(self, x: usize, dx: f32, y: usize, dy: f32) -> f32
        requires column { x < self.size.w }
        requires row { y < self.size.h }
        ensures { result
            ≡ bilinear_at as_source self.entry.v.now self.entry.size.w self.entry.size.h x dx y dy }
    {
        let n = self.across(x, dx, y, 0);
        let s = self.across(x, dx, y, 1);
        mixed(dy, n, s)
    }

    // The sample at column x, row y, both in cells, held inside the grid.
    fn sample(self, x: f32, y: f32) -> f32
        ensures { result ≡ bilinear_of as_source self.entry.v.now self.entry.size.w self.entry.size.h x y }
    {
        self.sample_at(
            index(x, self.size.w),
            fract(x),
            index(y, self.size.h),
            fract(y),
        )
    }
}

// The value dx of the way from the west sample to the east one, both `south` rows south of row y of a grid.
pub fn across(v: &[f32], size: Sides, x: usize, dx: f32, y: usize, south: usize) -> f32
    requires place { Place size.w size.h x y }
    requires south_bound { south ≤ 1 }
    requires v_len { length v.now ≡ size.w * size.h }
    ensures { result ≡ across_of as_source v.now size.w size.h x dx y south }
{
    SampledMap { v, size }.across(x, dx, y, south)
}

// Refusal 4: whether a sample coordinate is not from 0 to below its side.
fn bad_coordinate(x: f32, side: usize) -> bool
    requires { side ≤ 4096 }
    ensures { result ≡ bad_coordinate x side }
{
    !(0.0 <= x && x < side as f32)
}

// Returns the bilinear sample of v at column x, row y, or refusal 1, 3, 4, 5 or 22.
pub fn bilinear(v: &[f32], x: f32, y: f32, size: Sides) -> Result<f32, Refusal>
    ensures { answer_of result ≡ bilinear_answer v.now x y size.w size.h }
{
    if bad_sides(size) {
        return Err(Refusal::Side);
    }
    if bad_length(v.len(), size) {
        return Err(Refusal::Length);
    }
    if bad_coordinate(x, size.w) || bad_coordinate(y, size.h) {
        return Err(Refusal::Setting);
    }
    if let Some(bad) = first_not_finite(size, v) {
        return Err(Refusal::Height(bad));
    }
    let s = SampledMap { v, size }.sample(x, y);
    if !is_finite(s) {
        return Err(Refusal::RunOff);
    }
    Ok(s)
}
