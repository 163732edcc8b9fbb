// The source's resample.rs, the block average of a map onto a smaller grid.
#![tactic(auto)]

ghost use Rattle.std.specs.Prelude.{◌≡◌, ◌+◌, ◌*◌, ◌<◌, ◌≤◌, length, replicate};
ghost use Rattle.resample.specs.WorkSize.{Within};
ghost use Rattle.resample.specs.Blocks.{first_in_block, count_of, row_sum, block_sum, average_of, downsampled};
ghost use Rattle.resample.specs.Blocks.{Downsampled};
ghost use Rattle.resample.specs.Places.{Block, Part};
ghost use Rattle.downsample.specs.Firsts.{firsts_of, averages_of};

use answers::Refusal;
use grid::{Sides, all_finite};
use resample::map_refusal;

// The first column (or row) of block b.
fn first_of(side: usize, reduced: usize, b: usize) -> usize
    requires { Block side reduced b }
    ensures { result ≡ first_in_block side reduced b }
{
    (b * side + (reduced - 1)) / reduced
}

// acc + src[at] + src[at + 1] …, n values.
fn row_sum(src: &[f32], at: usize, n: usize, acc: f32) -> f32
    requires { at + n ≤ length src.now }
    ensures { result ≡ row_sum src.now at n acc }
{
    // By index: over a part of src blocks of few columns take longer to add up.
    let mut sum = acc;
    for i in 0..n {
        sum += src[at + i];
    }
    sum
}

// The sum of a block: n columns from column x, in each of the rows from row y. It starts at +0.
fn block_sum(src: &[f32], w: usize, x: usize, n: usize, y: usize, rows: usize) -> f32
    requires { Part (length src.now) w x n y rows }
    ensures { result ≡ block_sum src.now w x n y rows }
{
    let mut sum = 0.0;
    for i in 0..rows {
        sum = row_sum(src, x + (y + i) * w, n, sum);
    }
    sum
}

// The first column (or row) of each block of a side, then the end past the last block. Each takes a division, so they
// are worked out once for a grid, not for each of its blocks. The array is lent, so that it is not moved.
#[derive(Clone, Copy)]
struct Firsts<'a> {
    side: usize,
    reduced: usize,
    at: &'a [usize; 4097],
    ghost side_high: { side ≤ 4096 },
    ghost reduced_low: { 1 ≤ reduced },
    ghost reduced_high: { reduced ≤ side },
    ghost made: { at.now ≡ firsts_of side reduced },
}

impl<'a> Firsts<'a> {
    // Stores the first columns in the array lent, which holds zeros.
    fn new(side: usize, reduced: usize, at: &'a mut [usize; 4097]) -> Firsts<'a>
        requires side_high { side ≤ 4096 }
        requires reduced_low { 1 ≤ reduced }
        requires reduced_high { reduced ≤ side }
        requires zeros { at.old ≡ replicate 4097 0 }
        ensures full { result.side ≡ side }
        ensures small { result.reduced ≡ reduced }
    {
        for b in 0..reduced + 1 {
            at[b] = first_of(side, reduced, b);
        }
        Firsts { side, reduced, at }
    }

    // The first column of block b.
    fn first(&self, b: usize) -> usize
        requires { b < self.now.reduced }
        ensures { result ≡ first_in_block self.now.side self.now.reduced b }
    {
        self.at[b]
    }

    // The number of columns of block b.
    fn count(&self, b: usize) -> usize
        requires { b < self.now.reduced }
        ensures { result ≡ count_of self.now.side self.now.reduced b }
    {
        self.at[b + 1] - self.at[b]
    }
}

// A map, and the blocks of its columns and of its rows.
#[derive(Clone, Copy)]
struct Blocks<'a, 'c, 'r> {
    src: &'a [f32],
    columns: Firsts<'c>,
    rows: Firsts<'r>,
    ghost whole: { length src.now ≡ columns.side * rows.side },
}

impl Blocks<'_, '_, '_> {
    // The average of block (bx, by): its sum / the number of its cells.
    fn average(&self, bx: usize, by: usize) -> f32
        requires bx_lt_w { bx < self.now.columns.reduced }
        requires by_lt_h { by < self.now.rows.reduced }
        ensures { result
            ≡ average_of self.now.src.now self.now.columns.side self.now.rows.side
            self.now.columns.reduced self.now.rows.reduced bx by }
    {
        let nx = self.columns.count(bx);
        let ny = self.rows.count(by);
        let x = self.columns.first(bx);
        let y = self.rows.first(by);
        block_sum(self.src, self.columns.side, x, nx, y, ny) / (nx * ny) as f32
    }

    // Stores the averages of the blocks of row `by` in `row`.
    fn average_row(&self, by: usize, row: &mut [f32])
        requires by_lt_h { by < self.now.rows.reduced }
        requires row_len { length row.old ≡ self.now.columns.reduced }
        ensures { row.new
            ≡ averages_of self.now.src.now self.now.columns.side self.now.rows.side
            self.now.columns.reduced self.now.rows.reduced by }
    {
        for (bx, average) in row.iter_mut().enumerate() {
            *average = self.average(bx, by);
        }
    }
}

// Fills dst with the averages of its blocks.
pub fn downsample_into(src: &[f32], size: Sides, dst: &mut [f32], dsize: Sides)
    requires within { Within size.w size.h dsize.w dsize.h }
    requires src_len { length src.now ≡ size.w * size.h }
    requires dst_len { length dst.old ≡ dsize.w * dsize.h }
    ensures { dst.new ≡ downsampled src.now size.w size.h dsize.w dsize.h }
{
    let mut xs: [usize; 4097] = [0; 4097];
    let mut ys: [usize; 4097] = [0; 4097];
    let columns = Firsts::new(size.w, dsize.w, &mut xs);
    let rows = Firsts::new(size.h, dsize.h, &mut ys);
    let blocks = Blocks { src, columns, rows };
    let w = dsize.w;
    for y in 0..dsize.h {
        let from = y * w;
        blocks.average_row(y, &mut dst[from..from + w]);
    }
}

// Block average of src onto dst. Nothing is written on 1 to 5; on 22 dst holds the averages.
pub fn downsample(src: &[f32], size: Sides, dst: &mut [f32], dsize: Sides) -> Result<(), Refusal>
    ensures { Downsampled src.now size.w size.h dst.old dsize.w dsize.h result
        dst.new }
{
    map_refusal(src, size, dsize, dst.len())?;
    downsample_into(src, size, dst, dsize);
    if !all_finite(dst) {
        return Err(Refusal::RunOff);
    }
    Ok(())
}
