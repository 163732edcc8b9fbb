// The source's resample.rs, the way back from the reduced grid: the reduced grid, sampled bilinearly, added to the full
// one.
#![tactic(auto)]

ghost use Rattle.std.specs.Prelude.{◌≡◌, ◌≤◌, length};
ghost use Rattle.grid.specs.Heights.{all_finite};
ghost use Rattle.bilinear.specs.Places.{Grid};
ghost use Rattle.bilinear.specs.Samples.{as_source};
ghost use Rattle.upsample.specs.Samples.{summed_row, Summed, added_of, AddedFinite, Added};

use answers::Refusal;
use bilinear::{SampledMap, mixed};
use floats::is_finite;
use grid::{SIDE_MAX, Sides, first_not_finite};
use resample::map_refusal;
use upsample_rows::{MixedRows, ReducedColumns};

// Whether every height of a row stays finite with the samples added, dy of the way from north to south. The loop has no
// branch, so that several heights can be tested at a time.
fn row_finite(row: &[f32], north: &[f32; SIDE_MAX], south: &[f32; SIDE_MAX], dy: f32) -> bool
    requires { length row.now ≤ 4096 }
    ensures { result ≡ all_finite (summed_row row.now north.now south.now dy) }
{
    let mut good = true;
    for x in 0..row.len() {
        good &= is_finite(row[x] + mixed(dy, north[x], south[x]));
    }
    good
}

// Adds the samples to a row.
fn add_row(row: &mut [f32], north: &[f32; SIDE_MAX], south: &[f32; SIDE_MAX], dy: f32)
    requires { length row.old ≤ 4096 }
    ensures { row.new ≡ summed_row row.old north.now south.now dy }
{
    for (x, height) in row.iter_mut().enumerate() {
        *height += mixed(dy, north[x], south[x]);
    }
}

// If `STORE`, adds the samples to a row and returns true; else returns whether every sum is finite.
fn sum_row<const STORE: bool>(
    row: &mut [f32],
    north: &[f32; SIDE_MAX],
    south: &[f32; SIDE_MAX],
    dy: f32,
) -> bool
    requires { length row.old ≤ 4096 }
    ensures { Summed STORE (summed_row row.old north.now south.now dy) row.old result
        row.new }
{
    if STORE {
        add_row(row, north, south, dy);
        return true;
    }
    row_finite(row, north, south, dy)
}

// If `STORE`, adds the samples to every row of the map and returns true; else returns whether every sum is finite.
fn sum_rows<const STORE: bool>(
    map: &mut [f32],
    size: Sides,
    rows: &mut MixedRows<'_, '_, '_>,
) -> bool
    requires grid { Grid size.w size.h (length map.old) }
    requires w_is { rows.old.columns.w ≡ size.w }
    ensures sums { Summed STORE
        (added_of as_source map.old size.w size.h rows.old.delta.v.now rows.old.delta.size.w
        rows.old.delta.size.h)
        map.old result map.new }
    ensures map_is { rows.new.delta ≡ rows.old.delta }
    ensures across { rows.new.columns ≡ rows.old.columns }
{
    let w = size.w;
    for y in 0..size.h {
        let dy = rows.prepare(size.h, y);
        let from = y * w;
        if !sum_row::<STORE>(&mut map[from..from + w], rows.north, rows.south, dy) {
            return false;
        }
    }
    true
}

// Adds the samples to the map if every sum is finite, and returns whether it is. Every sum is tested before the first
// is stored.
pub fn add_finite(map: &mut [f32], size: Sides, delta: &[f32], dsize: Sides) -> bool
    requires grid { Grid size.w size.h (length map.old) }
    requires grid_2 { Grid dsize.w dsize.h (length delta.now) }
    ensures { AddedFinite
        (added_of as_source map.old size.w size.h delta.now dsize.w dsize.h)
        map.old result map.new }
{
    let delta = SampledMap {
        v: delta,
        size: dsize,
    };
    let mut cs: [usize; SIDE_MAX] = [0; SIDE_MAX];
    let mut ds: [f32; SIDE_MAX] = [0.0; SIDE_MAX];
    let columns = ReducedColumns::new(size.w, dsize.w, &mut cs, &mut ds);
    let mut north: [f32; SIDE_MAX] = [0.0; SIDE_MAX];
    let mut south: [f32; SIDE_MAX] = [0.0; SIDE_MAX];
    let mut rows = MixedRows::new(delta, columns, &mut north, &mut south);
    sum_rows::<false>(map, size, &mut rows) && sum_rows::<true>(map, size, &mut rows)
}

// Adds delta, a reduced grid, to the map, bilinearly upsampled on cell centres. On a refusal the map is as it came.
pub fn add_upsampled(
    map: &mut [f32],
    size: Sides,
    delta: &[f32],
    dsize: Sides,
) -> Result<(), Refusal>
    ensures { Added map.old size.w size.h delta.now dsize.w dsize.h result
        map.new }
{
    map_refusal(map, size, dsize, delta.len())?;
    if let Some(bad) = first_not_finite(dsize, delta) {
        return Err(Refusal::Height(bad));
    }
    if !add_finite(map, size, delta, dsize) {
        return Err(Refusal::RunOff);
    }
    Ok(())
}
