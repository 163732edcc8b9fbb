// The source's fluvial_erosion.rs, one incision: every cell is lowered toward the cell it drains into, in proportion to
// the square root of its drainage area, in the order of a work list.
#![tactic(auto)]

ghost use Rattle.std.specs.Prelude.{◌≡◌, Bool, ℕ, ◌*◌, ◌≤◌, ◌<◌, length};
ghost use Rattle.std.specs.Float.{nan};
ghost use Rattle.grid.specs.Sides.{InRange};
ghost use Rattle.drainage.specs.Ground.{ground_by};
ghost use Rattle.areas.specs.Sums.{Along};
ghost use Rattle.areas.specs.Words.{areas_in, SteppedNetwork, Worded, WholeAreas};
ghost use Rattle.incision_cell.specs.Cut.{cut_down};
ghost use Rattle.incision_paths.specs.Settled.{made_along};
ghost use Rattle.fluvial_erosion.specs.Incision.{incise_along};
ghost use Rattle.answers.specs.Outcome.{gives, refused, refused_at, answer_of};
ghost use Rattle.fluvial_erosion.specs.Incise.{bad_incise_lengths, bad_incision, incise_refusal, InciseMade};
ghost use Rattle.fluvial_erosion.specs.Along.{on_grid, Drains, Lengths, Incised, Carved};

use answers::{Refusal, outside};
use areas::{areas_along, read_areas, to_words, words_along};
use floats::is_finite;
use grid::{Sides, all_finite, bad_sides, copy_heights, first_not_finite};
use grid_spacing::{Distances, square_distances};
use incision_cell::{Incision, IncisionTables, incise_cell};
use incision_paths::incise_ways;
use lent_list::first_bad_entry;
use lent_receivers::first_bad_receiver;

// The most cells whose heights are incised along the list; those of larger grids are incised by ways down, which stay
// near in memory.
const LISTED: usize = 4194304;

// The settings of an incision on its grid.
#[derive(Clone, Copy)]
pub struct FluvialParams {
    pub k: f32,
    pub uplift: f32,
    pub water_level: f32,
}

// The settings of an incision, with its grid and the distances between its cells.
fn incision_of(size: Sides, params: FluvialParams, ds: Distances) -> Incision
    requires { InRange size.w size.h }
    ensures { result ≡ on_grid size.w size.h params ds }
{
    Incision {
        width: size.w,
        cells: (size.w * size.h) as f32,
        k: params.k,
        uplift: params.uplift,
        water: params.water_level,
        distances: ds,
    }
}

// Incises the heights in `out` along the list, as document 01 states it, without words: for grids of one or two
// columns, where steps have no numbers.
fn incise_plain(by: Incision, area: &[f32], recv: &[u32], order: &[u32], out: &mut [f32])
    requires along { Along (length out.old) recv.now order.now }
    requires width_nonzero { (0 < by.width) × (length area.now ≡ length out.old) }
    ensures { out.new ≡ made_along nan recv.now
        (cut_down by area.now recv.now) order.now out.old }
{
    for &c in order {
        incise_cell(by, area, recv, out, c as usize);
    }
}

// Incises the heights in `out` along the list by the words of the cells. A list in order of height visits cells
// scattered over memory; with words it goes to two slices, `words` and `out`, and without them to three.
fn incise_listed(by: Incision, recv: &[u32], words: &[f32], order: &[u32], out: &mut [f32])
    requires along { Along (length out.old) recv.now order.now }
    requires stepped_network { SteppedNetwork by.width recv.now (length out.old) }
    requires worded { Worded by.width recv.now words.now }
    ensures { out.new ≡ made_along nan recv.now
        (cut_down by (areas_in words.now) recv.now) order.now out.old }
{
    let tables = IncisionTables::new(by, words.len());
    for &c in order {
        let c = c as usize;
        let height = out[c];
        tables.settle_cell(words, out, c, height);
    }
}

// Writes the heights of `hmap`, incised along the list by the areas given, to `out`, without words.
fn incise_narrow(
    size: Sides,
    hmap: &[f32],
    params: FluvialParams,
    ds: Distances,
    area: &[f32],
    recv: &[u32],
    order: &[u32],
    out: &mut [f32],
)
    requires drains { Drains size.w size.h recv.now order.now }
    requires lengths { Lengths (size.w * size.h) (length hmap.now) (length out.old) (length area.now) }
    ensures { (base : ℕ → Bool) → out.new ≡ incise_along (ground_by size.w size.h ds base) params
        area.now recv.now order.now hmap.now }
{
    let by = incision_of(size, params, ds);
    copy_heights(hmap, out);
    incise_plain(by, area, recv, order, out);
}

// Writes the heights of `hmap`, incised by the areas in words, to `out`, and turns the words back into areas. The
// heights do not depend on the work list: on a grid of more than `LISTED` cells, where an order by height is scattered
// over memory, each cell is incised with its way down.
fn incise_words(
    size: Sides,
    hmap: &[f32],
    params: FluvialParams,
    ds: Distances,
    recv: &[u32],
    order: &[u32],
    out: &mut [f32],
    words: &mut [f32],
)
    requires drains { Drains size.w size.h recv.now order.now }
    requires lengths { Lengths (size.w * size.h) (length hmap.now) (length out.old) (length words.old) }
    requires le_w { (3 ≤ size.w) × Worded size.w recv.now words.old }
    ensures { Incised size.w size.h hmap.now params ds (areas_in words.old)
        recv.now order.now (record { out = out.new; area = words.new }) }
{
    let by = incision_of(size, params, ds);
    if LISTED < words.len() {
        incise_ways(by, hmap, recv, words, out);
        read_areas(words);
        return;
    }
    copy_heights(hmap, out);
    incise_listed(by, recv, words, order, out);
    read_areas(words);
}

// Writes the heights of `hmap`, incised along the list by the areas in `area`, to `out`. Each area is a whole number of
// cells; `area` is scratch meanwhile and has the areas again afterwards.
pub fn incise_along(
    size: Sides,
    hmap: &[f32],
    params: FluvialParams,
    ds: Distances,
    recv: &[u32],
    order: &[u32],
    out: &mut [f32],
    area: &mut [f32],
)
    requires drains { Drains size.w size.h recv.now order.now }
    requires lengths { Lengths (size.w * size.h) (length hmap.now) (length out.old) (length area.old) }
    requires whole_areas { WholeAreas area.old }
    ensures { Incised size.w size.h hmap.now params ds area.old recv.now
        order.now (record { out = out.new; area = area.new }) }
{
    if size.w < 3 {
        incise_narrow(size, hmap, params, ds, area, recv, order, out);
        return;
    }
    to_words::<true>(size.w, recv, area);
    incise_words(size, hmap, params, ds, recv, order, out, area);
}

// Writes the heights of `hmap`, incised along the list, to `out`, and the areas along the list to `area`.
pub fn incise_into(
    size: Sides,
    hmap: &[f32],
    params: FluvialParams,
    ds: Distances,
    recv: &[u32],
    order: &[u32],
    out: &mut [f32],
    area: &mut [f32],
)
    requires drains { Drains size.w size.h recv.now order.now }
    requires lengths { Lengths (size.w * size.h) (length hmap.now) (length out.old) (length area.old) }
    ensures { Carved size.w size.h hmap.now params ds recv.now order.now
        (record { out = out.new; area = area.new }) }
{
    if size.w < 3 {
        areas_along(size.w, recv, order, area);
        incise_narrow(size, hmap, params, ds, area, recv, order, out);
        return;
    }
    words_along(size.w, recv, order, area);
    incise_words(size, hmap, params, ds, recv, order, out, area);
}

// Refusal 3: whether a slice has another length than n, or the scratch slice fewer than n values.
fn bad_lengths(
    n: usize,
    heights: usize,
    recv: usize,
    list: usize,
    res: usize,
    scratch: usize,
) -> bool
    ensures { result ≡ bad_incise_lengths n heights recv list res scratch }
{
    heights != n || recv != n || list != n || res != n || scratch < n
}

// Refusal 4: a setting outside its range.
fn bad_incision(params: FluvialParams) -> bool
    ensures { result ≡ bad_incision params }
{
    outside(params.k, 0.0, 64.0)
        || outside(params.uplift, -1.0, 1.0)
        || !is_finite(params.water_level)
}

// Returns the first refusal of `incise` in number order, `Ok` where there is none; `res` and `scratch` are the
// lengths of the slices to write.
fn refusal(
    size: Sides,
    hmap: &[f32],
    params: FluvialParams,
    recv: &[u32],
    order: &[u32],
    res: usize,
    scratch: usize,
) -> Result<(), Refusal>
    ensures { answer_of result ≡ incise_refusal size.w size.h hmap.now params recv.now
        order.now res scratch refused refused_at (gives tt) }
{
    if bad_sides(size) {
        return Err(Refusal::Side);
    }
    let n = size.w * size.h;
    if bad_lengths(n, hmap.len(), recv.len(), order.len(), res, scratch) {
        return Err(Refusal::Length);
    }
    if bad_incision(params) {
        return Err(Refusal::Setting);
    }
    if let Some(height) = first_not_finite(size, hmap) {
        return Err(Refusal::Height(height));
    }
    if let Some(cell) = first_bad_receiver(size, recv) {
        return Err(Refusal::Receiver(cell));
    }
    if let Some(entry) = first_bad_entry(n, recv, order) {
        return Err(Refusal::List(entry));
    }
    Ok(())
}

// One incision of the source along a lent list of lent receivers, from hmap to out, with the areas in the first n
// places of `area`.
pub fn incise(
    size: Sides,
    hmap: &[f32],
    params: FluvialParams,
    recv: &[u32],
    order: &[u32],
    out: &mut [f32],
    area: &mut [f32],
) -> Result<(), Refusal>
    ensures { InciseMade size.w size.h hmap.now params recv.now order.now
        (record { out = out.old; area = area.old }) result
        (record { out = out.new; area = area.new }) }
{
    refusal(size, hmap, params, recv, order, out.len(), area.len())?;
    let n = size.w * size.h;
    let ds = square_distances();
    incise_into(size, hmap, params, ds, recv, order, out, &mut area[..n]);
    if all_finite(out) {
        return Ok(());
    }
    Err(Refusal::RunOff)
}
