// Rows of a talus pass. The inner cells of a row, whose neighbours need no test, are slid in blocks: first the total
// and the loss of each cell are computed, then the losses and gains are applied, direction by direction where many of
// the cells shed. The cells on the sides of the map are slid one by one.
#![tactic(auto)]

ghost use Rattle.std.specs.Prelude.{◌≡◌, cond, ◌≤◌, length};
ghost use Rattle.std.specs.Float.{binary32};
ghost use Rattle.std.specs.Float.Ieee.{of_bits, lt, le};
ghost use Rattle.talus.specs.Talus.{slide_cell, slide_cells, slide_row};
ghost use Rattle.talus.specs.Places.{InRow};
ghost use Rattle.grid_inner.specs.Inner.{Inner};
ghost use Rattle.talus_directions.specs.Parts.{InnerRow};
ghost use Rattle.talus_rows.specs.Blocks.{shed_total, moved_from, Sheds, ShedsPut, shedders};

use grid::Map;
use grid_inner::inner_cells;
use talus::{Cell, Slide, Stretch, gain_around, shed_around, slide_cells};
use talus_directions::{Block, BlockSheds, TALUS_BLOCK, slide_directions};

// A block in which fewer cells than this shed is slid cell by cell, which then takes less time than direction by
// direction.
const FEW_SHEDDING: u32 = 12;

// Slides one inner cell, as `slide_cell` does, by its total and its loss, which are known.
fn slide_inside(slide: &Slide, out: &mut [f32], cell: Cell, total: f32, moved: f32)
    requires inner { Inner cell.map.size.w cell.map.size.h cell.c }
    requires out_len { length out.old ≡ length cell.map.heights.now }
    requires total_value { let a = cell.map in
        total ≡ shed_total a.size.w a.size.h slide.now.thresholds a.heights.now slide.now.water cell.c }
    requires moved_value { let a = cell.map in
        moved ≡ moved_from a.size.w a.size.h slide.now.thresholds a.heights.now slide.now.strength cell.c }
    ensures { let a = cell.entry in
        out.new ≡ slide_cell a.map.size.w a.map.size.h slide.now.thresholds a.map.heights.now slide.now.strength
        slide.now.water a.c out.old }
{
    if total <= 0.0 {
        return;
    }
    let c = cell.c;
    out[c] = out[c] - moved;
    gain_around::<true>(slide, out, cell, moved, total);
}

// Returns the total of a cell with that height: 0 where it is below the water level. A select, not a branch.
fn dry_total(height: f32, water: f32, total: f32) -> f32
    ensures { result ≡ cond (lt height water) (of_bits binary32 0) total }
{
    if height < water { 0.0 } else { total }
}

// Writes the totals and the losses of the cells of a block to `totals` and `moved`. No map is written meanwhile, so
// that several cells can be computed at a time.
fn shed_block(
    slide: &Slide,
    block: Block,
    totals: &mut [f32; TALUS_BLOCK],
    moved: &mut [f32; TALUS_BLOCK],
)
    ensures { let b = block.entry.cells in
        ShedsPut b.map.size.w b.map.size.h slide.now.thresholds b.map.heights.now slide.now.strength slide.now.water
        (record { y = b.y; x = b.x; n = b.n })
        (record { totals = totals.old; moved = moved.old })
        (record { totals = totals.new; moved = moved.new }) }
{
    let cells = block.cells;
    for i in 0..cells.n {
        let cell = cells.cell(i);
        let s = shed_around::<true>(slide, cell);
        totals[i] = dry_total(cell.map.heights[cell.c], slide.water, s.total);
        moved[i] = slide.strength * s.greatest;
    }
}

// 1 for a cell that sheds by that total, else 0: a number to add, a select, not a branch.
fn sheds(total: f32) -> u32
    ensures { result ≡ cond (le total (of_bits binary32 0)) 0 1 }
{
    if total <= 0.0 { 0 } else { 1 }
}

// How many of the first n cells shed. By index, as `shedders` counts them: a slice of n would have a contract on the
// list that it is cut from, and reads no plainer.
fn shedding(totals: &[f32; TALUS_BLOCK], n: usize) -> u32
    requires { n ≤ 64 }
    ensures { result ≡ shedders totals.now n }
{
    let mut k: u32 = 0;
    for i in 0..n {
        k += sheds(totals[i]);
    }
    k
}

// Slides the cells of a block, one after the other, by their totals and losses.
fn slide_few(slide: &Slide, out: &mut [f32], block: Block, sheds: BlockSheds)
    requires out_len { length out.old ≡ length block.cells.map.heights.now }
    requires sheds { let b = block.cells in
        Sheds b.map.size.w b.map.size.h slide.now.thresholds b.map.heights.now slide.now.strength slide.now.water
        (record { y = b.y; x = b.x; n = b.n })
        (record { totals = sheds.totals.now; moved = sheds.moved.now }) }
    ensures { let b = block.entry.cells in
        out.new ≡ slide_cells b.map.size.w b.map.size.h slide.now.thresholds b.map.heights.now
        slide.now.strength slide.now.water b.y b.x b.n out.old }
{
    let cells = block.cells;
    for i in 0..cells.n {
        slide_inside(slide, out, cells.cell(i), sheds.totals[i], sheds.moved[i]);
    }
}

// Slides the cells of a block: computes their totals and losses, then applies the losses and gains.
fn slide_block(slide: &Slide, out: &mut [f32], block: Block)
    requires { length out.old ≡ length block.cells.map.heights.now }
    ensures { let b = block.entry.cells in
        out.new ≡ slide_cells b.map.size.w b.map.size.h slide.now.thresholds b.map.heights.now
        slide.now.strength slide.now.water b.y b.x b.n out.old }
{
    let mut totals = [0.0; TALUS_BLOCK];
    let mut moved = [0.0; TALUS_BLOCK];
    shed_block(slide, block, &mut totals, &mut moved);
    let k = shedding(&totals, block.cells.n);
    if k == 0 {
        return;
    }
    let sheds = BlockSheds {
        totals: &totals,
        moved: &moved,
    };
    if k < FEW_SHEDDING {
        slide_few(slide, out, block, sheds);
        return;
    }
    slide_directions(slide, out, block, sheds);
}

// Slides a stretch of inner cells, block by block.
fn slide_inner_cells(slide: &Slide, out: &mut [f32], cells: Stretch)
    requires inner { InnerRow cells.map.size.w cells.map.size.h (length cells.map.heights.now) cells.y cells.x cells.n }
    requires out_len { length out.old ≡ length cells.map.heights.now }
    ensures { let a = cells.entry in
        out.new ≡ slide_cells a.map.size.w a.map.size.h slide.now.thresholds a.map.heights.now slide.now.strength
        slide.now.water a.y a.x a.n out.old }
{
    for i in (0..cells.n).step_by(TALUS_BLOCK) {
        let part = Stretch {
            map: cells.map,
            y: cells.y,
            x: cells.x + i,
            n: TALUS_BLOCK.min(cells.n - i),
        };
        slide_block(slide, out, Block { cells: part });
    }
}

// Slides row y, from the west: its first cell, the inner ones, and the rest.
pub fn slide_row(slide: &Slide, map: Map, out: &mut [f32], y: usize)
    requires le_w { 1 ≤ map.size.w }
    requires in_row { InRow map.size.w map.size.h (length map.heights.now) y 0 map.size.w }
    requires out_len { length out.old ≡ length map.heights.now }
    ensures { out.new ≡ slide_row map.entry.size.w map.entry.size.h slide.now.thresholds map.entry.heights.now
        slide.now.strength slide.now.water y out.old }
{
    let n = inner_cells(map.size, y);
    let first = Stretch { map, y, x: 0, n: 1 };
    let inner = Stretch { map, y, x: 1, n };
    let last = Stretch {
        map,
        y,
        x: 1 + n,
        n: map.size.w - (1 + n),
    };
    slide_cells(slide, out, first);
    slide_inner_cells(slide, out, inner);
    slide_cells(slide, out, last);
}
