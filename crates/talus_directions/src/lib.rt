// Losses and gains of blocks of inner cells in a talus pass: one direction after the other is done for all cells of a
// block, with no test and no branch. A height still gets its losses and gains in the order of the cells.
#![tactic(auto)]

ghost use Rattle.std.specs.Prelude.{◌≡◌, ◌<◌, ◌≤◌, length};
ghost use Rattle.talus_directions.specs.Parts.{InnerRow, lost_from, gained_by, losses, gains_toward, slide_all};

use grid::{DIRX, DIRY};
use grid_inner::beside;
use talus::{Slide, Stretch, excess};

// The cells of a block: their totals and losses, 512 bytes, stay in the nearest cache while all directions are done.
pub const TALUS_BLOCK: usize = 64;

// At most 64 inner cells of a row.
#[derive(Clone, Copy)]
pub struct Block<'a> {
    pub cells: Stretch<'a>,
    ghost inner: { InnerRow cells.map.size.w cells.map.size.h (length cells.map.heights.now) cells.y cells.x cells.n },
    ghost few: { cells.n ≤ 64 },
}

// What the cells of a block shed, the first from the front: the totals of their excesses, and their losses. Two arrays,
// not one of pairs: the count of the cells that shed reads the totals alone, and `losses` and `slide_all` take two
// lists. Lent, not held: two arrays in one value are zeroed by a call of the C library, with which a pass takes a sixth
// more time than with two that lie apart.
#[derive(Clone, Copy)]
pub struct BlockSheds<'a> {
    pub totals: &'a [f32; TALUS_BLOCK],
    pub moved: &'a [f32; TALUS_BLOCK],
}

// Returns the height `old` less `moved` if its cell sheds, else `old`. A select, not a branch.
fn lost(total: f32, moved: f32, old: f32) -> f32
    ensures { result ≡ lost_from total moved old }
{
    let new = old - moved;
    if total <= 0.0 { old } else { new }
}

// Returns the height `old` with its gain if the cell sheds and the excess e is counted, else `old`. The sum is computed
// before the tests: selects, not branches. Adding 0 in place of the second test would turn -0 into 0.
fn gained(e: f32, total: f32, moved: f32, old: f32) -> f32
    ensures { result ≡ gained_by e total moved old }
{
    let new = old + moved * e / total;
    if total <= 0.0 {
        return old;
    }
    if e > 0.0 { new } else { old }
}

// Takes the losses of the cells of a block off their heights in `out`.
fn lose_block(out: &mut [f32], block: Block, sheds: BlockSheds)
    requires { length out.old ≡ length block.cells.map.heights.now }
    ensures { let b = block.entry.cells in
        out.new ≡ losses b.map.size.w b.y b.x sheds.entry.totals.now sheds.entry.moved.now b.n out.old }
{
    let cells = block.cells;
    for i in 0..cells.n {
        let c = cells.cell(i).c;
        out[c] = lost(sheds.totals[i], sheds.moved[i], out[c]);
    }
}

// Adds the gains of the neighbours in direction d of the cells of a block to their heights in `out`.
fn gain_block(slide: &Slide, out: &mut [f32], block: Block, d: usize, sheds: BlockSheds)
    requires out_len { length out.old ≡ length block.cells.map.heights.now }
    requires le_d { 1 ≤ d }
    requires d_bound { d < 9 }
    ensures { let b = block.entry.cells in
        out.new ≡ gains_toward b.map.size.w b.map.size.h slide.now.thresholds b.map.heights.now b.y b.x
        sheds.entry.totals.now sheds.entry.moved.now d b.n out.old }
{
    let cells = block.cells;
    let hmap = cells.map.heights;
    let t = slide.thresholds[d];
    let dx = DIRX[d];
    let dy = DIRY[d];
    for i in 0..cells.n {
        let c = cells.cell(i).c;
        let m = beside(cells.map.size, c, dx, dy);
        let e = excess(hmap, c, m, t);
        out[m] = gained(e, sheds.totals[i], sheds.moved[i], out[m]);
    }
}

// Slides the cells of a block, direction by direction. A height of the row above gets the gain from the cell south-west
// of it first, then from the south and the south-east, in the order of the cells. The same holds in the cells' own row,
// with the loss between, and in the row below. No loop over the nine: the loss is a step of another kind among them.
pub fn slide_directions(slide: &Slide, out: &mut [f32], block: Block, sheds: BlockSheds)
    requires { length out.old ≡ length block.cells.map.heights.now }
    ensures { let b = block.entry.cells in
        out.new ≡ slide_all b.map.size.w b.map.size.h slide.now.thresholds b.map.heights.now b.y b.x
        sheds.entry.totals.now sheds.entry.moved.now b.n out.old }
{
    gain_block(slide, out, block, 3, sheds);
    gain_block(slide, out, block, 2, sheds);
    gain_block(slide, out, block, 1, sheds);
    gain_block(slide, out, block, 5, sheds);
    lose_block(out, block, sheds);
    gain_block(slide, out, block, 4, sheds);
    gain_block(slide, out, block, 8, sheds);
    gain_block(slide, out, block, 7, sheds);
    gain_block(slide, out, block, 6, sheds);
}
