// Replaces the discoverers of a block of inner cells by their receivers, in three loops: the offset of each discoverer
// and the slope down to it; the offset of each steepest neighbour, with no test and no branch; the stores.
// Each loop goes by an index: it reaches into several slices, and needs the number of the cell.
#![tactic(auto)]

ghost use Rattle.std.specs.Prelude.{◌+◌, ◌-◌, ◌*◌, ◌^◌, ◌≤◌, ◌<◌, ◌≡◌, cond, ◌++◌, eqb, length, drop};
ghost use Rattle.loops.specs.Loops.{tabulate};
ghost use Rattle.grid_inner.specs.Inner.{Inner, InnerRun};
ghost use Rattle.receiver_steps.specs.Step.{Near};
ghost use Rattle.receiver_blocks.specs.Runs.{offset_from, discoverer_as, steepest_from, steepest_at, NearDiscoverers};
ghost use Rattle.receiver_blocks.specs.Runs.{Begun, Leads, Stored, RunReceived};

use grid::{DIRX, DIRY, Map, Sides};
use grid_inner::beside;
use receiver::{Best, DistanceTables, compare};
use receiver_steps::step_place;

// The cells of a block: their offsets and slopes, 512 bytes, stay in the nearest cache from one loop to the next.
pub const RECEIVER_BLOCK: usize = 64;

// A block of a map: `count` inner cells from cell `first` on, at most 64.
#[derive(Clone, Copy)]
pub struct Block<'a> {
    pub spill: Map<'a>,
    pub first: usize,
    pub count: usize,
    ghost inner: { InnerRun spill.size.w spill.size.h first count },
    ghost few: { count ≤ 64 },
}

// The offset of cell m for an inner cell c on a grid of that width: m minus the north-west neighbour of c. It has as
// many bits as a slope, so that a vector holds as many offsets as slopes.
fn offset(width: usize, c: usize, m: usize) -> u32
    requires width_bound { width ≤ 4096 }
    requires c_bound { c ≤ m + (width + 1) }
    requires m_bound { m ≤ c + (width + 1) }
    requires c_bound_2 { c < 2 ^ 24 }
    ensures { result ≡ offset_from width c m }
{
    (m + (width + 1) - c) as u32
}

// The slope from cell c down to its discoverer f.
fn discoverer_slope(spill: &Map, tables: &DistanceTables, c: usize, f: usize) -> f32
    requires near { Near spill.now.size.w c f }
    requires le_width { 3 ≤ spill.now.size.w }
    requires c_in_bounds { c < length spill.now.heights.now }
    requires f_in_bounds { f < length spill.now.heights.now }
    ensures { result
        ≡ (discoverer_as tables.now.distances spill.now.size.w spill.now.heights.now c f).slope }
{
    let place = step_place(c, f, spill.size.w);
    (spill.heights[c] - spill.heights[f]) / tables.by_place[place]
}

// Stores the offsets of the discoverers of the cells of a block, and the slopes down to them.
fn discoverer_block(
    block: &Block,
    tables: &DistanceTables,
    recv: &[u32],
    cells: &mut [u32; RECEIVER_BLOCK],
    slopes: &mut [f32; RECEIVER_BLOCK],
)
    requires near_discoverers { NearDiscoverers block.now.spill.size.w block.now.spill.size.h
        block.now.first (block.now.first + block.now.count) recv.now }
    requires recv_len { length recv.now ≡ block.now.spill.size.w * block.now.spill.size.h }
    ensures { Begun tables.now.distances block.now.spill.size.w block.now.spill.heights.now recv.now
        block.now.first block.now.count
        (record { cells = cells.old; slopes = slopes.old })
        (record { cells = cells.new; slopes = slopes.new }) }
{
    let w = block.spill.size.w;
    for i in 0..block.count {
        let c = block.first + i;
        let f = recv[c] as usize;
        slopes[i] = discoverer_slope(&block.spill, tables, c, f);
        cells[i] = offset(w, c, f);
    }
}

// Compares the neighbours of an inner cell with the receiver so far, by their offsets. Returns the offset of the
// steepest strictly lower one if it is steeper than the receiver so far, else that of the receiver so far.
fn steepest_inside(spill: &Map, by_direction: &[f32; 9], c: usize, best: Best) -> u32
    requires inner { Inner spill.now.size.w spill.now.size.h c }
    ensures { result
        ≡ (steepest_from by_direction.now spill.now.size.w spill.now.size.h spill.now.heights.now
        c best).cell }
{
    let w = spill.size.w;
    let mut b = best;
    for d in 0..8 {
        let m = beside(spill.size, c, DIRX[d + 1], DIRY[d + 1]);
        b = compare(by_direction, spill.heights, c, d + 1, m, offset(w, c, m), b);
    }
    b.cell
}

// Replaces the offsets in `cells` by those of the steepest neighbours of the cells of a block. Spill heights and
// receivers are not written in the loop, so that several cells can be worked out at a time.
fn steepest_block(
    block: &Block,
    by_direction: &[f32; 9],
    cells: &mut [u32; RECEIVER_BLOCK],
    slopes: &[f32; RECEIVER_BLOCK],
)
    ensures { cells.new ≡ tabulate block.now.count (steepest_at by_direction.now
        block.now.spill.size.w block.now.spill.size.h block.now.spill.heights.now block.now.first
        cells.old slopes.now) ++ drop block.now.count cells.old }
{
    for i in 0..block.count {
        let best = Best {
            cell: cells[i],
            slope: slopes[i],
        };
        cells[i] = steepest_inside(&block.spill, by_direction, block.first + i, best);
    }
}

// The receiver of an inner cell: the cell itself if it is its own discoverer, else the one at the offset.
fn receiver_inside(size: Sides, c: usize, f: u32, offset: u32) -> u32
    requires w_bound { size.w + 1 ≤ c + offset }
    requires offset_bound { c + offset ≤ 2 ^ 25 }
    ensures { result ≡ cond (eqb f c) f (c + offset - (size.w + 1)) }
{
    if f as usize == c {
        return f;
    }
    (c + offset as usize - (size.w + 1)) as u32
}

// Stores the receivers of the cells of a block in the place of their discoverers, by the offsets in `cells`.
fn store_block(block: &Block, recv: &mut [u32], cells: &[u32; RECEIVER_BLOCK])
    requires recv_len { length recv.old ≡ block.now.spill.size.w * block.now.spill.size.h }
    requires leads { Leads block.now.spill.size.w block.now.first block.now.count cells.now }
    ensures { Stored block.now.spill.size.w block.now.first block.now.count cells.now recv.old
        recv.new }
{
    for i in 0..block.count {
        let c = block.first + i;
        recv[c] = receiver_inside(block.spill.size, c, recv[c], cells[i]);
    }
}

// Stores the receivers of the cells of a block in the place of their discoverers.
pub fn receive_block(block: &Block, tables: &DistanceTables, recv: &mut [u32])
    requires near_discoverers { NearDiscoverers block.now.spill.size.w block.now.spill.size.h
        block.now.first (block.now.first + block.now.count) recv.old }
    requires recv_len { length recv.old ≡ block.now.spill.size.w * block.now.spill.size.h }
    ensures { RunReceived tables.now.distances block.now.spill.size.w block.now.spill.size.h
        block.now.spill.heights.now block.now.first (block.now.first + block.now.count) recv.old
        recv.new }
{
    // Two arrays, not one of `Best`: over an array of pairs the same loops take an eighth more time.
    let mut cells: [u32; RECEIVER_BLOCK] = [0; RECEIVER_BLOCK];
    let mut slopes: [f32; RECEIVER_BLOCK] = [0.0; RECEIVER_BLOCK];
    discoverer_block(block, tables, recv, &mut cells, &mut slopes);
    steepest_block(block, &tables.by_direction, &mut cells, &slopes);
    store_block(block, recv, &cells);
}
