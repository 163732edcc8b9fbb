// Replaces discoverers by receivers, row by row, after flow.rs: the inner cells of a row in blocks, the cells on the
// sides of the map one at a time.
// The receivers stay a slice beside the map: a struct would hold them by `&mut`, to be lent anew at each call, and
// would say their length alone, since each function asks for other discoverers.
#![tactic(auto)]

ghost use Rattle.std.specs.Prelude.{ℕ, ◌+◌, ◌*◌, ◌≤◌, ◌<◌, ◌≡◌, Bool, length};
ghost use Rattle.grid.specs.Sides.{InRange};
ghost use Rattle.grid_inner.specs.Inner.{InnerRun};
ghost use Rattle.drainage.specs.Ground.{floats, ground_by};
ghost use Rattle.drainage.specs.Receivers.{receivers};
ghost use Rattle.receiver.specs.Passes.{Discoverers};
ghost use Rattle.receiver_blocks.specs.Runs.{NearDiscoverers, RunReceived};

use grid::{Map, Sides};
use grid_inner::inner_cells;
use grid_spacing::Distances;
use receiver::{DistanceTables, receiver};
use receiver_blocks::{Block, RECEIVER_BLOCK, receive_block};

// Stores the receivers of n inner cells from cell c on in the place of their discoverers, in blocks of at most 64.
fn receive_inner_cells(spill: &Map, tables: &DistanceTables, recv: &mut [u32], c: usize, n: usize)
    requires inner_run { InnerRun spill.now.size.w spill.now.size.h c n }
    requires near_discoverers { NearDiscoverers spill.now.size.w spill.now.size.h c (c + n) recv.old }
    requires recv_len { length recv.old ≡ spill.now.size.w * spill.now.size.h }
    ensures { RunReceived tables.now.distances spill.now.size.w spill.now.size.h
        spill.now.heights.now c (c + n) recv.old recv.new }
{
    for i in (0..n).step_by(RECEIVER_BLOCK) {
        let count = RECEIVER_BLOCK.min(n - i);
        let block = Block {
            spill: *spill,
            first: c + i,
            count,
        };
        receive_block(&block, tables, recv);
    }
}

// Stores the receivers of n cells of row y from column x on in the place of their discoverers, one at a time.
fn receive_cells(
    spill: &Map,
    tables: &DistanceTables,
    recv: &mut [u32],
    y: usize,
    x: usize,
    n: usize,
)
    requires in_range { InRange spill.now.size.w spill.now.size.h }
    requires y_lt_h { y < spill.now.size.h }
    requires n_bound { x + n ≤ spill.now.size.w }
    requires near_discoverers { NearDiscoverers spill.now.size.w spill.now.size.h
        (x + y * spill.now.size.w) (x + n + y * spill.now.size.w) recv.old }
    requires recv_len { length recv.old ≡ spill.now.size.w * spill.now.size.h }
    ensures { RunReceived tables.now.distances spill.now.size.w spill.now.size.h
        spill.now.heights.now (x + y * spill.now.size.w) (x + n + y * spill.now.size.w)
        recv.old recv.new }
{
    let w = spill.size.w;
    for i in x..x + n {
        let c = i + y * w;
        recv[c] = receiver(spill, tables, i, y, recv[c]);
    }
}

// Stores the receivers of row y in the place of their discoverers, from the west: of its first cell, of the inner ones,
// and of the rest.
fn receive_row(spill: &Map, tables: &DistanceTables, recv: &mut [u32], y: usize)
    requires in_range { InRange spill.now.size.w spill.now.size.h }
    requires y_lt_h { y < spill.now.size.h }
    requires near_discoverers { NearDiscoverers spill.now.size.w spill.now.size.h
        (y * spill.now.size.w) (spill.now.size.w + y * spill.now.size.w) recv.old }
    requires recv_len { length recv.old ≡ spill.now.size.w * spill.now.size.h }
    ensures { RunReceived tables.now.distances spill.now.size.w spill.now.size.h
        spill.now.heights.now (y * spill.now.size.w) (spill.now.size.w + y * spill.now.size.w)
        recv.old recv.new }
{
    let w = spill.size.w;
    let n = inner_cells(spill.size, y);
    receive_cells(spill, tables, recv, y, 0, 1);
    receive_inner_cells(spill, tables, recv, 1 + y * w, n);
    receive_cells(spill, tables, recv, y, 1 + n, w - (1 + n));
}

// Replaces the discoverer of every cell by its receiver, row by row: the steepest of the eight neighbours by spill
// height, if it is steeper than the discoverer.
pub fn steepest_receivers(g: Sides, ds: Distances, spill: &[f32], recv: &mut [u32])
    requires in_range { InRange g.w g.h }
    requires spill_len { length spill.now ≡ g.w * g.h }
    requires recv_len { length recv.old ≡ g.w * g.h }
    requires discoverers { Discoverers g.w g.h recv.old }
    ensures { (base : ℕ → Bool) → recv.new ≡ receivers floats (ground_by g.w g.h ds base)
        spill.now recv.old }
{
    let map = Map {
        size: g,
        heights: spill,
    };
    let tables = DistanceTables::new(ds);
    for y in 0..g.h {
        receive_row(&map, &tables, recv, y);
    }
}
