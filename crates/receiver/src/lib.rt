// The receiver of one cell, after flow.rs: its discoverer, or the neighbour of a strictly lower spill height down to
// which the slope is the greatest.
#![tactic(auto)]

ghost use Rattle.std.specs.Prelude.{◌*◌, ◌^◌, ◌≤◌, ◌<◌, ◌≡◌, length};
ghost use Rattle.grid.specs.Sides.{cell_of};
ghost use Rattle.grid.specs.Directions.{Place, Adjacent};
ghost use Rattle.grid_spacing.specs.Distances.{nine_of};
ghost use Rattle.receiver_steps.specs.Step.{place_distances};
ghost use Rattle.receiver.specs.Passes.{compared_as, Compared, Received};

use grid::{DIRX, DIRY, Map, neighbour};
use grid_spacing::{Distances, direction_distances};
use receiver_steps::{place_distances, receiver_distance};

// Distances to neighbours, and the tables of them that the loops read: by the place of a step and by its direction.
#[derive(Clone, Copy)]
pub struct DistanceTables {
    pub distances: Distances,
    pub by_place: [f32; 5],
    pub by_direction: [f32; 9],
    ghost placed: { by_place ≡ place_distances distances },
    ghost directed: { by_direction ≡ nine_of distances },
}

impl DistanceTables {
    // The tables of these distances.
    pub fn new(distances: Distances) -> Self
        ensures { result.distances ≡ distances }
    {
        DistanceTables {
            distances,
            by_place: place_distances(distances),
            by_direction: direction_distances(distances),
        }
    }
}

// The receiver of a cell so far, by its number or its offset, and the slope down to it.
#[derive(Clone, Copy)]
pub struct Best {
    pub cell: u32,
    pub slope: f32,
}

// Compares neighbour m of cell c, in direction d, with the receiver so far. Returns m, by `cell`, with its slope if its
// spill height is strictly lower and its slope strictly greater; else the receiver so far. Both tests are made before
// the choice: a select, not a branch.
pub fn compare(
    by_direction: &[f32; 9],
    spill: &[f32],
    c: usize,
    d: usize,
    m: usize,
    cell: u32,
    best: Best,
) -> Best
    requires c_in_bounds { c < length spill.now }
    requires m_in_bounds { m < length spill.now }
    requires d_bound { d < 9 }
    ensures { result ≡ compared_as by_direction.now spill.now c d m cell best }
{
    let from = spill[c];
    let to = spill[m];
    let slope = (from - to) / by_direction[d];
    let steeper = (to < from) & (slope > best.slope);
    if steeper { Best { cell, slope } } else { best }
}

// Compares m, the neighbour of any cell c in direction d, with the receiver so far, as `compare` does. Returns the
// receiver so far where m lies outside the grid.
fn compare_toward(
    spill: &Map,
    tables: &DistanceTables,
    c: usize,
    d: usize,
    m: usize,
    best: Best,
) -> Best
    requires h_bound { spill.now.size.w * spill.now.size.h ≤ 2 ^ 24 }
    requires c_bound { c < spill.now.size.w * spill.now.size.h }
    requires d_bound { d < 9 }
    ensures { Compared tables.now.distances spill.now.size.w spill.now.size.h spill.now.heights.now
        c d m best result }
{
    if spill.heights.len() <= m {
        return best;
    }
    compare(&tables.by_direction, spill.heights, c, d, m, m as u32, best)
}

// The receiver of column x, row y, whose discoverer is f: the steepest strictly lower neighbour if it is steeper than
// f, else f; a base cell is its own receiver.
pub fn receiver(spill: &Map, tables: &DistanceTables, x: usize, y: usize, f: u32) -> u32
    requires place { Place spill.now.size.w spill.now.size.h x y }
    requires adjacent { (f ≡ cell_of spill.now.size.w x y → ⊥)
        → Adjacent spill.now.size.w spill.now.size.h (cell_of spill.now.size.w x y) f }
    ensures { Received tables.now.distances spill.now.size.w spill.now.size.h spill.now.heights.now
        (cell_of spill.now.size.w x y) f result }
{
    let w = spill.size.w;
    let c = x + y * w;
    let found = f as usize;
    if found == c {
        return f;
    }
    let down = spill.heights[c] - spill.heights[found];
    let mut best = Best {
        cell: f,
        slope: down / receiver_distance(c, found, w, tables.distances),
    };
    for d in 0..8 {
        let m = neighbour(spill.size, x, y, DIRX[d + 1], DIRY[d + 1]);
        best = compare_toward(spill, tables, c, d + 1, m, best);
    }
    best.cell
}
