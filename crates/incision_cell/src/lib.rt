// The incision of one cell: lowered toward the height that it drains to, by its area and its receiver, or by the word
// that holds both.
#![tactic(auto)]

ghost use Rattle.std.specs.Prelude.{◌≡◌, ◌≤◌, ◌<◌, length, get_or, set};
ghost use Rattle.std.specs.Float.{nan};
ghost use Rattle.receiver_steps.specs.Step.{step_distances};
ghost use Rattle.areas.specs.Words.{receiver_in, Passing};
ghost use Rattle.incision_cell.specs.Cut.{drained_to, cut_of, cut_down, cut_by_word, CellOf};

use floats::max;
use grid_spacing::Distances;
use incision_rates::{Rates, rate, table_size};
use receiver_steps::{Steps, receiver_distance, step_distances};

// An incision on its grid: the columns, the number of cells as a float, the settings, and the distances to neighbours.
#[derive(Clone, Copy)]
pub struct Incision {
    pub width: usize,
    pub cells: f32,
    pub k: f32,
    pub uplift: f32,
    pub water: f32,
    pub distances: Distances,
}

// Returns the height that cell c drains to: the water level if its receiver r is c itself, else the greater of `below`,
// the height of r, and the water level.
fn drains_to(c: usize, r: usize, below: f32, water: f32) -> f32
    ensures { result ≡ drained_to c r below water }
{
    if r == c {
        return water;
    }
    max(below, water)
}

// Returns the height of a cell after its incision toward the height `down`. A cell at or below the water level keeps
// its height.
fn cut(height: f32, uplift: f32, water: f32, coef: f32, down: f32) -> f32
    ensures { result ≡ cut_of height uplift water coef down }
{
    if height <= water {
        return height;
    }
    (height + uplift + coef * down) / (1.0 + coef)
}

// Incises cell c in `out`, from its own height and its receiver's as they stand there.
pub fn incise_cell(by: Incision, area: &[f32], recv: &[u32], out: &mut [f32], c: usize)
    requires cell_of { CellOf area.now recv.now out.old c }
    requires width_nonzero { 0 < by.width }
    ensures { out.new ≡ set out.old c (cut_down by area.now recv.now c
        (get_or out.old c nan) (get_or out.old (get_or recv.now c 0) nan)) }
{
    let r = recv[c] as usize;
    let ds = by.distances;
    let coef = rate(area[c], by.cells, by.k) / receiver_distance(c, r, by.width, ds);
    let down = drains_to(c, r, out[r], by.water);
    out[c] = cut(out[c], by.uplift, by.water, coef, down);
}

// Returns the height of cell c, which had `height`, after its incision by `coef` toward its receiver r, which has the
// height `below`.
fn incised(by: Incision, c: usize, r: usize, height: f32, below: f32, coef: f32) -> f32
    ensures { result ≡ cut_of height by.uplift by.water coef (drained_to c r below by.water) }
{
    let down = drains_to(c, r, below, by.water);
    cut(height, by.uplift, by.water, coef, down)
}

// An incision with what it reads for each cell: the distances of steps, the cells that they lead to, and the rates.
#[derive(Drop)]
pub struct IncisionTables {
    pub by: Incision,
    pub distances: [f32; 16],
    pub steps: Steps,
    pub rates: Rates,
    pub ghost distances_made: { distances ≡ step_distances by.distances },
    pub ghost steps_made: { steps.width ≡ by.width },
    pub ghost cells_kept: { rates.cells ≡ by.cells },
    pub ghost k_kept: { rates.k ≡ by.k },
}

impl IncisionTables {
    // The tables of an incision on a grid of n cells.
    pub fn new(by: Incision, n: usize) -> Self
        requires { by.width ≤ 4096 }
        ensures { result.by ≡ by }
    {
        IncisionTables {
            by,
            distances: step_distances(by.distances),
            steps: Steps::new(by.width),
            rates: Rates::new(table_size(n), by.cells, by.k),
        }
    }

    // Writes the incised height of cell c to `out`, from `height`, the area and the step in its word, and its
    // receiver's height in `out`.
    pub fn settle_cell(&self, words: &[f32], out: &mut [f32], c: usize, height: f32)
        requires passing { Passing self.now.by.width words.now c }
        requires out_len { length out.old ≡ length words.now }
        ensures { out.new ≡ set out.old c (cut_by_word self.now.by words.now c height
            (get_or out.old (receiver_in self.now.by.width c words.now) nan)) }
    {
        let word = f32::to_bits(words[c]);
        let step = (word % 16) as usize;
        let below = self.steps.leads_to(c, step);
        let coef = self.rates.of((word / 16) as usize) / self.distances[step];
        out[c] = incised(self.by, c, below, height, out[below], coef);
    }
}
