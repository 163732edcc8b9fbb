// The rate of an incision: its coefficient before the division by the distance. Areas are whole numbers and most of
// them are small, so the rates of the small ones are worked out once for each incision and read from a table.
#![tactic(auto)]

ghost use Rattle.std.specs.Prelude.{◌≡◌, ◌/◌, ◌^◌, min, ◌≤◌};
ghost use Rattle.floats.specs.Stand.{whole};
ghost use Rattle.incision_rates.specs.Rate.{rate_of, rates_of};

use floats::max;
use square_root::root_of;

// The share of the map below which an area counts as that share.
const HILLSLOPE_AREA: f32 = 0.0001;

// Returns the rate of a cell that drains `area` cells out of `n_cells`; an area below 1e-4 × n_cells counts as 1e-4 ×
// n_cells.
pub fn rate(area: f32, n_cells: f32, k: f32) -> f32
    ensures { result ≡ rate_of area n_cells k }
{
    k * root_of(max(area, HILLSLOPE_AREA * n_cells) / n_cells)
}

// The most entries of a table of rates: 4 KB of it stay in the nearest cache.
pub const RATES: usize = 1024;

// Returns how many whole areas, from 0 on, the table of a grid of n cells has: n / 64, at most 1,024, so that filling
// it costs little.
pub fn table_size(n: usize) -> usize
    ensures { result ≡ min (n / 64) 1024 }
{
    (n / 64).min(RATES)
}

// The rates on a grid of `cells` cells with the coefficient k: those of the whole areas below `size` in a table, the
// others worked out.
#[derive(Drop)]
pub struct Rates {
    pub size: usize,
    pub cells: f32,
    pub k: f32,
    pub table: [f32; RATES],
    pub ghost few: { size ≤ 1024 },
    pub ghost made: { table ≡ rates_of size cells k },
}

impl Rates {
    pub fn new(size: usize, cells: f32, k: f32) -> Self
        requires { size ≤ 1024 }
        ensures size_kept { result.size ≡ size }
        ensures cells_kept { result.cells ≡ cells }
        ensures k_kept { result.k ≡ k }
    {
        let mut table: [f32; RATES] = [0.0; RATES];
        // By index: an area is the place of its rate.
        for i in 0..size {
            table[i] = rate(i as f32, cells, k);
        }
        Rates {
            size,
            cells,
            k,
            table,
        }
    }

    // The rate of the whole area i.
    pub fn of(&self, i: usize) -> f32
        requires { i ≤ 2 ^ 24 }
        ensures { result ≡ rate_of (whole i) self.now.cells self.now.k }
    {
        if i < self.size {
            return self.table[i];
        }
        rate(i as f32, self.cells, self.k)
    }
}
