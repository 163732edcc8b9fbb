// The drainage network of a height grid, as definitions and theorems: the flood, receivers, ways down, drainage areas,
// work lists and chains to base level. The crates from flood_start to flow compute what specs/ defines. `Land` is here,
// since definitions and code share it.
#![tactic(auto)]

ghost use Rattle.std.specs.Prelude.{◌≡◌};
ghost use Rattle.drainage.specs.Ground.{square_land};

use grid::{OpenSides, all_open};
use grid_spacing::{Distances, square_distances};

// What a routing takes besides the heights: the water level, the open sides, and the distances to neighbours.
#[derive(Clone, Copy)]
pub struct Land {
    pub water_level: f32,
    pub sides: OpenSides,
    pub distances: Distances,
}

// The land of document 01: four open sides and square cells.
pub fn square_land(water_level: f32) -> Land
    ensures { result ≡ square_land water_level }
{
    Land {
        water_level: water_level,
        sides: all_open(),
        distances: square_distances(),
    }
}
