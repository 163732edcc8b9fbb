// Plans of whole runs: the settings converted to the working grid, as the source's thermal_plan and fluvial_plan do.
#![tactic(auto)]

ghost use Rattle.std.specs.Prelude.{◌≡◌, ◌≤◌, max};
ghost use Rattle.run_machine.specs.Plan.{scale_of, k_of, threshold_of, passes_of, slides_of, land_of, fluvial_plan};
ghost use Rattle.run_machine.specs.Plan.{thermal_params};

use drainage::{Land, square_land};
use floats::{ceil, to_count};
use fluvial_erosion::FluvialParams;
use grid::{Sides, longest};
use run_settings::{FluvialSettings, ThermalSettings};
use thermal_erosion::ThermalParams;

// The longest side of the map that settings refer to.
const REFERENCE_RES: f32 = 512.0;

// k, the factor of the incision coefficient, of strength 1 on that map.
const STRENGTH_MAX: f32 = 8.0;

// The threshold of talus 0 on that map.
const TALUS_MAX: f32 = 0.03;

// The talus strength of fluvial runs.
const TALUS_STRENGTH: f32 = 0.5;

// Returns k, the factor of the incision coefficient: 8 × strength × scale.
fn incision_k(strength: f32, scale: f32) -> f32
    ensures { result ≡ k_of strength scale }
{
    STRENGTH_MAX * strength * scale
}

// The height difference above which a neighbour receives material.
fn threshold(talus: f32, scale: f32) -> f32
    ensures { result ≡ threshold_of talus scale }
{
    let steep = 1.0 - talus;
    TALUS_MAX * (steep * steep) / scale
}

// The working grid of a run, with sides of at most 4,096.
#[derive(Clone, Copy)]
pub struct Working {
    pub sides: Sides,
    pub ghost wide: { sides.w ≤ 4096 },
    pub ghost high: { sides.h ≤ 4096 },
}

impl Working {
    pub fn on(sides: Sides) -> Working
        requires w_bound { sides.w ≤ 4096 }
        requires h_bound { sides.h ≤ 4096 }
        ensures { result.sides ≡ sides }
    {
        Working { sides }
    }

    // Working cells per cell of a reference map: the longest working side / 512.
    fn scale(self) -> f32
        ensures { result ≡ scale_of self.sides.w self.sides.h }
    {
        longest(self.sides) as f32 / REFERENCE_RES
    }

    // Returns the number of talus passes for so many iterations of a reference map: ceil(iterations × scale), at least
    // 1. A fluvial run makes those of one iteration after each incision.
    pub fn passes(self, iterations: u32) -> usize
        requires { iterations ≤ 4096 }
        ensures { result ≡ passes_of iterations (scale_of self.sides.w self.sides.h) }
    {
        to_count(ceil(iterations as f32 * self.scale()))
    }

    // Returns the parameters of talus passes.
    fn slides(self, talus: f32, strength: f32, water: f32) -> ThermalParams
        ensures { result ≡ slides_of self.sides.w self.sides.h talus strength water }
    {
        ThermalParams {
            threshold: threshold(talus, self.scale()),
            strength,
            water_level: water,
        }
    }

    // Returns the parameters of each pass of a thermal run.
    pub fn thermal_plan(self, conf: ThermalSettings) -> ThermalParams
        ensures { result ≡ thermal_params self.sides.w self.sides.h conf }
    {
        self.slides(conf.talus, conf.strength, conf.water_level)
    }

    // Returns the parameters of each incision of a fluvial run.
    pub fn fluvial_plan(self, conf: FluvialSettings) -> FluvialParams
        ensures { result ≡ (fluvial_plan self.sides.w self.sides.h conf).cuts }
    {
        FluvialParams {
            k: incision_k(conf.strength, self.scale()),
            uplift: conf.uplift,
            water_level: conf.water_level,
        }
    }

    // Returns the parameters of each talus pass after an incision: strength 0.5, so that half of the greatest excess
    // moves.
    pub fn talus_plan(self, conf: FluvialSettings) -> ThermalParams
        ensures { result ≡ (fluvial_plan self.sides.w self.sides.h conf).slides }
    {
        self.slides(conf.talus, TALUS_STRENGTH, conf.water_level)
    }
}

// The iterations of a fluvial run: 0 counts as 1.
pub fn fluvial_iterations(conf: FluvialSettings) -> usize
    ensures { result ≡ max conf.iterations 1 }
{
    conf.iterations.max(1) as usize
}

// The land of a fluvial run.
pub fn fluvial_land(conf: FluvialSettings) -> Land
    ensures { result ≡ land_of conf }
{
    square_land(conf.water_level)
}
