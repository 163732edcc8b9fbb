// The settings of whole runs, their ranges, and what a whole run refuses.
#![tactic(auto)]

ghost use Rattle.std.specs.Prelude.{◌≡◌};
ghost use Rattle.answers.specs.Outcome.{answer_of};
ghost use Rattle.run_settings.specs.Refusals.{bad_either, bad_fluvial, bad_thermal};
ghost use Rattle.run_settings.specs.Accepted.{refusal_on};

use answers::{Refusal, outside};
use floats::is_finite;
use grid::{Sides, bad_sides, first_not_finite};

// The settings of gen_fluvial_erosion: the source's FluvialErosionConf with the water level.
#[derive(Clone, Copy)]
pub struct FluvialSettings {
    pub water_level: f32,
    pub strength: f32,
    pub talus: f32,
    pub uplift: f32,
    pub iterations: u32,
    pub work_res: u32,
}

// The settings of gen_thermal_erosion: the source's ThermalErosionConf with the water level.
#[derive(Clone, Copy)]
pub struct ThermalSettings {
    pub water_level: f32,
    pub talus: f32,
    pub strength: f32,
    pub iterations: u32,
    pub work_res: u32,
}

// Document 01's most iterations.
const ITERATIONS_MAX: u32 = 4096;

// Refusal 4 of either run.
fn bad_either(water: f32, strength: f32, talus: f32, iterations: u32) -> bool
    ensures { result ≡ bad_either water strength talus iterations }
{
    !is_finite(water)
        || outside(strength, 0.0, 1.0)
        || outside(talus, 0.0, 1.0)
        || iterations > ITERATIONS_MAX
}

// Refusal 4 of a thermal run.
pub fn bad_thermal(conf: ThermalSettings) -> bool
    ensures { result ≡ bad_thermal conf }
{
    bad_either(conf.water_level, conf.strength, conf.talus, conf.iterations)
}

// Refusal 4 of a fluvial run.
pub fn bad_fluvial(conf: FluvialSettings) -> bool
    ensures { result ≡ bad_fluvial conf }
{
    outside(conf.uplift, -1.0, 1.0)
        || bad_either(conf.water_level, conf.strength, conf.talus, conf.iterations)
}

// Returns the first refusal of a whole run in number order, if there is one. `bad`, an argument of the definition, says
// whether a setting is outside its range; `scratch` is the length of the shortest scratch slice.
pub fn refusal(size: Sides, hmap: &[f32], bad: bool, scratch: usize) -> Result<(), Refusal>
    ensures { answer_of result ≡ refusal_on size.w size.h bad hmap.now scratch }
{
    if bad_sides(size) {
        return Err(Refusal::Side);
    }
    let n = size.w * size.h;
    if hmap.len() != n || scratch < n {
        return Err(Refusal::Length);
    }
    if bad {
        return Err(Refusal::Setting);
    }
    if let Some(cell) = first_not_finite(size, hmap) {
        return Err(Refusal::Height(cell));
    }
    Ok(())
}
