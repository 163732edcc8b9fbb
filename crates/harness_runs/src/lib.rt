// Whole runs by the C convention, for the oracle's bench and comparison: a slice passes as pointer and length, an
// answer is one u64 (specs/Exported.antt). No part of the public calls.
#![tactic(auto)]

ghost use Rattle.std.specs.Prelude.{◌≡◌};
ghost use Rattle.thermal_run.specs.ThermalRun.{ThermalRun};
ghost use Rattle.fluvial_run.specs.FluvialRun.{FluvialRun};
ghost use Rattle.harness_runs.specs.Exported.{ExportedRun, end_word};

use answers::{RunAnswer, answer_number, answer_place};
use grid::Sides;
use run_settings::{FluvialSettings, ThermalSettings};

// The end of a run in one word.
fn ended(r: RunAnswer) -> u64
    ensures { result ≡ end_word r.answer r.incisions r.passes r.questions }
{
    let answer = r.answer;
    let high = answer_number(answer) % 0x1_0000 * 0x1_0000 + r.incisions % 0x1_0000;
    let counts = r.passes % 0x1_0000 * 0x1_0000 + r.questions % 0x1_0000;
    let low = (answer_place(answer) % 0x1_0000_0000 + counts as usize) % 0x1_0000_0000;
    high as u64 * 0x1_0000_0000 + low as u64
}

// A whole thermal run.
#[unsafe(no_mangle)]
pub extern "C" fn harness_thermal_run(
    w: usize,
    h: usize,
    hmap: &mut [f32],
    water_level: f32,
    talus: f32,
    strength: f32,
    iterations: u32,
    work_res: u32,
    stop: u32,
    small: &mut [f32],
    eroded: &mut [f32],
    copy: &mut [f32],
) -> u64
    ensures { ExportedRun (λ a. ThermalRun w h (record {
      water_level = water_level;
      talus = talus;
      strength = strength;
      iterations = iterations;
      work_res = work_res;
    }) stop hmap.old
        (record { small = small.old; eroded = eroded.old; copy = copy.old }) a
        hmap.new
        (record { small = small.new; eroded = eroded.new; copy = copy.new })) result }
{
    let size = Sides { w, h };
    let conf = ThermalSettings {
        water_level,
        talus,
        strength,
        iterations,
        work_res,
    };
    ended(thermal_run::gen_thermal_erosion(size, hmap, conf, stop, small, eroded, copy))
}

// A whole fluvial run.
#[unsafe(no_mangle)]
pub extern "C" fn harness_fluvial_run(
    w: usize,
    h: usize,
    hmap: &mut [f32],
    water_level: f32,
    strength: f32,
    talus: f32,
    uplift: f32,
    iterations: u32,
    work_res: u32,
    stop: u32,
    small: &mut [f32],
    eroded: &mut [f32],
    copy: &mut [f32],
    area: &mut [f32],
    order: &mut [u32],
    recv: &mut [u32],
    queue: &mut [u32],
    status: &mut [u8],
) -> u64
    ensures { ExportedRun (λ a. FluvialRun w h (record {
      water_level = water_level;
      strength = strength;
      talus = talus;
      uplift = uplift;
      iterations = iterations;
      work_res = work_res;
    }) stop hmap.old
        (record {
          small = small.old;
          eroded = eroded.old;
          copy = copy.old;
          area = area.old;
          order = order.old;
          recv = recv.old;
          queue = queue.old;
          status = status.old;
        }) a hmap.new
        (record {
          small = small.new;
          eroded = eroded.new;
          copy = copy.new;
          area = area.new;
          order = order.new;
          recv = recv.new;
          queue = queue.new;
          status = status.new;
        })) result }
{
    let size = Sides { w, h };
    let conf = FluvialSettings {
        water_level,
        strength,
        talus,
        uplift,
        iterations,
        work_res,
    };
    ended(fluvial_run::gen_fluvial_erosion(
        size, hmap, conf, stop, small, eroded, copy, area, order, recv, queue, status,
    ))
}
