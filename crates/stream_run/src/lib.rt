// Runs a stream of document 01: input bytes to the output bytes of `relief`.
#![tactic(auto)]

ghost use Rattle.std.specs.Prelude.{◌≡◌, true, [], ◌*◌, length};
ghost use Rattle.run_machine.specs.Run.{ours, run_by, thermal_run};
ghost use Rattle.run_settings.specs.Refusals.{bad_fluvial, bad_thermal};
ghost use Rattle.run_settings.specs.Accepted.{AcceptedRun};
ghost use Rattle.answers.specs.Outcome.{gives};
ghost use Rattle.run_parts.specs.Ending.{ended_with, ran_to, refused_to};
ghost use Rattle.stream_rows.specs.Rows.{heights_at};
ghost use Rattle.stream.specs.Stream.{parsed_of, bad_settings, read_stream};
ghost use Rattle.stream_output.specs.Output.{Wrote};
ghost use Rattle.stream_run.specs.StreamRun.{asked_run, AcceptedStream, Relief};

use answers::{Refusal, RunAnswer};
use fluvial_run::gen_fluvial_erosion;
use grid::Sides;
use run_parts::refused;
use run_settings::{FluvialSettings, ThermalSettings};
use stream::{CELLS_MAX, Header, Settings, read_stream};
use stream_output::write_output;
use stream_rows::Rows;
use thermal_run::gen_thermal_erosion;

// A fluvial run that is not refused, of at most 4,096 cells, on scratch for as many.
fn run_fluvial(size: Sides, map: &mut [f32], conf: FluvialSettings, stop: u32) -> RunAnswer
    requires { AcceptedRun size.w size.h (bad_fluvial conf) map.old 4096 }
    ensures { ended_with result map.new
        ≡ ran_to (run_by size.w size.h conf stop ours map.old) }
{
    let mut small = [0.0; CELLS_MAX];
    let mut eroded = [0.0; CELLS_MAX];
    let mut copy = [0.0; CELLS_MAX];
    let mut area = [0.0; CELLS_MAX];
    let mut order = [0; CELLS_MAX];
    let mut recv = [0; CELLS_MAX];
    let mut queue = [0; CELLS_MAX];
    let mut status = [0; CELLS_MAX];
    gen_fluvial_erosion(
        size,
        map,
        conf,
        stop,
        &mut small,
        &mut eroded,
        &mut copy,
        &mut area,
        &mut order,
        &mut recv,
        &mut queue,
        &mut status,
    )
}

// A thermal run that is not refused, of at most 4,096 cells, on scratch for as many.
fn run_thermal(size: Sides, map: &mut [f32], conf: ThermalSettings, stop: u32) -> RunAnswer
    requires { AcceptedRun size.w size.h (bad_thermal conf) map.old 4096 }
    ensures { ended_with result map.new
        ≡ ran_to (thermal_run size.w size.h conf stop map.old) }
{
    let mut small = [0.0; CELLS_MAX];
    let mut eroded = [0.0; CELLS_MAX];
    let mut copy = [0.0; CELLS_MAX];
    gen_thermal_erosion(size, map, conf, stop, &mut small, &mut eroded, &mut copy)
}

// The run that a stream asks for, on a map that is not refused.
fn run_asked(head: Header, map: &mut [f32]) -> RunAnswer
    requires { AcceptedRun head.size.w head.size.h (bad_settings head.settings) map.old 4096 }
    ensures { ended_with result map.new ≡ ran_to (asked_run head map.old) }
{
    let size = head.size;
    let stop = head.stop;
    let settings = head.settings;
    match settings {
        Settings::Fluvial(s) => run_fluvial(size, map, s, stop),
        Settings::Thermal(s) => run_thermal(size, map, s, stop),
    }
}

// Runs an accepted stream on a map of exactly its cells. What the map holds before does not matter: the heights of the
// stream are written over it.
fn run_stream(bytes: &[u8], head: Header, map: &mut [f32]) -> RunAnswer
    requires accepted_stream { AcceptedStream bytes.now head }
    requires map_len { length map.old ≡ head.size.w * head.size.h }
    ensures { ended_with result map.new
        ≡ ran_to (asked_run head (heights_at bytes.now head.rows head.size.w head.size.h)) }
{
    let size = head.size;
    let rows = head.rows;
    Rows {
        bytes,
        at: rows,
        size,
    }
    .load(map);
    run_asked(head, map)
}

// Writes the output of an accepted stream, run on a map of its own.
fn write_run(bytes: &[u8], head: Header, out: &mut [u8]) -> Result<usize, Refusal>
    requires { gives (parsed_of bytes.now head) ≡ read_stream true bytes.now }
    ensures { Relief bytes.now out.old result out.new }
{
    let size = head.size;
    let n = size.w * size.h;
    let mut map = [0.0; CELLS_MAX];
    let run = run_stream(bytes, head, &mut map[..n]);
    write_output(size, &map[..n], run, out)
}

// Writes the output of a refused stream: the end record alone.
fn write_refusal(why: Refusal, out: &mut [u8]) -> Result<usize, Refusal>
    ensures { Wrote 0 0 [] (refused_to why) out.old result out.new }
{
    write_output(Sides { w: 0, h: 0 }, &[], refused(why), out)
}

// Input bytes to output bytes: what the program `relief` does.
pub fn relief(bytes: &[u8], out: &mut [u8]) -> Result<usize, Refusal>
    ensures { Relief bytes.now out.old result out.new }
{
    let read = read_stream(true, bytes);
    match read {
        Ok(head) => write_run(bytes, head, out),
        Err(why) => write_refusal(why, out),
    }
}
