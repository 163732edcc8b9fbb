// The stream of document 01, read: bytes to the run that they ask for, or to a refusal (specs/Stream.antt).
#![tactic(auto)]

ghost use Rattle.std.specs.Prelude.{◌≡◌, ◌&&◌, ◌*◌, ◌≤◌, ltb, length};
ghost use Rattle.grid.specs.Sides.{InRange};
ghost use Rattle.stream_bytes.specs.Bytes.{mark_at};
ghost use Rattle.stream_rows.specs.Rows.{Framed};
ghost use Rattle.stream.specs.Stream.{sides_at, settings_length, settings_at, Recorded, header_at, parsed_of, bad_grid};
ghost use Rattle.stream.specs.Stream.{bad_rest, bad_settings, Whole, fluvial_at, thermal_at, values_of, read_stream};
ghost use Rattle.stream.specs.Stream.{read_of};

use answers::Refusal;
use grid::{Sides, bad_sides};
use run_settings::{FluvialSettings, ThermalSettings, bad_fluvial, bad_thermal};
use stream_bytes::{has_mark, read_f32, read_u16, read_u32};
use stream_rows::{Rows, rows_length};

// The marks of the records other than rows.
pub const GRID: [u8; 2] = *b"GR";

const FLUVIAL: [u8; 2] = *b"FL";

const THERMAL: [u8; 2] = *b"TH";

pub const END: [u8; 2] = *b"EN";

// The kind of run, with its settings.
#[derive(Clone, Copy)]
pub enum Settings {
    Fluvial(FluvialSettings),
    Thermal(ThermalSettings),
}

// What a stream says before its rows, and the place where these begin.
#[derive(Clone, Copy)]
pub struct Header {
    pub size: Sides,
    pub settings: Settings,
    pub stop: u32,
    pub rows: usize,
}

// Refusal 8 of the grid record: another mark, or fewer than its 6 bytes.
fn bad_grid(bytes: &[u8]) -> bool
    ensures { result ≡ bad_grid bytes.now }
{
    bytes.len() < 6 || !has_mark(bytes, 0, &GRID)
}

// The sides that the grid record gives.
fn sides(bytes: &[u8]) -> Sides
    requires { 6 ≤ length bytes.now }
    ensures { result ≡ sides_at bytes.now }
{
    Sides {
        w: read_u16(bytes, 2) as usize,
        h: read_u16(bytes, 4) as usize,
    }
}

// How many bytes of values follow the mark of the settings record; 0, as the definition has it, for any other mark.
fn settings_length(bytes: &[u8]) -> usize
    ensures { result ≡ settings_length (mark_at bytes.now 6) }
{
    if has_mark(bytes, 6, &FLUVIAL) {
        return 28;
    }
    if has_mark(bytes, 6, &THERMAL) {
        return 24;
    }
    0
}

// Refusal 8 of the rest: a settings record with another mark, an early end or bytes left over, or a row with another
// mark.
fn bad_rest(bytes: &[u8], size: Sides) -> bool
    requires { InRange size.w size.h }
    ensures { result ≡ bad_rest bytes.now size.w size.h }
{
    let settings = settings_length(bytes);
    if settings == 0 {
        return true;
    }
    let rows = 8 + settings;
    bytes.len() != rows + rows_length(size)
        || !Rows {
            bytes,
            at: rows,
            size,
        }
        .rows_marked()
}

// The values of a fluvial settings record.
fn read_fluvial(bytes: &[u8]) -> FluvialSettings
    requires { 32 ≤ length bytes.now }
    ensures { result ≡ fluvial_at bytes.now }
{
    FluvialSettings {
        water_level: read_f32(bytes, 8),
        strength: read_f32(bytes, 12),
        talus: read_f32(bytes, 16),
        uplift: read_f32(bytes, 20),
        iterations: read_u32(bytes, 24),
        work_res: read_u32(bytes, 28),
    }
}

// The values of a thermal settings record.
fn read_thermal(bytes: &[u8]) -> ThermalSettings
    requires { 28 ≤ length bytes.now }
    ensures { result ≡ thermal_at bytes.now }
{
    ThermalSettings {
        water_level: read_f32(bytes, 8),
        talus: read_f32(bytes, 12),
        strength: read_f32(bytes, 16),
        iterations: read_u32(bytes, 20),
        work_res: read_u32(bytes, 24),
    }
}

// The settings of the kind of run that the mark says.
fn read_settings(bytes: &[u8]) -> Settings
    requires { Recorded bytes.now }
    ensures { result ≡ settings_at bytes.now }
{
    if has_mark(bytes, 6, &FLUVIAL) {
        return Settings::Fluvial(read_fluvial(bytes));
    }
    Settings::Thermal(read_thermal(bytes))
}

// Returns what the grid and settings records say, of a stream that is not refused by 8.
fn read_header(bytes: &[u8], size: Sides) -> Header
    requires size_value { size ≡ sides_at bytes.now }
    requires whole { Whole bytes.now size.w size.h }
    ensures { result ≡ header_at bytes.now }
{
    let rows = 8 + settings_length(bytes);
    Header {
        size: size,
        settings: read_settings(bytes),
        stop: read_u32(bytes, rows - 4),
        rows: rows,
    }
}

// Refusal 4: a setting outside its range.
fn bad_settings(settings: Settings) -> bool
    ensures { result ≡ bad_settings settings }
{
    match settings {
        Settings::Fluvial(s) => bad_fluvial(s),
        Settings::Thermal(s) => bad_thermal(s),
    }
}

// The most cells that the program takes.
pub const CELLS_MAX: usize = 4096;

// Refusal 9: whether the grid has more than the 4,096 cells that the program takes; false where `limited` is.
fn too_many(limited: bool, size: Sides) -> bool
    requires { InRange size.w size.h }
    ensures { result ≡ (limited && ltb 4096 (size.w * size.h)) }
{
    limited && size.w * size.h > CELLS_MAX
}

// Checks a stream that is not refused by 8 for refusals 4 and 5. Returns its header, or the refusal.
fn checked(bytes: &[u8], head: Header) -> Result<Header, Refusal>
    requires { Framed bytes.now head.rows head.size.w head.size.h }
    ensures { read_of bytes.now result ≡ values_of (parsed_of bytes.now head) }
{
    let settings = head.settings;
    if bad_settings(settings) {
        return Err(Refusal::Setting);
    }
    let size = head.size;
    let rows = head.rows;
    if let Some(cell) = (Rows {
        bytes,
        at: rows,
        size,
    })
    .first_bad_height()
    {
        return Err(Refusal::Height(cell));
    }
    Ok(head)
}

// Reads a stream, for `relief` and for the stream check, which leaves 9 out: there `limited`, an argument of the
// definition, is false. Returns the header, or the first refusal in the order of document 01.
pub fn read_stream(limited: bool, bytes: &[u8]) -> Result<Header, Refusal>
    ensures { read_of bytes.now result ≡ read_stream limited bytes.now }
{
    if bad_grid(bytes) {
        return Err(Refusal::Stream);
    }
    let size = sides(bytes);
    if bad_sides(size) {
        return Err(Refusal::Side);
    }
    if too_many(limited, size) {
        return Err(Refusal::Cells);
    }
    if bad_rest(bytes, size) {
        return Err(Refusal::Stream);
    }
    checked(bytes, read_header(bytes, size))
}
