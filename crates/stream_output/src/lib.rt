// The output of document 01's stream: an answer and the map as bytes.
#![tactic(auto)]

ghost use Rattle.std.specs.Prelude.{◌≡◌, ◌+◌, ◌*◌, ◌≤◌, length};
ghost use Rattle.std.proofs.lemmas.List.Edits.{sets};
ghost use Rattle.answers.specs.Outcome.{number_in, answer_of};
ghost use Rattle.grid.specs.Sides.{InRange};
ghost use Rattle.stream_output.specs.Output.{grid_record, row_record, row_records, end_record, for_input, rows_length};
ghost use Rattle.stream_output.specs.Output.{Wrote};

use answers::{Refusal, RunAnswer, answer_number};
use grid::{Sides, bad_sides};
use stream::{END, GRID};
use stream_bytes::{put_mark, put_u16, put_u32};
use stream_rows::{ROW, rows_length};
use stream_words::put_words;

// The number of an answer in two bytes.
fn short_number(a: Result<(), Refusal>) -> u16
    ensures { result ≡ number_in (answer_of a) }
{
    answer_number(a) as u16
}

// Whether a number is that of a refusal for the input.
fn for_input(number: u16) -> bool
    ensures { result ≡ for_input number }
{
    (1..10).contains(&number)
}

// The grid record, at the front.
fn put_grid(out: &mut [u8], size: Sides)
    requires in_range { InRange size.w size.h }
    requires in_bounds { 6 ≤ length out.old }
    ensures { out.new ≡ sets out.old 0 (grid_record size.w size.h) }
{
    put_mark(out, 0, &GRID);
    put_u16(out, 2, size.w as u16);
    put_u16(out, 4, size.h as u16);
}

// A row of w heights from a cell on, at a place.
fn put_row(out: &mut [u8], at: usize, map: &[f32], cell: usize, w: usize)
    requires w_in_bounds { at + (2 + 4 * w) ≤ length out.old }
    requires w_in_bounds_2 { cell + w ≤ length map.now }
    ensures { out.new ≡ sets out.old at (row_record map.now cell w) }
{
    put_mark(out, at, &ROW);
    put_words(out, at + 2, &map[cell..cell + w]);
}

// All rows, behind the grid record.
fn put_rows(out: &mut [u8], map: &[f32], size: Sides)
    requires h_in_bounds { 6 + rows_length size.w size.h ≤ length out.old }
    requires map_len { length map.now ≡ size.w * size.h }
    ensures { out.new ≡ sets out.old 6 (row_records map.now size.w size.h) }
{
    let w = size.w;
    let h = size.h;
    for y in 0..h {
        put_row(out, 6 + y * (2 + 4 * w), map, y * w, w);
    }
}

// The end record, at a place.
fn put_end(out: &mut [u8], at: usize, number: u16, incisions: u32, passes: u32, questions: u32)
    requires { at + 16 ≤ length out.old }
    ensures { out.new ≡ sets out.old at (end_record number incisions passes questions) }
{
    put_mark(out, at, &END);
    put_u16(out, at + 2, number);
    put_u32(out, at + 4, incisions);
    put_u32(out, at + 8, passes);
    put_u32(out, at + 12, questions);
}

// Writes the output of a run that answered r and left the map: the bytes of document 01, the rest of the slice as it
// was. Returns how many bytes it wrote, or a refusal. It is a part of `relief` and takes any heights: no refusal 5.
pub fn write_output(
    size: Sides,
    map: &[f32],
    r: RunAnswer,
    out: &mut [u8],
) -> Result<usize, Refusal>
    ensures { Wrote size.w size.h map.now r out.old result out.new }
{
    let answer = r.answer;
    let number = short_number(answer);
    if for_input(number) {
        if out.len() < 16 {
            return Err(Refusal::Length);
        }
        put_end(out, 0, number, 0, 0, 0);
        return Ok(16);
    }
    if bad_sides(size) {
        return Err(Refusal::Side);
    }
    if map.len() != size.w * size.h {
        return Err(Refusal::Length);
    }
    let rows = rows_length(size);
    if out.len() < 22 + rows {
        return Err(Refusal::Length);
    }
    put_grid(out, size);
    put_rows(out, map, size);
    put_end(out, 6 + rows, number, r.incisions, r.passes, r.questions);
    Ok(22 + rows)
}
