// What the layout engine calls, exported by layout_calls_c: the square root, the working sides and the stream check.
// Each gives one u64, the refusal number × 2^32 plus, where that number is 0, its value
// (specs/Word.antt).
#![tactic(auto)]

ghost use Rattle.std.specs.Prelude.{◌≤◌, ◌≡◌};
ghost use Rattle.answers.specs.Outcome.{number_of};
ghost use Rattle.layout_calls.specs.Word.{packed, sides_value, root_word, sides_word, check_word};

use answers::Refusal;
use grid::Sides;

// A refusal number and a value in one word.
fn pack(number: u32, value: u32) -> u64
    ensures { result ≡ packed number value }
{
    number as u64 * 0x1_0000_0000 + value as u64
}

// The word of a refusal.
fn refused(refusal: Refusal) -> u64
    ensures { result ≡ packed (number_of refusal) 0 }
{
    pack(u32::from(refusal), 0)
}

// Two sides in one value.
fn sides_value(size: Sides) -> u32
    requires w_bound { size.w ≤ 4096 }
    requires h_bound { size.h ≤ 4096 }
    ensures { result ≡ sides_value size }
{
    (size.w * 65536 + size.h) as u32
}

// The square root of x: its bits.
pub fn milofavurn_square_root(x: f32) -> u64
    ensures { result ≡ root_word x }
{
    let answer = square_root::root(x);
    match answer {
        Ok(root) => pack(0, floats::to_bits(root)),
        Err(refusal) => refused(refusal),
    }
}

// The working sides of a w × h map, reduced so that the longest is at most max_res, but each at least 1: width × 65,536
// + height.
pub fn milofavurn_working_sides(w: usize, h: usize, max_res: u32) -> u64
    ensures { result ≡ sides_word w h max_res }
{
    let answer = resample::work_size(Sides { w, h }, max_res);
    match answer {
        Ok(size) => pack(0, sides_value(size)),
        Err(side) => refused(side),
    }
}

// The stream check: 0 for a stream that `relief` would take if it took any number of cells.
pub fn milofavurn_stream_check(bytes: &[u8]) -> u64
    ensures { result ≡ check_word bytes.now }
{
    let answer = stream::read_stream(false, bytes);
    match answer {
        Ok(_) => pack(0, 0),
        Err(refusal) => refused(refusal),
    }
}
