// The calls of layout_calls by the C convention, as its archive exports them: a slice passes as pointer and length.
#![tactic(auto)]

ghost use Rattle.std.specs.Prelude.{◌≤◌, ◌≡◌};
ghost use Rattle.answers.specs.Outcome.{number_of};
ghost use Rattle.layout_calls.specs.Word.{packed, sides_value, root_word, sides_word, check_word};

// The square root of x: its bits.
#[unsafe(no_mangle)]
pub extern "C" fn milofavurn_square_root(x: f32) -> u64
    ensures { result ≡ root_word x }
{
    layout_calls::milofavurn_square_root(x)
}

// The working sides of a w × h map, reduced so that the longest is at most max_res, but each at least 1: width × 65,536
// + height.
#[unsafe(no_mangle)]
pub extern "C" fn milofavurn_working_sides(w: usize, h: usize, max_res: u32) -> u64
    ensures { result ≡ sides_word w h max_res }
{
    layout_calls::milofavurn_working_sides(w, h, max_res)
}

// The stream check: 0 for a stream that `relief` would take if it took any number of cells.
#[unsafe(no_mangle)]
pub extern "C" fn milofavurn_stream_check(bytes: &[u8]) -> u64
    ensures { result ≡ check_word bytes.now }
{
    layout_calls::milofavurn_stream_check(bytes)
}
