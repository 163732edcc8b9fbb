// Blocks of a list, 1,024 positions at most: where a block ends, which of its cells lie in a segment and at which
// positions, and the receivers of cells, gathered or by their positions. Each of these is read for the whole block
// before a mark is looked up, so that many memory reads run at the same time.
#![tactic(auto)]

ghost use Rattle.std.specs.Prelude.{◌≡◌, ℕ, ◌+◌, ◌^◌, ◌<◌, ◌≤◌, min, false, ◌++◌, length, drop};
ghost use Rattle.loops.specs.Loops.{tabulate};
ghost use Rattle.lent_list_marks.specs.Seen.{span, in_segment};
ghost use Rattle.lent_list_blocks.specs.Blocks.{CellsIn, Picked, Taken, receiver_at};
ghost use Rattle.lent_list_blocks.specs.Blocks.{taken_at, CellsAt, receivers_at};

use lent_list_marks::SPAN;

// The number of positions in a block: their receivers, 4 KB, stay in the nearest cache.
pub const LIST_BLOCK: usize = 1024;

// The number of cells of one segment that have a mark.
const CELLS_MARKED: u32 = SPAN as u32;

// Returns the end of the block that starts at position p: p + 1,024, or the limit if that comes first.
pub fn block_end(p: usize, limit: usize) -> usize
    requires { (p < limit) × (limit ≤ 2 ^ 24) }
    ensures { result ≡ min (p + 1024) limit }
{
    (p + LIST_BLOCK).min(limit)
}

// Whether cell c lies in the segment from lo.
fn is_inside(lo: u32, c: u32) -> bool
    requires { lo ≤ 2 ^ 24 }
    ensures { result ≡ in_segment span lo c }
{
    c.wrapping_sub(lo) < CELLS_MARKED
}

// Writes to the front of `cells` the entries from position `from` to before `to` that lie in the segment from lo, with
// no branch. Returns how many they are.
pub fn cells_in(list: &[u32], lo: usize, from: usize, to: usize, cells: &mut [u32]) -> usize
    requires order { from ≤ to }
    requires room { to ≤ from + length cells.old }
    requires inside { to ≤ length list.now }
    requires to_bound { to ≤ 2 ^ 24 }
    requires lo_bound { lo ≤ 2 ^ 24 }
    ensures { Taken list.now lo from to cells.new result }
{
    let mut k: usize = 0;
    for p in from..to {
        cells[k] = list[p];
        k += usize::from(is_inside(lo as u32, list[p]));
    }
    k
}

// Returns the position of the i-th entry from position `from` to before `to` that lies in the segment from lo.
pub fn position_in(list: &[u32], lo: usize, from: usize, to: usize, i: usize) -> usize
    requires order { from ≤ to }
    requires inside { to ≤ length list.now }
    requires lo_bound { lo ≤ 2 ^ 24 }
    ensures { (position : ℕ → ℕ) (k : ℕ) → Picked list.now lo from to position k → i < k → result ≡ position i }
{
    let mut left = i;
    for p in from..to {
        if is_inside(lo as u32, list[p]) {
            if left == 0 {
                return p;
            }
            left -= 1;
        }
    }
    to
}

// Writes to the front of `places` those positions from `from` to before `to` whose cells lie in the segment from lo,
// with no branch. Returns how many they are.
pub fn positions_in(list: &[u32], lo: usize, from: usize, to: usize, places: &mut [u32]) -> usize
    requires { (from ≤ to) × (to ≤ from + length places.old) × (to ≤ length list.now) × (to ≤ 2 ^ 24) ×
        (lo ≤ 2 ^ 24) }
    ensures { Picked list.now lo from to (taken_at false places.new from) result }
{
    let mut k: usize = 0;
    for place in from..to {
        places[k] = place as u32;
        k += usize::from(is_inside(lo as u32, list[place]));
    }
    k
}

// Returns the position of the i-th entry checked of a block that starts at `from`: the i-th of the whole block, or the
// i-th in `places`.
pub fn taken(whole: bool, places: &[u32], from: usize, i: usize) -> usize
    requires { (whole ≡ false → i < length places.now) × (taken_at whole places.now from i < 2 ^ 64) }
    ensures { result ≡ taken_at whole places.now from i }
{
    if whole { from + i } else { places[i] as usize }
}

// Writes the receivers of the cells to the front of `below`. All are read before the first mark is looked up, so that
// many memory reads run at the same time.
pub fn receivers_of_cells(recv: &[u32], cells: &[u32], below: &mut [u32])
    requires room { length cells.now ≤ length below.old }
    requires cells_in_range { CellsIn (length recv.now) cells.now }
    ensures { below.new
        ≡ tabulate (length cells.now) (receiver_at recv.now cells.now) ++ drop (length cells.now) below.old }
{
    // Counted: one index reads `cells` and writes `below`.
    for i in 0..cells.len() {
        below[i] = recv[cells[i] as usize];
    }
}

// Writes the receivers of the first k cells checked to the front of `below`: of the cells at the positions that `taken`
// returns.
pub fn receivers_of(
    recv: &[u32],
    list: &[u32],
    places: &[u32],
    k: usize,
    below: &mut [u32],
    whole: bool,
    from: usize,
)
    requires k_in_bounds { (whole ≡ false → k ≤ length places.now) × (k ≤ length below.old) }
    requires cells_at { CellsAt (length recv.now) list.now (taken_at whole places.now from) k }
    ensures { below.new
        ≡ tabulate k (receivers_at recv.now list.now (taken_at whole places.now from)) ++
        drop k below.old }
{
    for (i, receiver) in below[..k].iter_mut().enumerate() {
        let position = taken(whole, places, from, i);
        *receiver = recv[list[position] as usize];
    }
}
