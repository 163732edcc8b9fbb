// Refusal 7: the check of a lent list. Nothing lent is written before it is decided.
#![tactic(auto)]

ghost use Rattle.std.specs.Prelude.{◌≡◌, true, ◌+◌, ◌*◌, ◌^◌, ◌≤◌, length, get_or, ltb, nat_le, position};
ghost use Rattle.loops.specs.Loops.{place_among, Searched};
ghost use Rattle.loops.specs.Firsts.{First};
ghost use Rattle.lent_list_marks.specs.Seen.{span, is_marked, Blank};
ghost use Rattle.lent_list_blocks.specs.Blocks.{CellsIn, CellsBefore};
ghost use Rattle.lent_list.specs.Entries.{every_cell, first_bad_entry};
ghost use Rattle.lent_list.specs.Walks.{CellsWithin, good_by_marks, marked_by, Walk, WalkEnded, Scanned};
ghost use Rattle.lent_list.specs.Walks.{ListLengths, ReceiversIn, WithinOverlap};

use lent_list_blocks::{LIST_BLOCK, block_end, cells_in, position_in, receivers_of_cells};
use lent_list_marks::{SEGMENT, SPAN, bad_in_segment};

// The most cells whose marks are bytes in an array of 64 KB on the stack, so that a small grid need not clear 1 MB.
const FEW_CELLS: usize = 65536;

// The most cells whose marks are bytes in an array of 1 MB on the stack, half of what a Rust thread has by default; for
// more cells marks are bits.
const MANY_CELLS: usize = 1048576;

// The words with a bit for each cell of a segment.
const MARK_WORDS: usize = SPAN / 64;

// Checks cells of the segment from lo, at most 1,024, in the order of the list. Returns the index of the first one that
// is bad by the marks. Where `KNOWN` is true, every receiver lies in the segment, and that is not tested.
fn first_in_cells<const KNOWN: bool>(
    seen: &mut [u64],
    lo: usize,
    recv: &[u32],
    cells: &[u32],
) -> Option<usize>
    requires span_in_bounds { span ≤ length seen.old * 64 }
    requires few { length cells.now ≤ 1024 }
    requires cells_in { CellsIn (length recv.now) cells.now }
    requires cells_within { CellsWithin lo cells.now }
    requires receivers_in { KNOWN ≡ true → ReceiversIn lo (length recv.now) recv.now }
    ensures first { Searched (length cells.now)
        (First (length cells.now) (good_by_marks lo recv.now cells.now seen.old)) result }
    ensures marks { result ≡ None → seen.new ≡ marked_by lo cells.now seen.old (length cells.now) }
{
    let mut below: [u32; LIST_BLOCK] = [0; LIST_BLOCK];
    receivers_of_cells(recv, cells, &mut below);
    // Counted: the index is the answer, and both slices are read by it.
    for i in 0..cells.len() {
        if bad_in_segment::<KNOWN>(seen, lo, cells[i] as usize, below[i] as usize) {
            return Some(i);
        }
    }
    None
}

// Checks the entries of one block, at most 1,024 positions long, whose cells lie in the segment from lo. Returns the
// position of the first bad one. On at most `SEGMENT` cells, all of which the segment from 0 holds, the whole block is
// checked; else the cells of the segment are taken first.
fn first_in_some(
    seen: &mut [u64],
    lo: usize,
    recv: &[u32],
    list: &[u32],
    from: usize,
    to: usize,
) -> Option<usize>
    requires span_in_bounds { span ≤ length seen.old * 64 }
    requires lo_bound { lo ≤ 2 ^ 24 }
    requires few { to ≤ from + 1024 }
    requires inside { to ≤ length list.now }
    requires to_bound { to ≤ 2 ^ 24 }
    requires list_lengths { ListLengths (length recv.now) recv.now list.now }
    requires cells_before { CellsBefore (length recv.now) list.now to }
    requires walk { Walk span (length recv.now) recv.now list.now lo to from (is_marked seen.old) }
    ensures { Searched to (WalkEnded (length recv.now) recv.now list.now lo to seen.new) result }
{
    if lo == 0 && recv.len() <= SEGMENT {
        let i = first_in_cells::<true>(seen, 0, recv, &list[from..to])?;
        return Some(from + i);
    }
    let mut cells: [u32; LIST_BLOCK] = [0; LIST_BLOCK];
    let k = cells_in(list, lo, from, to, &mut cells);
    let i = first_in_cells::<false>(seen, lo, recv, &cells[..k])?;
    Some(position_in(list, lo, from, to, i))
}

// Returns the first position below the limit whose entry is bad by the marks of the segment from lo.
fn first_in_segment(n: usize, recv: &[u32], list: &[u32], lo: usize, limit: usize) -> Option<usize>
    requires list_lengths { ListLengths n recv.now list.now }
    requires limit_le_n { limit ≤ n }
    requires n_bound { n ≤ 2 ^ 24 }
    requires lo_bound { lo ≤ 2 ^ 24 }
    requires cells_before { CellsBefore n list.now limit }
    ensures { Searched limit (Scanned n recv.now list.now lo (lo + span) limit) result }
{
    let mut seen: [u64; MARK_WORDS] = [0; MARK_WORDS];
    for p in (0..limit).step_by(LIST_BLOCK) {
        let to = block_end(p, limit);
        if let Some(bad) = first_in_some(&mut seen, lo, recv, list, p, to) {
            return Some(bad);
        }
    }
    None
}

// Whether every entry is one of n cells, with no branch, so that the compiler tests several at a time.
fn every_cell(n: u32, list: &[u32]) -> bool
    ensures { result ≡ every_cell n list.now }
{
    let mut good = true;
    for &c in list {
        good &= c < n;
    }
    good
}

// Searches the list for the first position with an entry that is none of the n cells.
fn search_outside(n: usize, list: &[u32]) -> Option<usize>
    ensures { result ≡ position (λ c. nat_le n c) list.now }
{
    list.iter().position(|&c| n <= c as usize)
}

// Returns the first position with an entry that is none of the n cells. The list is searched only where `every_cell` is
// false, or where n does not fit in a u32.
fn first_outside(n: usize, list: &[u32]) -> Option<usize>
    requires { length list.now ≡ n }
    ensures { Searched n (First n (λ p. ltb (get_or list.now p 0) n)) result }
{
    if n <= u32::MAX as usize && every_cell(n as u32, list) {
        return None;
    }
    search_outside(n, list)
}

// Returns the first position whose entry is none of the n cells or is bad by the marks. `seen` has a byte for each
// cell, none of them set yet.
fn first_in_bytes(n: usize, recv: &[u32], list: &[u32], seen: &mut [u8]) -> Option<usize>
    requires list_lengths { ListLengths n recv.now list.now }
    requires blank { Blank n seen.old }
    ensures { Searched n (Scanned n recv.now list.now 0 (0 + n) n) result }
{
    // Counted: the position is the answer.
    for p in 0..n {
        let c = list[p] as usize;
        let bad = n <= c || seen[c] == 1;
        if bad {
            return Some(p);
        }
        seen[c] = 1;
        if seen[recv[c] as usize] != 1 {
            return Some(p);
        }
    }
    None
}

// Returns the first position with a bad entry, on at most N cells, with as many bytes for marks.
fn first_by_bytes<const N: usize>(n: usize, recv: &[u32], list: &[u32]) -> Option<usize>
    requires list_lengths { ListLengths n recv.now list.now }
    requires n_bound { n ≤ N }
    requires few { N ≤ 1048576 }
    ensures { Searched n (Scanned n recv.now list.now 0 (0 + n) n) result }
{
    let mut seen: [u8; N] = [0; N];
    first_in_bytes(n, recv, list, &mut seen)
}

// Returns the first position with a bad entry, on any number of cells, with a bit for each mark: the list is read once
// for each segment of cells.
fn first_by_bits(n: usize, recv: &[u32], list: &[u32]) -> Option<usize>
    requires list_lengths { ListLengths n recv.now list.now }
    requires within_overlap { WithinOverlap n recv.now }
    ensures { result ≡ place_among n (first_bad_entry n recv.now list.now) }
{
    let mut bad = first_outside(n, list);
    for lo in (0..n).step_by(SEGMENT) {
        bad = first_in_segment(n, recv, list, lo, bad.unwrap_or(n)).or(bad);
    }
    bad
}

// Refusal 7: returns the first position with a bad entry, none where the list is a work list. No receiver may be
// further from its cell than the 8,192 cells by which segments overlap.
pub fn first_bad_entry(n: usize, recv: &[u32], list: &[u32]) -> Option<usize>
    requires list_lengths { ListLengths n recv.now list.now }
    requires within_overlap { WithinOverlap n recv.now }
    ensures { result ≡ place_among n (first_bad_entry n recv.now list.now) }
{
    if n <= FEW_CELLS {
        return first_by_bytes::<FEW_CELLS>(n, recv, list);
    }
    if n <= MANY_CELLS {
        return first_by_bytes::<MANY_CELLS>(n, recv, list);
    }
    first_by_bits(n, recv, list)
}
