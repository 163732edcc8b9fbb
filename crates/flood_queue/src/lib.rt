// The queue of the flood: a scan along the cells sorted by their own heights, from which the waiting cells that were
// not raised leave, and a heap of the waiting cells that the scan has passed. Where the list is not sorted the scan
// begins at its end, and every waiting cell is in the heap.
#![tactic(auto)]

ghost use Rattle.std.specs.Prelude.{◌^◌, ◌≤◌, ◌<◌, ◌≡◌, ◌&&◌, length, get_or, ltb};
ghost use Rattle.flood_heap.specs.Queue.{queue_place, Heap};
ghost use Rattle.flood_sort.specs.Sorted.{is_sorted};
ghost use Rattle.flood_queue.specs.Scans.{limit_of, Gathered, Begins, ScanBegun, ScanReady, Waits, Turned};

use flood_heap::{place, pop, push};

// The statuses of a cell: not pushed yet, waiting, left. Numbers, not an enum: the bytes are lent from outside.
pub const UNPUSHED: u8 = 0;

pub const WAITING: u8 = 1;

pub const LEFT: u8 = 2;

// The state of a scan: it stands before entry `head` of the sorted list, and `limit` is the place of that entry's cell.
// The heap holds `len` cells.
#[derive(Clone, Copy)]
pub struct Scan {
    pub head: usize,
    pub limit: u64,
    pub len: usize,
}

// Adds every waiting cell to an empty heap. Returns the number of them.
fn gather_all(status: &[u8], spill: &[f32], queue: &mut [u32]) -> usize
    requires status_len { length status.now ≡ length spill.now }
    requires status_in_bounds { length status.now ≤ length queue.old }
    requires status_len_bound { length status.now ≤ 2 ^ 24 }
    ensures { Gathered status.now spill.now (length status.now) result
        queue.new }
{
    let mut len = 0;
    for (c, &mark) in status.iter().enumerate() {
        if mark == WAITING {
            push(queue, len, spill, c as u32);
            len += 1;
        }
    }
    len
}

// The limit of a scan that stands before entry `head` of the list: the place of that entry's cell by its height; behind
// the last entry 2^64 - 1, which is above all places, so that a place is compared with it as with any other limit.
fn limit_at(h: &[f32], list: &[u32], head: usize) -> u64
    requires { head < length list.now → get_or list.now head 0 < length h.now }
    ensures { result ≡ limit_of h.now list.now head }
{
    match list.get(head) {
        Some(&c) => place(c, h),
        None => u64::MAX,
    }
}

// Returns the first state of the scan: before the first entry of a sorted list with nothing in the heap; or behind a
// list that is not sorted, with every waiting cell in the heap. A flag, not an `Option` of the list: the scan stands
// behind the list that is not sorted too, and the flood fills its slice.
pub fn begin(
    sorted: bool,
    h: &[f32],
    list: &[u32],
    status: &[u8],
    spill: &[f32],
    queue: &mut [u32],
) -> Scan
    requires sorted_value { sorted ≡ is_sorted h.now list.now }
    requires begins { Begins h.now list.now status.now spill.now queue.old }
    ensures { ScanBegun h.now list.now status.now spill.now result
        queue.new }
{
    if sorted {
        return Scan {
            head: 0,
            limit: limit_at(h, list, 0),
            len: 0,
        };
    }
    Scan {
        head: h.len(),
        limit: u64::MAX,
        len: gather_all(status, spill, queue),
    }
}

// Whether the heap's first cell comes before the limit.
fn heap_first(queue: &[u32], len: usize, spill: &[f32], limit: u64) -> bool
    requires { Heap (queue_place spill.now) (length spill.now) len queue.now }
    ensures { result ≡ ltb 0 len && ltb (queue_place spill.now (get_or queue.now 0 0)) limit }
{
    len != 0 && place(queue[0], spill) < limit
}

// One turn of the scan: the heap's first cell leaves if it comes before the cell at the scan's entry; else the scan
// passes that cell, which leaves if it waits. Returns the new state and the cell that leaves, if one does. Of `h` the
// contract alone speaks: the cells that the scan has not passed have their own heights as spill heights.
pub fn turn(
    h: &[f32],
    list: &[u32],
    s: Scan,
    spill: &[f32],
    queue: &mut [u32],
    status: &mut [u8],
) -> (Scan, Option<usize>)
    requires scan_ready { ScanReady h.now list.now status.old spill.now s queue.old }
    requires waits { Waits status.old }
    ensures { Turned h.now list.now s.head status.old spill.now result.0 result.1
        status.new queue.new }
{
    if heap_first(queue, s.len, spill, s.limit) {
        let c = pop(queue, s.len, spill) as usize;
        status[c] = LEFT;
        let next = Scan {
            len: s.len - 1,
            ..s
        };
        return (next, Some(c));
    }
    let c = list[s.head] as usize;
    let limit = limit_at(spill, list, s.head + 1);
    let next = Scan {
        head: s.head + 1,
        limit,
        len: s.len,
    };
    if status[c] != WAITING {
        return (next, None);
    }
    status[c] = LEFT;
    (next, Some(c))
}
