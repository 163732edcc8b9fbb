// A cell that leaves the flood reaches its neighbours: those not pushed yet get their spill heights and their
// discoverer, and wait from then on.
#![tactic(auto)]

ghost use Rattle.std.specs.Prelude.{suc, ◌*◌, ◌<◌, ◌≡◌, length, get_or};
ghost use Rattle.std.specs.Float.{nan};
ghost use Rattle.loops.specs.Loops.{tabulate};
ghost use Rattle.grid.specs.Sides.{InRange};
ghost use Rattle.grid.specs.Directions.{neighbour_at};
ghost use Rattle.grid_inner.specs.Inner.{Inner};
ghost use Rattle.flood_queue.specs.Scans.{Queued, Level};
ghost use Rattle.flood_start.specs.Slices.{Sizes};
ghost use Rattle.flood_reach.specs.Reaches.{ReachedOne, ReachedBy, ReachedAll, Found};

use floats::max;
use flood_heap::{place, push};
use flood_queue::{UNPUSHED, WAITING};
use grid::{DIRX, DIRY, Sides, neighbour};
use grid_inner::{beside, is_inner};

// Cell c, which has left, reaches cell m: if m was not pushed yet (its spill height so far is its own height), it gets
// its spill height and its discoverer and waits from now on, in the heap if the scan has passed it, else where it
// stands in the list. Nothing changes if m is no cell. Returns the number of cells in the heap. The four lent slices
// pass apart, with `Sizes` beside them: a function that takes a struct of them has to ensure of each that it is the
// same slice afterwards, four clauses in place of one.
fn reach(
    h: &[f32],
    limit: u64,
    c: usize,
    m: usize,
    len: usize,
    status: &mut [u8],
    spill: &mut [f32],
    recv: &mut [u32],
    queue: &mut [u32],
) -> usize
    requires sizes { Sizes (length h.now) h.now status.old spill.old recv.old queue.old }
    requires queued { Queued h.now limit status.old spill.old len queue.old }
    requires c_in_bounds { c < length h.now }
    requires c_value { get_or status.old c 0 ≡ 2 }
    requires level { Level h.now limit (get_or spill.old c nan) }
    ensures { ReachedOne h.now limit c m
        (record { status = status.old; spill = spill.old; recv = recv.old }) result
        (record { status = status.new; spill = spill.new; recv = recv.new })
        queue.new }
{
    if status.len() <= m || status[m] != UNPUSHED {
        return len;
    }
    let own = place(m as u32, spill);
    status[m] = WAITING;
    spill[m] = max(spill[m], spill[c]);
    recv[m] = c as u32;
    if limit <= own {
        return len;
    }
    push(queue, len, spill, m as u32);
    len + 1
}

// Stores the neighbours of any cell in `found`, in scan order. Where one lies outside the grid its entry is w × h,
// which is no cell: `near` of crates/drainage, which `push_all` turns through, has that number too.
fn find_all(g: Sides, c: usize, found: &mut [usize; 8])
    requires in_range { InRange g.w g.h }
    requires c_bound { c < g.w * g.h }
    ensures { found.new ≡ tabulate 8 (λ i. neighbour_at g.w g.h c (suc i)) }
{
    let x = c % g.w;
    let y = c / g.w;
    for d in 0..8 {
        found[d] = neighbour(g, x, y, DIRX[d + 1], DIRY[d + 1]);
    }
}

// Stores the neighbours of an inner cell that have not been pushed in `found`, in scan order, and returns how many. A
// select, not a branch: every neighbour is stored, and a pushed one is overwritten by the next.
fn find_unpushed(g: Sides, c: usize, status: &[u8], found: &mut [usize; 8]) -> usize
    requires inner { Inner g.w g.h c }
    requires status_len { length status.now ≡ g.w * g.h }
    ensures { Found (neighbour_at g.w g.h c) status.now 8 result found.new }
{
    let mut some = 0;
    for d in 0..8 {
        let m = beside(g, c, DIRX[d + 1], DIRY[d + 1]);
        found[some] = m;
        some += usize::from(status[m] == UNPUSHED);
    }
    some
}

// Cell c reaches the cells found, in their order. Returns the number of cells in the heap.
fn reach_found(
    h: &[f32],
    limit: u64,
    c: usize,
    found: &[usize],
    len: usize,
    status: &mut [u8],
    spill: &mut [f32],
    recv: &mut [u32],
    queue: &mut [u32],
) -> usize
    requires sizes { Sizes (length h.now) h.now status.old spill.old recv.old queue.old }
    requires queued { Queued h.now limit status.old spill.old len queue.old }
    requires c_in_bounds { c < length h.now }
    requires c_value { get_or status.old c 0 ≡ 2 }
    requires level { Level h.now limit (get_or spill.old c nan) }
    ensures { ReachedBy h.now limit c found.now
        (record { status = status.old; spill = spill.old; recv = recv.old }) result
        (record { status = status.new; spill = spill.new; recv = recv.new })
        queue.new }
{
    let mut waiting = len;
    for &m in found {
        waiting = reach(h, limit, c, m, waiting, status, spill, recv, queue);
    }
    waiting
}

// Cell c reaches its neighbours: of an inner cell, whose neighbours are all cells, only those that have not been
// pushed; of any other cell all eight. Returns the number of cells in the heap.
pub fn reach_all(
    g: Sides,
    h: &[f32],
    limit: u64,
    c: usize,
    len: usize,
    status: &mut [u8],
    spill: &mut [f32],
    recv: &mut [u32],
    queue: &mut [u32],
) -> usize
    requires in_range { InRange g.w g.h }
    requires sizes { Sizes (g.w * g.h) h.now status.old spill.old recv.old queue.old }
    requires queued { Queued h.now limit status.old spill.old len queue.old }
    requires c_bound { c < g.w * g.h }
    requires c_value { get_or status.old c 0 ≡ 2 }
    requires level { Level h.now limit (get_or spill.old c nan) }
    ensures { ReachedAll g.w g.h h.now limit c
        (record { status = status.old; spill = spill.old; recv = recv.old }) result
        (record { status = status.new; spill = spill.new; recv = recv.new })
        queue.new }
{
    let mut found: [usize; 8] = [0; 8];
    if is_inner(g, c) {
        let some = find_unpushed(g, c, status, &mut found);
        return reach_found(h, limit, c, &found[..some], len, status, spill, recv, queue);
    }
    find_all(g, c, &mut found);
    reach_found(h, limit, c, &found, len, status, spill, recv, queue)
}
