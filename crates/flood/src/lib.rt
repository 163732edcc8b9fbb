// The flood of flow.rs on lent slices: base cells are pushed, then the least waiting cell leaves and pushes its
// neighbours, until all have left. The result is that of the flood that crates/drainage defines.
#![tactic(auto)]

ghost use Rattle.std.specs.Prelude.{◌*◌, ◌≡◌, false, length};
ghost use Rattle.drainage.specs.Ground.{grid_ground, no_base};
ghost use Rattle.flood_queue.specs.Scans.{ScanReady, Waits};
ghost use Rattle.flood_start.specs.Slices.{Sizes};
ghost use Rattle.flood.specs.Slices.{AcceptedGrid, Flooded};
ghost use Rattle.flood.specs.Steps.{NextLeaver};

use drainage::Land;
use flood_queue::{Scan, begin, turn};
use flood_reach::reach_all;
use flood_sort::sort_cells;
use flood_start::start;
use grid::Sides;

// Turns the scan until a cell leaves. Returns the scan then, and that cell.
fn next_leaver(
    h: &[f32],
    list: &[u32],
    mut scan: Scan,
    spill: &[f32],
    queue: &mut [u32],
    status: &mut [u8],
) -> (Scan, usize)
    requires scan_ready { ScanReady h.now list.now status.old spill.now scan queue.old }
    requires waits { Waits status.old }
    ensures { NextLeaver h.now list.now status.old spill.now result.0 result.1
        status.new queue.new }
{
    // A `loop`: after how many turns a cell leaves is not known before.
    loop {
        match turn(h, list, scan, spill, queue, status) {
            (next, Some(c)) => return (next, c),
            (next, None) => scan = next,
        }
    }
}

// The whole flood of a grid where some cell is base level: stores the order, the discoverers (in `recv`) and the spill
// heights. The queue and the statuses are scratch.
pub fn flood(
    g: Sides,
    h: &[f32],
    land: Land,
    order: &mut [u32],
    recv: &mut [u32],
    spill: &mut [f32],
    queue: &mut [u32],
    status: &mut [u8],
)
    requires accepted_grid { AcceptedGrid g.w g.h h.now }
    requires order_len { length order.old ≡ g.w * g.h }
    requires sizes { Sizes (g.w * g.h) h.now status.old spill.old recv.old queue.old }
    requires h_value { no_base (grid_ground g.w g.h land h.now) ≡ false }
    ensures { Flooded g.w g.h land h.now order.new recv.new
        spill.new }
{
    let sorted = sort_cells(h, order, recv);
    start(g, h, land, status, spill, recv);
    let mut scan = begin(sorted, h, order, status, spill, queue);
    for i in 0..h.len() {
        let (next, c) = next_leaver(h, order, scan, spill, queue, status);
        order[i] = c as u32;
        let len = reach_all(g, h, next.limit, c, next.len, status, spill, recv, queue);
        scan = Scan { len, ..next };
    }
}
