// The drainage network of a height grid, after flow.rs: flood, receivers and areas on lent slices, in one call that
// refuses what document 01 refuses.
#![tactic(auto)]

ghost use Rattle.std.specs.Prelude.{◌*◌, ◌≡◌, false, length};
ghost use Rattle.answers.specs.Outcome.{answer_of};
ghost use Rattle.drainage.specs.Ground.{grid_ground, no_base};
ghost use Rattle.flood.specs.Slices.{AcceptedGrid};
ghost use Rattle.flow.specs.Route.{bad_net_lengths, route_answer, lent_of, Enough, Holding, Routed};

use answers::Refusal;
use areas::areas_along;
use drainage::{Land, square_land};
use floats::is_finite;
use flood::flood;
use grid::{Sides, bad_sides, first_not_finite};
use receiver_rows::steepest_receivers;

// The lengths of the slices lent to `route`.
#[derive(Clone, Copy)]
pub struct Lent {
    pub heights: usize,
    pub order: usize,
    pub receivers: usize,
    pub spill: usize,
    pub areas: usize,
    pub queue: usize,
    pub status: usize,
}

// Refusal 3: whether a length is wrong. Heights and results must hold exactly n cells, scratch at least n.
fn bad_lengths(n: usize, l: Lent) -> bool
    ensures { result ≡ bad_net_lengths n l }
{
    l.heights != n
        || l.order != n
        || l.receivers != n
        || l.spill != n
        || l.areas != n
        || l.queue < n
        || l.status < n
}

// Returns the first refusal of `route` in document 01's number order, `Ok` where there is none.
fn refusal(size: Sides, h: &[f32], water_level: f32, l: Lent) -> Result<(), Refusal>
    requires { l.heights ≡ length h.now }
    ensures { answer_of result ≡ route_answer size.w size.h h.now water_level l }
{
    if bad_sides(size) {
        return Err(Refusal::Side);
    }
    let n = size.w * size.h;
    if bad_lengths(n, l) {
        return Err(Refusal::Length);
    }
    if !is_finite(water_level) {
        return Err(Refusal::Setting);
    }
    if let Some(bad) = first_not_finite(size, h) {
        return Err(Refusal::Height(bad));
    }
    Ok(())
}

// Routes a grid that is not refused and has a base cell: flood, receivers, areas. For whole runs, which check their
// input once.
pub fn route_grid(
    size: Sides,
    h: &[f32],
    land: Land,
    order: &mut [u32],
    recv: &mut [u32],
    spill: &mut [f32],
    area: &mut [f32],
    queue: &mut [u32],
    status: &mut [u8],
)
    requires accepted_grid { AcceptedGrid size.w size.h h.now }
    requires enough { Enough (size.w * size.h)
        (lent_of h.now order.old recv.old spill.old area.old queue.old status.old) }
    requires h_value { no_base (grid_ground size.w size.h land h.now) ≡ false }
    ensures { Holding size.w size.h h.now land order.new recv.new
        spill.new area.new }
{
    let n = h.len();
    flood(size, h, land, order, recv, spill, queue, &mut status[..n]);
    steepest_receivers(size, land.distances, spill, recv);
    areas_along(size.w, recv, order, area);
}

// Routes `h`: the map border and every cell at or below `water_level` are the base level. Order, receivers, spill
// heights and areas are the results; the queue and the statuses are scratch.
pub fn route(
    size: Sides,
    h: &[f32],
    water_level: f32,
    order: &mut [u32],
    recv: &mut [u32],
    spill: &mut [f32],
    area: &mut [f32],
    queue: &mut [u32],
    status: &mut [u8],
) -> Result<(), Refusal>
    ensures { Routed size.w size.h h.now water_level
        (record {
          order = order.old;
          recv = recv.old;
          spill = spill.old;
          area = area.old;
          queue = queue.old;
          status = status.old;
        }) result
        (record {
          order = order.new;
          recv = recv.new;
          spill = spill.new;
          area = area.new;
          queue = queue.new;
          status = status.new;
        }) }
{
    let lent = Lent {
        heights: h.len(),
        order: order.len(),
        receivers: recv.len(),
        spill: spill.len(),
        areas: area.len(),
        queue: queue.len(),
        status: status.len(),
    };
    refusal(size, h, water_level, lent)?;
    let land = square_land(water_level);
    route_grid(size, h, land, order, recv, spill, area, queue, status);
    Ok(())
}
