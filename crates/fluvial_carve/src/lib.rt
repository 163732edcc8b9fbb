// A routing and the incision along the network that it found.
#![tactic(auto)]

ghost use Rattle.std.specs.Prelude.{◌≡◌, false, ◌*◌};
ghost use Rattle.drainage.specs.Ground.{grid_ground, no_base};
ghost use Rattle.flood.specs.Slices.{AcceptedGrid};
ghost use Rattle.flow.specs.Route.{lent_of, Enough};
ghost use Rattle.fluvial_carve.specs.Carve.{Carves, CarveMade};

use answers::Refusal;
use drainage::Land;
use flow::{route, route_grid};
use fluvial_erosion::{FluvialParams, incise_along, incise_into};
use grid::Sides;
use grid_spacing::square_distances;

// Routes a grid that is not refused and has a base cell, and leaves its heights in `out`, incised by the areas that the
// routing left. For whole runs, which check their input once. The queue and the statuses are scratch.
pub fn carve_grid(
    size: Sides,
    hmap: &[f32],
    land: Land,
    params: FluvialParams,
    order: &mut [u32],
    recv: &mut [u32],
    out: &mut [f32],
    area: &mut [f32],
    queue: &mut [u32],
    status: &mut [u8],
)
    requires accepted_grid { AcceptedGrid size.w size.h hmap.now }
    requires enough { Enough (size.w * size.h)
        (lent_of hmap.now order.old recv.old out.old area.old queue.old status.old) }
    requires hmap_value { no_base (grid_ground size.w size.h land hmap.now) ≡ false }
    ensures { Carves size.w size.h land params hmap.now order.new recv.new
        out.new area.new }
{
    route_grid(size, hmap, land, order, recv, out, area, queue, status);
    incise_along(size, hmap, params, land.distances, recv, order, out, area);
}

// Routes a map on document 01's land and leaves its heights in `out`, incised by areas that the incision adds up again.
// For the bench, no public call: it refuses what `route` refuses; k, uplift and a result that is not finite are not
// tested. The queue and the statuses are scratch.
pub fn carve(
    size: Sides,
    hmap: &[f32],
    params: FluvialParams,
    order: &mut [u32],
    recv: &mut [u32],
    out: &mut [f32],
    area: &mut [f32],
    queue: &mut [u32],
    status: &mut [u8],
) -> Result<(), Refusal>
    ensures { CarveMade size.w size.h hmap.now params
        (record {
          order = order.old;
          recv = recv.old;
          spill = out.old;
          area = area.old;
          queue = queue.old;
          status = status.old;
        }) result
        (record {
          order = order.new;
          recv = recv.new;
          spill = out.new;
          area = area.new;
          queue = queue.new;
          status = status.new;
        }) }
{
    let water = params.water_level;
    route(size, hmap, water, order, recv, out, area, queue, status)?;
    let ds = square_distances();
    incise_into(size, hmap, params, ds, recv, order, out, area);
    Ok(())
}
