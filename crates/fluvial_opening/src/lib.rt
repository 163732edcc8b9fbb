// How an iteration of gen_fluvial_erosion opens: the question of the stop marks, the routing of the heights as they
// then stand, and one incision along the flood's own order.
#![tactic(auto)]

ghost use Rattle.std.specs.Prelude.{◌≡◌, false, ◌*◌};
ghost use Rattle.drainage.specs.Ground.{grid_ground, no_base};
ghost use Rattle.flood.specs.Slices.{AcceptedGrid};
ghost use Rattle.flow.specs.Route.{Enough};
ghost use Rattle.run_parts.specs.Reached.{going, worked_of};
ghost use Rattle.fluvial_opening.specs.Opening.{Counts, after_opening, lent_to, SameSlices};

use drainage::Land;
use fluvial_carve::carve_grid;
use fluvial_erosion::FluvialParams;
use grid::{Sides, all_finite, copy_heights};
use run_parts::{End, Ended, Reached, halt};

// The slices that an iteration works in besides the map: scratch of a cell's value each.
#[derive(Drop)]
pub struct Scratch<'a> {
    pub copy: &'a mut [f32],
    pub area: &'a mut [f32],
    pub order: &'a mut [u32],
    pub recv: &'a mut [u32],
    pub queue: &'a mut [u32],
    pub status: &'a mut [u8],
}

// Opens an iteration at the fraction p of the run. The copy becomes the map only where every height of it is finite; a
// stop comes before the routing.
pub fn open_iteration(
    size: Sides,
    hmap: &mut [f32],
    land: Land,
    params: FluvialParams,
    p: f32,
    stop: u32,
    r: Reached,
    s: &mut Scratch,
) -> Result<Reached, Ended>
    requires accepted_grid { AcceptedGrid size.w size.h hmap.old }
    requires enough { Enough (size.w * size.h) (lent_to hmap.old s.old) }
    requires counts { Counts (going r) }
    requires hmap_value { no_base (grid_ground size.w size.h land hmap.old) ≡ false }
    ensures same { SameSlices s.old s.new }
    ensures lengths { lent_to hmap.new s.new ≡ lent_to hmap.old s.old }
    ensures opened { worked_of hmap.new result ≡ after_opening size.w size.h land params p stop hmap.old (going r) }
{
    let marks = r.marks.ask(p, stop);
    if marks.stopped {
        return Err(halt(End::Stopped, marks, r));
    }
    let copy = &mut *s.copy;
    carve_grid(
        size, hmap, land, params, s.order, s.recv, copy, s.area, s.queue, s.status,
    );
    if !all_finite(copy) {
        return Err(halt(End::RunOff, marks, r));
    }
    copy_heights(copy, hmap);
    Ok(Reached {
        marks,
        incisions: r.incisions + 1,
        ..r
    })
}
