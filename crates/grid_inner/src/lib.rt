// The inner cells of a map: those on none of its sides. All eight neighbours of an inner cell are cells of the map, so
// a step to one of them needs no test.
#![tactic(auto)]

ghost use Rattle.std.specs.Prelude.{◌≡◌, not, ◌<◌};
ghost use Rattle.grid.specs.Base.{border_at};
ghost use Rattle.grid.specs.Directions.{Step, stepped_at};
ghost use Rattle.grid_inner.specs.Inner.{Inner, inner_of};

use grid::{Sides, at_end};

// The neighbour dx columns and dy rows from an inner cell.
pub fn beside(size: Sides, c: usize, dx: i32, dy: i32) -> usize
    requires inner { Inner size.w size.h c }
    requires step { Step dx dy }
    ensures { result ≡ stepped_at size.w size.h c dx dy }
{
    (c as i64 + dx as i64 + dy as i64 * size.w as i64) as usize
}

// The number of inner cells of row y.
pub fn inner_cells(size: Sides, y: usize) -> usize
    ensures { result ≡ inner_of size.w size.h y }
{
    let w = size.w;
    if w < 3 || at_end(y, size.h) {
        return 0;
    }
    w - 2
}

// Whether cell c lies on no side of its map.
pub fn is_inner(size: Sides, c: usize) -> bool
    requires { 0 < size.w }
    ensures { result ≡ not (border_at size.w size.h c) }
{
    let w = size.w;
    !at_end(c % w, w) && !at_end(c / w, size.h)
}
