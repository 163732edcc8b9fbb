// A height for each cell of a grid.

ghost use Rattle.std.specs.Prelude.{◌≡◌, ◌*◌, length};

use crate::Sides;

// The heights of a grid, row by row.
#[derive(Clone, Copy)]
pub struct Map<'a> {
    pub size: Sides,
    pub heights: &'a [f32],
    pub ghost whole: { length heights.now ≡ size.w * size.h },
}
