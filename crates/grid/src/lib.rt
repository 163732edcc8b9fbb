// The grid that every call works on: sides, cells, the eight neighbours, base level, the first height that is not
// finite, and a copy of heights.
#![tactic(auto)]

ghost use Rattle.std.specs.Prelude.{◌≡◌, ◌&&◌, ◌||◌, ◌-◌, ◌*◌, ◌<◌, max, eqb, length};
ghost use Rattle.grid.specs.Sides.{bad_side, bad_sides};
ghost use Rattle.grid.specs.Directions.{AlongSide, Place, Step, shifted_of, stepped_of};
ghost use Rattle.grid.specs.Base.{open_end, base_at, all_open};
ghost use Rattle.loops.specs.Loops.{place_among};
ghost use Rattle.grid.specs.Heights.{first_not_finite, all_finite};

mod map;

use floats::is_finite;
pub use map::Map;

// A grid of w columns and h rows.
#[derive(Clone, Copy, Debug, PartialEq, Eq)]
pub struct Sides {
    pub w: usize,
    pub h: usize,
}

// Which sides of a map are open: the cells on an open side are base level.
#[derive(Clone, Copy, Debug, PartialEq, Eq)]
pub struct OpenSides {
    pub north: bool,
    pub east: bool,
    pub south: bool,
    pub west: bool,
}

// Column step and row step of each direction: none, NW, N, NE, W, E, SW, S, SE.
pub const DIRX: [i32; 9] = [0, -1, 0, 1, -1, 1, -1, 0, 1];

pub const DIRY: [i32; 9] = [0, -1, -1, -1, 0, 0, 1, 1, 1];

// Document 01's longest side.
pub const SIDE_MAX: usize = 4096;

// Whether a side is outside 1 to 4,096.
fn bad_side(side: usize) -> bool
    ensures { result ≡ bad_side side }
{
    side == 0 || SIDE_MAX < side
}

// Refusal 1: whether either side is outside 1 to 4,096.
pub fn bad_sides(g: Sides) -> bool
    ensures { result ≡ bad_sides g.w g.h }
{
    bad_side(g.w) || bad_side(g.h)
}

// The longest side.
pub fn longest(g: Sides) -> usize
    ensures { result ≡ max g.w g.h }
{
    g.w.max(g.h)
}

// x moved by d, or `side` where that leaves 0 to side - 1. The sign is tested before the cast.
fn shifted(x: usize, d: i32, side: usize) -> usize
    requires { AlongSide x d side }
    ensures { result ≡ shifted_of x d side }
{
    let moved = x as i32 + d;
    if moved < 0 {
        return side;
    }
    let to = moved as usize;
    if to < side {
        return to;
    }
    side
}

// The neighbour dx columns and dy rows from column x, row y, or w × h where that lies outside the grid: the definitions
// of flood, receivers and talus go on with that number.
pub fn neighbour(g: Sides, x: usize, y: usize, dx: i32, dy: i32) -> usize
    requires place { Place g.w g.h x y }
    requires step { Step dx dy }
    ensures { result ≡ stepped_of g.w g.h x y dx dy }
{
    let w = g.w;
    let h = g.h;
    let nx = shifted(x, dx, w);
    if w <= nx {
        return w * h;
    }
    let ny = shifted(y, dy, h);
    if h <= ny {
        return w * h;
    }
    nx + ny * w
}

// Whether x is the first or the last place along a side.
pub fn at_end(x: usize, side: usize) -> bool
    ensures { result ≡ (eqb x 0 || eqb x (side - 1)) }
{
    x == 0 || (side != 0 && x == side - 1)
}

// Four open sides: every border cell is base level.
pub fn all_open() -> OpenSides
    ensures { result ≡ all_open }
{
    OpenSides {
        north: true,
        east: true,
        south: true,
        west: true,
    }
}

// Whether x is `end`, and that end of the side is open.
fn at_open(is_open: bool, x: usize, end: usize) -> bool
    ensures { result ≡ (is_open && eqb x end) }
{
    is_open && x == end
}

// Whether x is an open end of a side: place 0 if `first` is open, place side - 1 if `last` is.
fn open_end(first: bool, last: bool, side: usize, x: usize) -> bool
    ensures { result ≡ open_end first last side x }
{
    at_open(first, x, 0) || at_open(last, x, side.saturating_sub(1))
}

// Whether column x, row y is base level: on an open side, or of a height ≤ the water level.
pub fn is_base(g: Sides, sides: OpenSides, water: f32, x: usize, y: usize, height: f32) -> bool
    ensures { result ≡ base_at g.w g.h sides water x y height }
{
    open_end(sides.west, sides.east, g.w, x)
        || open_end(sides.north, sides.south, g.h, y)
        || height <= water
}

// Whether every height is finite. The loop has no branch, so that several heights can be tested at a time.
pub fn all_finite(hs: &[f32]) -> bool
    ensures { result ≡ all_finite hs.now }
{
    let mut good = true;
    for height in hs {
        good &= is_finite(*height);
    }
    good
}

// Searches the rows for the first cell whose height is not finite. Document 01 requires nested loops that yield the
// cell through the outer label: a `for` yields no value, so rows are counted by hand.
fn search_rows(g: Sides, hs: &[f32]) -> Option<usize>
    requires { length hs.now ≡ g.w * g.h }
    ensures { result ≡ place_among (length hs.now) (first_not_finite hs.now) }
{
    let w = g.w;
    let h = g.h;
    let mut y: usize = 0;
    'rows: loop {
        if h <= y {
            break 'rows None;
        }
        for x in 0..w {
            let cell = x + y * w;
            if !is_finite(hs[cell]) {
                break 'rows Some(cell);
            }
        }
        y += 1;
    }
}

// The first cell, row by row, whose height is not finite, if there is one. The rows are searched only where some height
// is not.
pub fn first_not_finite(g: Sides, hs: &[f32]) -> Option<usize>
    requires { length hs.now ≡ g.w * g.h }
    ensures { result ≡ place_among (length hs.now) (first_not_finite hs.now) }
{
    if all_finite(hs) {
        return None;
    }
    search_rows(g, hs)
}

// Copies the heights of `hmap` to `out`.
pub fn copy_heights(hmap: &[f32], out: &mut [f32])
    requires { length out.old ≡ length hmap.now }
    ensures { out.new ≡ hmap.now }
{
    // Not `copy_from_slice`: that calls memmove, a name that the archives for C would need from outside.
    for (cell, height) in out.iter_mut().enumerate() {
        *height = hmap[cell];
    }
}
