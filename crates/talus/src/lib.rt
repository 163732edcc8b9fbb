// Talus on cells and rows: what a cell steeper than its thresholds sheds, and where that goes. Heights are read from a
// map; gains and losses go to `out`. No struct lends both: each contract on one that holds a `&mut` would have to say
// that it still lends the same two slices. The thresholds of the directions are prepared once before the rows.
#![tactic(auto)]

ghost use Rattle.std.specs.Prelude.{◌≡◌, true, cond, ◌+◌, ◌*◌, ◌<◌, ◌≤◌, length, MatchOption};
ghost use Rattle.std.specs.Float.{binary32};
ghost use Rattle.std.specs.Float.Ieee.{of_bits, lt};
ghost use Rattle.grid.specs.Directions.{Step, stepped_at};
ghost use Rattle.grid_inner.specs.Inner.{Inner};
ghost use Rattle.talus.specs.Talus.{prepared_of, table_of, thresholds_of, excess_over, shed_to, shed_of, gain_to};
ghost use Rattle.talus.specs.Talus.{gains_of, slide_cell, slide_cells};
ghost use Rattle.talus.specs.Places.{CellAt, InRow};

use floats::max;
use grid::{DIRX, DIRY, Map, neighbour};
use grid_inner::beside;
use grid_spacing::Distances;

// The total of the excesses counted so far, and the greatest of them.
#[derive(Clone, Copy)]
pub struct Shed {
    pub total: f32,
    pub greatest: f32,
}

// How the cells of a map slide: the threshold of each direction, the share of its greatest excess that a cell loses,
// and the water level, below which a cell sheds nothing.
#[derive(Clone, Copy)]
pub struct Slide {
    pub thresholds: [f32; 9],
    pub strength: f32,
    pub water: f32,
}

// Cell c of a map, in column x and row y.
#[derive(Clone, Copy)]
pub struct Cell<'a> {
    pub map: Map<'a>,
    pub x: usize,
    pub y: usize,
    pub c: usize,
    ghost at: { CellAt map.size.w map.size.h (length map.heights.now) x y c },
}

// The n cells from column x on, in row y of a map.
#[derive(Clone, Copy)]
pub struct Stretch<'a> {
    pub map: Map<'a>,
    pub y: usize,
    pub x: usize,
    pub n: usize,
    ghost in_row: { InRow map.size.w map.size.h (length map.heights.now) y x n },
}

impl<'a> Stretch<'a> {
    // The cell i places after the first.
    pub fn cell(self, i: usize) -> Cell<'a>
        requires { i < self.n }
        ensures map { result.map ≡ self.entry.map }
        ensures c { result.c ≡ self.entry.x + i + self.entry.y * self.entry.map.size.w }
    {
        let x = self.x + i;
        Cell {
            map: self.map,
            x,
            y: self.y,
            c: x + self.y * self.map.size.w,
        }
    }
}

// The eight thresholds of t in scan order: t toward the sides, t × the diagonal toward the corners.
pub fn prepare(t: f32, ds: Distances) -> [f32; 8]
    ensures { result ≡ prepared_of t ds }
{
    let d = t * ds.diagonal;
    [d, t, d, t, t, d, t, d]
}

// The table of eight thresholds that are given in scan order: entry d is that of direction d. Entry 0 stands for no
// direction.
pub fn table(eight: [f32; 8]) -> [f32; 9]
    ensures { result ≡ table_of eight }
{
    let [nw, n, ne, w, e, sw, s, se] = eight;
    [n, nw, n, ne, w, e, sw, s, se]
}

// The thresholds of the directions: t toward the sides, and t × the diagonal toward the corners.
pub fn thresholds(t: f32, ds: Distances) -> [f32; 9]
    ensures { result ≡ thresholds_of t ds }
{
    table(prepare(t, ds))
}

// Returns `counted` where the excess e is counted, that is above 0, else `not`. Both are computed before: a select, not
// a branch.
fn where_counted(e: f32, counted: f32, not: f32) -> f32
    ensures { result ≡ cond (lt (of_bits binary32 0) e) counted not }
{
    if e > 0.0 { counted } else { not }
}

// The excess of cell c toward cell m over a threshold.
pub fn excess(hmap: &[f32], c: usize, m: usize, threshold: f32) -> f32
    requires c_in_bounds { c < length hmap.now }
    requires m_in_bounds { m < length hmap.now }
    ensures { result ≡ excess_over hmap.now c m threshold }
{
    (hmap[c] - hmap[m]) - threshold
}

// Returns `s` with the excess of cell c toward cell m in direction d, which is counted if it is above 0.
fn shed_at(slide: &Slide, hmap: &[f32], c: usize, m: usize, d: usize, s: Shed) -> Shed
    requires c_in_bounds { c < length hmap.now }
    requires m_in_bounds { m < length hmap.now }
    requires d_bound { d < 9 }
    ensures { result ≡ shed_to slide.now.thresholds hmap.now c m d s }
{
    let e = excess(hmap, c, m, slide.thresholds[d]);
    Shed {
        total: where_counted(e, s.total + e, s.total),
        greatest: where_counted(e, max(s.greatest, e), s.greatest),
    }
}

// Adds cell m's gain to its height in `out`, if the excess of cell c toward it in direction d is counted.
fn gain_at(
    slide: &Slide,
    hmap: &[f32],
    out: &mut [f32],
    c: usize,
    m: usize,
    d: usize,
    moved: f32,
    total: f32,
)
    requires out_len { length out.old ≡ length hmap.now }
    requires c_in_bounds { c < length hmap.now }
    requires m_in_bounds { m < length hmap.now }
    requires d_bound { d < 9 }
    ensures { out.new
        ≡ gain_to slide.now.thresholds hmap.now c m moved total d out.old }
{
    let e = excess(hmap, c, m, slide.thresholds[d]);
    let old = out[m];
    out[m] = where_counted(e, old + moved * e / total, old);
}

// Returns the neighbour dx columns and dy rows from a cell, if the map has one there. `INNER` says that the cell is an
// inner one: it has all eight, and none is tested.
fn toward<const INNER: bool>(cell: Cell, dx: i32, dy: i32) -> Option<usize>
    requires step { Step dx dy }
    requires inner { INNER ≡ true → Inner cell.map.size.w cell.map.size.h cell.c }
    ensures { let a = cell.entry in
        MatchOption result (a.map.size.w * a.map.size.h ≤ stepped_at a.map.size.w a.map.size.h a.c dx dy)
        (λ m. (m ≡ stepped_at a.map.size.w a.map.size.h a.c dx dy) × (m < a.map.size.w * a.map.size.h)) }
{
    let size = cell.map.size;
    if INNER {
        return Some(beside(size, cell.c, dx, dy));
    }
    let m = neighbour(size, cell.x, cell.y, dx, dy);
    if m < size.w * size.h { Some(m) } else { None }
}

// Returns the total and the greatest of a cell's counted excesses in its eight directions. `INNER` says that the cell
// is an inner one.
pub fn shed_around<const INNER: bool>(slide: &Slide, cell: Cell) -> Shed
    requires { INNER ≡ true → Inner cell.map.size.w cell.map.size.h cell.c }
    ensures { let a = cell.entry in
        result ≡ shed_of a.map.size.w a.map.size.h slide.now.thresholds a.map.heights.now a.c }
{
    let mut s = Shed {
        total: 0.0,
        greatest: 0.0,
    };
    for d in 1..9 {
        if let Some(m) = toward::<INNER>(cell, DIRX[d], DIRY[d]) {
            s = shed_at(slide, cell.map.heights, cell.c, m, d, s);
        }
    }
    s
}

// Adds the gains of a cell's counted neighbours to their heights in `out`. `INNER` says that the cell is an inner one.
pub fn gain_around<const INNER: bool>(
    slide: &Slide,
    out: &mut [f32],
    cell: Cell,
    moved: f32,
    total: f32,
)
    requires out_len { length out.old ≡ length cell.map.heights.now }
    requires inner { INNER ≡ true → Inner cell.map.size.w cell.map.size.h cell.c }
    ensures { let a = cell.entry in
        out.new ≡ gains_of a.map.size.w a.map.size.h slide.now.thresholds a.map.heights.now a.c moved total out.old }
{
    for d in 1..9 {
        if let Some(m) = toward::<INNER>(cell, DIRX[d], DIRY[d]) {
            gain_at(slide, cell.map.heights, out, cell.c, m, d, moved, total);
        }
    }
}

// Slides one cell, inner or not: it loses strength × its greatest excess, and its counted neighbours gain. Below the
// water level, or with no excess, it sheds nothing.
fn slide_cell(slide: &Slide, out: &mut [f32], cell: Cell)
    requires { length out.old ≡ length cell.map.heights.now }
    ensures { let a = cell.entry in
        out.new ≡ slide_cell a.map.size.w a.map.size.h slide.now.thresholds a.map.heights.now slide.now.strength
        slide.now.water a.c out.old }
{
    let c = cell.c;
    if cell.map.heights[c] < slide.water {
        return;
    }
    let s = shed_around::<false>(slide, cell);
    if s.total <= 0.0 {
        return;
    }
    let moved = slide.strength * s.greatest;
    out[c] = out[c] - moved;
    gain_around::<false>(slide, out, cell, moved, s.total);
}

// Slides the cells of a stretch, from the west.
pub fn slide_cells(slide: &Slide, out: &mut [f32], cells: Stretch)
    requires { length out.old ≡ length cells.map.heights.now }
    ensures { let a = cells.entry in
        out.new ≡ slide_cells a.map.size.w a.map.size.h slide.now.thresholds a.map.heights.now slide.now.strength
        slide.now.water a.y a.x a.n out.old }
{
    for i in 0..cells.n {
        slide_cell(slide, out, cells.cell(i));
    }
}
