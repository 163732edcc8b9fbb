// Refusal 6: the check of lent receivers. Nothing lent is written before it is decided.
#![tactic(auto)]

ghost use Rattle.std.specs.Prelude.{◌≡◌, ◌+◌, ◌-◌, ◌*◌, ◌<◌, ◌≤◌, min, not, length};
ghost use Rattle.loops.specs.Loops.{place_among, Searched};
ghost use Rattle.loops.specs.Firsts.{First};
ghost use Rattle.grid.specs.Sides.{InRange, cell_of};
ghost use Rattle.grid.specs.Directions.{Place};
ghost use Rattle.lent_receivers.specs.Receivers.{beside_inner, inner_pass, row_passes, good_receiver, receiver_test};
ghost use Rattle.lent_receivers.specs.Receivers.{first_bad_receiver};

use grid::Sides;

// Whether r is neither the cell of column x and row y nor a neighbour of it: those stand from one column before it to
// one after it, in three rows.
fn bad_receiver(size: Sides, x: usize, y: usize, r: usize) -> bool
    requires { Place size.w size.h x y }
    ensures { result ≡ not (good_receiver size.w size.h (cell_of size.w x y) r) }
{
    let w = size.w;
    if w * size.h <= r {
        return true;
    }
    let c = x + y * w;
    let from = c - x.min(1);
    let to = c + (w - 1 - x).min(1);
    let above = (from <= r + w) & (r + w <= to);
    let level = (from <= r) & (r <= to);
    let below = (from + w <= r) & (r <= to + w);
    !(above | level | below)
}

// Whether r is an inner cell or a neighbour of it, without a branch. `from` is the first of these nine cells.
fn is_near(r: u32, from: u32, w: u32) -> bool
    requires { from + w + w ≤ 4096 * 4096 }
    ensures { result ≡ beside_inner w (from + (w + 1)) r }
{
    let past = r.wrapping_sub(from);
    (past < 3) | (past.wrapping_sub(w) < 3) | (past.wrapping_sub(w + w) < 3)
}

// The lent receivers of a grid, one for each cell.
#[derive(Clone, Copy)]
struct Receivers<'a> {
    size: Sides,
    recv: &'a [u32],
    ghost in_range: { InRange size.w size.h },
    ghost recv_len: { length recv.now ≡ size.w * size.h },
}

impl Receivers<'_> {
    // Whether the receiver of every inner cell of an inner row y is that cell or a neighbour of it. `above` is the
    // first cell of the row above.
    fn inner_pass(&self, y: usize) -> bool
        requires wide { 3 ≤ self.now.size.w }
        requires north { 1 ≤ y }
        requires south { y + 1 < self.now.size.h }
        ensures { result ≡ inner_pass self.now.size.w self.now.recv.now y }
    {
        let w = self.size.w;
        let n = w - 2;
        let above = (y * w - w) as u32;
        let mut good = true;
        // Counted: i numbers the receiver and the nine cells that it is looked for among.
        for i in 0..n {
            good &= is_near(self.recv[1 + i + y * w], above + (i as u32), w as u32);
        }
        good
    }

    // A quick test that row y has no bad receiver: true for an inner row with good receivers at both ends and in all
    // inner cells. Where it is false, the row may still have no bad receiver.
    fn row_passes(&self, y: usize) -> bool
        requires { y < self.now.size.h }
        ensures { result ≡ row_passes self.now.size.w self.now.size.h self.now.recv.now y }
    {
        let w = self.size.w;
        if w < 3 || y == 0 || y + 1 == self.size.h {
            return false;
        }
        let first = self.recv[y * w] as usize;
        let last = self.recv[w - 1 + y * w] as usize;
        !bad_receiver(self.size, 0, y, first)
            && !bad_receiver(self.size, w - 1, y, last)
            && self.inner_pass(y)
    }

    // Returns the first column of row y with a bad receiver.
    fn first_in_row(&self, y: usize) -> Option<usize>
        requires { y < self.now.size.h }
        ensures { Searched self.now.size.w
            (First self.now.size.w (λ x. receiver_test self.now.size.w self.now.size.h self.now.recv.now
            (cell_of self.now.size.w x y))) result }
    {
        let w = self.size.w;
        if self.row_passes(y) {
            return None;
        }
        // Counted: the column is the answer, and `bad_receiver` asks for it.
        for x in 0..w {
            if bad_receiver(self.size, x, y, self.recv[x + y * w] as usize) {
                return Some(x);
            }
        }
        None
    }
}

// Refusal 6: returns the first cell with a bad receiver.
pub fn first_bad_receiver(size: Sides, recv: &[u32]) -> Option<usize>
    requires in_range { InRange size.w size.h }
    requires recv_len { length recv.now ≡ size.w * size.h }
    ensures { result ≡ place_among (size.w * size.h) (first_bad_receiver size.w size.h recv.now) }
{
    let lent = Receivers { size, recv };
    for y in 0..size.h {
        if let Some(x) = lent.first_in_row(y) {
            return Some(x + y * size.w);
        }
    }
    None
}
