// The rows of a stream: their marks, the search for a height that is not finite, and the map that they fill
// (specs/Rows.antt).
#![tactic(auto)]

ghost use Rattle.std.specs.Prelude.{◌≡◌, ◌*◌, ◌<◌, length};
ghost use Rattle.grid.specs.Sides.{InRange};
ghost use Rattle.loops.specs.Loops.{place_among};
ghost use Rattle.grid.specs.Heights.{first_not_finite, all_finite};
ghost use Rattle.stream_rows.specs.Rows.{row_length, row_at, rows_marked, height_at, row_heights, heights_at, Framed};

use floats::is_finite;
use grid::Sides;
use stream_bytes::{has_mark, read_f32};

// The mark of a row.
pub const ROW: [u8; 2] = *b"RW";

// The bytes of all rows of a grid.
pub fn rows_length(size: Sides) -> usize
    requires { InRange size.w size.h }
    ensures { result ≡ size.h * row_length size.w }
{
    size.h * (2 + 4 * size.w)
}

// The rows of a grid: they begin at byte `at` of the stream and go to its end.
#[derive(Clone, Copy)]
pub struct Rows<'a> {
    pub bytes: &'a [u8],
    pub at: usize,
    pub size: Sides,
    pub ghost framed: { Framed bytes.now at size.w size.h },
}

impl Rows<'_> {
    // Where row y begins.
    fn row_at(&self, y: usize) -> usize
        requires { y < self.now.size.h }
        ensures { result ≡ row_at self.now.at self.now.size.w y }
    {
        self.at + y * (2 + 4 * self.size.w)
    }

    // Whether all rows have their mark.
    pub fn rows_marked(&self) -> bool
        ensures { result ≡ rows_marked self.now.bytes.now self.now.at self.now.size.w self.now.size.h }
    {
        for y in 0..self.size.h {
            if !has_mark(self.bytes, self.row_at(y), &ROW) {
                return false;
            }
        }
        true
    }

    // The height of column x, row y.
    fn height_at(&self, x: usize, y: usize) -> f32
        requires x_lt_w { x < self.now.size.w }
        requires y_lt_h { y < self.now.size.h }
        ensures { result ≡ height_at self.now.bytes.now self.now.at self.now.size.w x y }
    {
        read_f32(self.bytes, self.row_at(y) + (2 + 4 * x))
    }

    // Whether every height of row y is finite, with no branch, so that several can be tested at a time.
    fn row_finite(&self, y: usize) -> bool
        requires { y < self.now.size.h }
        ensures { result ≡ all_finite (row_heights self.now.bytes.now self.now.at self.now.size.w y) }
    {
        let mut good = true;
        for x in 0..self.size.w {
            good &= is_finite(self.height_at(x, y));
        }
        good
    }

    // The first cell, row by row, whose height is not finite, if there is one. A row is searched only where some height
    // of it is not. A `loop`: document 01 requires that it yield the cell through the outer label.
    pub fn first_bad_height(&self) -> Option<usize>
        ensures { result ≡ place_among (self.now.size.w * self.now.size.h)
            (first_not_finite (heights_at self.now.bytes.now self.now.at self.now.size.w self.now.size.h)) }
    {
        let w = self.size.w;
        let h = self.size.h;
        let mut y: usize = 0;
        'rows: loop {
            if h <= y {
                break 'rows None;
            }
            if !self.row_finite(y) {
                for x in 0..w {
                    let cell = x + y * w;
                    if !is_finite(self.height_at(x, y)) {
                        break 'rows Some(cell);
                    }
                }
            }
            y += 1;
        }
    }

    // Writes the heights of row y.
    fn read_row(&self, y: usize, row: &mut [f32])
        requires y_lt_h { y < self.now.size.h }
        requires row_len { length row.old ≡ self.now.size.w }
        ensures { row.new ≡ row_heights self.now.bytes.now self.now.at self.now.size.w y }
    {
        for (x, height) in row.iter_mut().enumerate() {
            *height = self.height_at(x, y);
        }
    }

    // Writes the heights of the stream into the map.
    pub fn load(&self, map: &mut [f32])
        requires { length map.old ≡ self.now.size.w * self.now.size.h }
        ensures { map.new ≡ heights_at self.now.bytes.now self.now.at self.now.size.w self.now.size.h }
    {
        let w = self.size.w;
        for y in 0..self.size.h {
            let from = y * w;
            self.read_row(y, &mut map[from..from + w]);
        }
    }
}
