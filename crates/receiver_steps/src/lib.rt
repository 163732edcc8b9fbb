// The step from a cell to its receiver: its distance and, on a grid of three columns or more, its number. On such a
// grid the distance is read from a table, by the difference of the two cell numbers or by the number of the step,
// without a division.
#![tactic(auto)]

ghost use Rattle.std.specs.Prelude.{◌≡◌, cond, ◌+◌, ◌-◌, ◌*◌, ◌/◌, ◌%◌, ◌≤◌, ◌<◌};
ghost use Rattle.receiver_steps.specs.Distance.{apart};
ghost use Rattle.receiver_steps.specs.Step.{place_distances, step_distances, step_offsets, distance_place};
ghost use Rattle.receiver_steps.specs.Step.{step_of, stepped_to, Near};

use grid_spacing::Distances;

// Returns the distance from cell i to its receiver r, by the distances `ds`: 1 if r is i itself, else that to the
// neighbour r.
pub fn receiver_distance(i: usize, r: usize, width: usize, ds: Distances) -> f32
    requires { 0 < width }
    ensures { result ≡ apart ds width i r }
{
    let same_column = i % width == r % width;
    let same_row = i / width == r / width;
    match (same_column, same_row) {
        (true, true) => 1.0,
        (true, false) => ds.row,
        (false, true) => ds.column,
        (false, false) => ds.diagonal,
    }
}

// The table of distances for `step_place`: of cells whose numbers differ by 0, by 1, and by w - 1, w and w + 1.
pub fn place_distances(ds: Distances) -> [f32; 5]
    ensures { result ≡ place_distances ds }
{
    [1.0, ds.column, ds.diagonal, ds.row, ds.diagonal]
}

// The entry of `place_distances` for cell i and its receiver r, which is i itself or one of its 8 neighbours.
pub fn step_place(i: usize, r: usize, width: usize) -> usize
    requires near { Near width i r }
    requires le_width { 3 ≤ width }
    ensures { result ≡ distance_place width i r }
{
    let between = i.abs_diff(r);
    if between < 2 {
        return between;
    }
    between + 3 - width
}

// The step from cell i to its receiver r, below 16: r's column counted from the one west of i, plus 4 times its row
// counted from the one north of i.
pub fn step_of(i: u32, r: u32, width: u32) -> u32
    requires near { Near width i r }
    requires columns { 3 ≤ width }
    requires cells { (i < 4096 * 4096) × (r < 4096 * 4096) }
    ensures { result ≡ step_of width i r }
{
    let past = r + width + 1 - i;
    if past < width {
        return past;
    }
    if past < width + width {
        return past + 4 - width;
    }
    past + 8 - width - width
}

// The steps on a grid of `width` columns: for each, the number of the cell that it leads to minus the number of the
// north-west neighbour. A table, since it is read for each cell.
#[derive(Drop)]
pub struct Steps {
    pub width: usize,
    pub offsets: [usize; 16],
    pub ghost wide: { width ≤ 4096 },
    pub ghost made: { offsets ≡ step_offsets width },
}

impl Steps {
    pub fn new(width: usize) -> Self
        requires { width ≤ 4096 }
        ensures { result.width ≡ width }
    {
        let mut offsets: [usize; 16] = [0; 16];
        for (s, offset) in offsets.iter_mut().enumerate() {
            *offset = s % 4 + s / 4 * width;
        }
        Steps { width, offsets }
    }

    // The cell that a step from cell c leads to.
    pub fn leads_to(&self, c: usize, step: usize) -> usize
        requires c_bound { (c < 4096 * 4096) × (step < 16) }
        requires past { self.now.width + 1 ≤ c + step % 4 + step / 4 * self.now.width }
        ensures { result ≡ stepped_to self.now.width c step }
    {
        c + self.offsets[step] - self.width - 1
    }
}

// The table of distances by the number of the step; 1 for a number that is no step.
pub fn step_distances(ds: Distances) -> [f32; 16]
    ensures { result ≡ step_distances ds }
{
    let column = ds.column;
    let row = ds.row;
    let corner = ds.diagonal;
    [
        corner, row, corner, 1.0, column, 1.0, column, 1.0, corner, row, corner, 1.0, 1.0, 1.0,
        1.0, 1.0,
    ]
}
