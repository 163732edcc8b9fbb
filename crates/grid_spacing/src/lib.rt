// The spacings of columns and rows, and the distances to neighbours that they give.
#![tactic(auto)]

ghost use Rattle.std.specs.Prelude.{◌≡◌};
ghost use Rattle.grid_spacing.specs.Distances.{distances_of, square_distances, nine_of};

use square_root::root_of;

// The spacing of columns and that of rows.
#[derive(Clone, Copy)]
pub struct Spacing {
    pub column: f32,
    pub row: f32,
}

// The distances to neighbours: to W and E, to N and S, and to the four corners.
#[derive(Clone, Copy)]
pub struct Distances {
    pub column: f32,
    pub row: f32,
    pub diagonal: f32,
}

// The distances that spacings give.
fn distances_of(s: Spacing) -> Distances
    ensures { result ≡ distances_of s }
{
    let column = s.column;
    let row = s.row;
    Distances {
        column: column,
        row: row,
        diagonal: root_of(column * column + row * row),
    }
}

// The distances between square cells: the source's 1 and SQRT_2.
pub fn square_distances() -> Distances
    ensures { result ≡ square_distances }
{
    distances_of(Spacing {
        column: 1.0,
        row: 1.0,
    })
}

// The distances in the directions 0 to 8, in scan order; entry 0, of a cell to itself, is 1.
pub fn direction_distances(ds: Distances) -> [f32; 9]
    ensures { result ≡ nine_of ds }
{
    let column = ds.column;
    let row = ds.row;
    let corner = ds.diagonal;
    [
        1.0, corner, row, corner, column, column, corner, row, corner,
    ]
}
