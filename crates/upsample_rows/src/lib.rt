// Bilinear samples row by row. All samples of a row of the map lie between the same two rows of the reduced grid, and
// several rows of the map share these two. So the position of each column of the map among the reduced columns is
// worked out once, and the values there once for each pair of reduced rows.
#![tactic(auto)]

ghost use Rattle.std.specs.Prelude.{◌≡◌, ◌<◌, ◌≤◌, length};
ghost use Rattle.upsample_rows.specs.Rows.{Sampled, centre_of, reduced_column, way_of, Columns, ColumnsPut};
ghost use Rattle.upsample_rows.specs.Rows.{mix_put, Mixes, MixesPut};

use bilinear::SampledMap;
use floats::{fract, index, max, ratio};
use grid::{SIDE_MAX, Sides};

// Where the centre of column (or row) x of a side lies on the reduced one.
fn centre(side: usize, reduced: usize, x: usize) -> f32
    requires { Sampled side reduced x }
    ensures { result ≡ centre_of side reduced x }
{
    let coef = ratio(reduced, side);
    max((x as f32 + 0.5) * coef - 0.5, 0.0)
}

// The reduced column (or row) that the centre of column (or row) x lies in.
fn column(side: usize, reduced: usize, x: usize) -> usize
    requires { Sampled side reduced x }
    ensures { result ≡ reduced_column side reduced x }
{
    index(centre(side, reduced, x), reduced)
}

// How far the centre of column (or row) x lies on the way from its reduced column to the next, as a fraction.
pub fn way(side: usize, reduced: usize, x: usize) -> f32
    requires { Sampled side reduced x }
    ensures { result ≡ way_of side reduced x }
{
    fract(centre(side, reduced, x))
}

// Stores, for each of the w columns of a map, its reduced column in `cs` and its `way` to the next one in `ds`.
pub fn columns(w: usize, dw: usize, cs: &mut [usize; SIDE_MAX], ds: &mut [f32; SIDE_MAX])
    requires { Sampled w dw w }
    ensures { ColumnsPut w dw cs.old ds.old cs.new ds.new }
{
    for x in 0..w {
        cs[x] = column(w, dw, x);
        ds[x] = way(w, dw, x);
    }
}

// Where each of the w columns of a map lies on the dw reduced ones: its reduced column, and its `way` to the next one.
// Two arrays, not one of pairs: pairs of a usize and an f32 take a third more memory. They are lent, so that neither is
// moved.
#[derive(Clone, Copy)]
pub struct ReducedColumns<'a> {
    pub w: usize,
    pub dw: usize,
    pub cs: &'a [usize; SIDE_MAX],
    pub ds: &'a [f32; SIDE_MAX],
    pub ghost sampled: { Sampled w dw w },
    pub ghost placed: { Columns w dw cs.now ds.now },
}

impl<'a> ReducedColumns<'a> {
    // Stores the columns in the arrays lent.
    pub fn new(
        w: usize,
        dw: usize,
        cs: &'a mut [usize; SIDE_MAX],
        ds: &'a mut [f32; SIDE_MAX],
    ) -> ReducedColumns<'a>
        requires { Sampled w dw w }
        ensures full { result.w ≡ w }
        ensures small { result.dw ≡ dw }
        ensures columns_put { ColumnsPut w dw cs.old ds.old result.cs.now result.ds.now }
    {
        columns(w, dw, cs, ds);
        ReducedColumns { w, dw, cs, ds }
    }

    // Stores in `row` the value at each column of the map, `south` rows south of row y of the reduced grid.
    fn mix_row(self, delta: SampledMap<'_>, y: usize, south: usize, row: &mut [f32; SIDE_MAX])
        requires dw_is { self.dw ≡ delta.size.w }
        requires y_lt_h { y < delta.size.h }
        requires south_bound { south ≤ 1 }
        ensures { row.new
            ≡ mix_put delta.entry.v.now delta.entry.size.w delta.entry.size.h self.entry.w y south row.old }
    {
        for x in 0..self.w {
            row[x] = delta.across(self.cs[x], self.ds[x], y, south);
        }
    }

    // Stores the values at each column of the map: in `north` those in row y of the reduced grid, in `south` those in
    // the next row.
    pub fn mix_rows(
        self,
        delta: SampledMap<'_>,
        y: usize,
        north: &mut [f32; SIDE_MAX],
        south: &mut [f32; SIDE_MAX],
    )
        requires dw_is { self.dw ≡ delta.size.w }
        requires y_lt_h { y < delta.size.h }
        ensures { MixesPut delta.entry.v.now delta.entry.size.w delta.entry.size.h self.entry.w y
            north.old south.old north.new south.new }
    {
        self.mix_row(delta, y, 0, north);
        self.mix_row(delta, y, 1, south);
    }
}

// The values in two neighbouring rows of a reduced grid, at each of the columns: in `north` those in row `held`, in
// `south` those in the next row. Both arrays are lent, each at a lifetime of its own: so their owner knows what they
// hold in the end.
#[derive(Drop)]
pub struct MixedRows<'a, 'n, 's> {
    pub delta: SampledMap<'a>,
    pub columns: ReducedColumns<'a>,
    pub held: usize,
    pub north: &'n mut [f32; SIDE_MAX],
    pub south: &'s mut [f32; SIDE_MAX],
    pub ghost dw_is: { columns.dw ≡ delta.size.w },
    pub ghost mixes: { Mixes delta.v.now delta.size.w delta.size.h columns.w held north.now south.now },
}

impl<'a, 'n, 's> MixedRows<'a, 'n, 's> {
    // Stores the values in the first two rows of the reduced grid.
    pub fn new(
        delta: SampledMap<'a>,
        columns: ReducedColumns<'a>,
        north: &'n mut [f32; SIDE_MAX],
        south: &'s mut [f32; SIDE_MAX],
    ) -> MixedRows<'a, 'n, 's>
        requires { columns.dw ≡ delta.size.w }
        ensures map { result.delta ≡ delta.entry }
        ensures across { result.columns ≡ columns.entry }
        ensures first { result.held ≡ 0 }
        ensures mixes_put { MixesPut delta.entry.v.now delta.entry.size.w delta.entry.size.h columns.entry.w
            0 north.old south.old result.north.now result.south.now }
        ensures north_lent { result.north.ghost_name ≡ north.entry.ghost_name }
        ensures south_lent { result.south.ghost_name ≡ south.entry.ghost_name }
    {
        columns.mix_rows(delta, 0, north, south);
        MixedRows {
            delta,
            columns,
            held: 0,
            north,
            south,
        }
    }

    // Stores the values in the two reduced rows around row y of a map of h rows, and returns how far row y lies on the
    // way from one to the other. Where these are the rows held, nothing is worked out again.
    pub fn prepare(&mut self, h: usize, y: usize) -> f32
        requires { Sampled h self.old.delta.size.h y }
        ensures map { self.new.delta ≡ self.old.delta }
        ensures across { self.new.columns ≡ self.old.columns }
        ensures way_is { result ≡ way_of h self.old.delta.size.h y }
        ensures value { self.new.held ≡ reduced_column h self.old.delta.size.h y }
        ensures mixes_put { MixesPut self.old.delta.v.now self.old.delta.size.w
            self.old.delta.size.h self.old.columns.w self.new.held self.old.north.now
            self.old.south.now self.new.north.now self.new.south.now }
        ensures north_lent { self.new.north.ghost_name ≡ self.old.north.ghost_name }
        ensures south_lent { self.new.south.ghost_name ≡ self.old.south.ghost_name }
    {
        let dy = way(h, self.delta.size.h, y);
        let row = column(h, self.delta.size.h, y);
        if row == self.held {
            return dy;
        }
        self.held = row;
        self.columns
            .mix_rows(self.delta, row, self.north, self.south);
        dy
    }
}
