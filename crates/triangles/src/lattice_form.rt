// Type 5: the cells of a lattice, in row order. A vertex that an earlier cell has is copied from there inside out, but at the left edge and above
// the first row of cells; the others are read.
ghost use Rattle.std.specs.Prelude.{◌≡◌, ◌+◌, ◌-◌, ◌*◌, ◌/◌, ◌≤◌, ◌<◌, true, cond, length, ltb, Some, None};
ghost use Rattle.lists.specs.Lists.{joined};
ghost use Rattle.lists.specs.Writing.{Written};
ghost use Rattle.answers.specs.Outcome.{Done};
ghost use Rattle.rows.specs.Inner.Sources.{held_ranges, range_list};
ghost use Rattle.rules.specs.Lattice.{lattice};
ghost use Rattle.rules.specs.Meshes.{finished};
ghost use Rattle.meshes.specs.Outcomes.{fitted_mesh};
ghost use Rattle.triangles.specs.Inner.Vertices.{row_size, row_in, row_of_vertex, RowStands};
ghost use Rattle.triangles.specs.Inner.Cells.{Known, cell_numbers, cells_numbers, Above};

use crate::vertices::{Rows, Vertices};
use answers::{Answer, Refusal};

// How many rows the vertices make: none where a row has under two.
fn lattice_rows(total: usize, row: usize) -> usize
    ensures { result ≡ cond (ltb row 2) 0 (total / row) }
{
    if row < 2 { 0 } else { total / row }
}

// Where a row stands, so many numbers before index at, that an earlier cell has. A closure for `then` would need the same contract.
fn back_from(there: bool, at: usize, back: usize) -> Option<usize>
    requires { there ≡ true → back ≤ at }
    ensures { result ≡ cond there (Some (at - back)) None }
{
    if there { Some(at - back) } else { None }
}

// A cell of rows of so many vertices: its first vertex i, and where the rows of i, of i + 1 and of j, the vertex below i, stand in out already.
#[derive(Clone, Copy)]
struct Cell {
    row: usize,
    i: usize,
    left: Option<usize>,
    above: Option<usize>,
    below: Option<usize>,
}

impl Rows<'_> {
    // The row of vertex i, copied from where it stands in out already.
    fn write_row(self, i: usize, from: Option<usize>, out: &mut [f64], at: usize) -> usize
        requires there { i < self.vertices.now.total }
        requires room { at + row_size self.vertices.now ≤ length out.old }
        requires known { Known out.old from (row_size self.vertices.now) at (row_in self i) }
        ensures value { result ≡ at + row_size self.entry.vertices.now }
        ensures written { Written out.old out.new at (row_in self.entry i) result }
    {
        match from {
            Some(from) => self.copy(from, out, at),
            None => self.write(i, out, at),
        }
    }

    // The rows i, i + 1, j, i + 1, j + 1, j.
    fn write_cell(self, cell: Cell, out: &mut [f64], at: usize) -> usize
        requires there { cell.i + cell.row + 1 < self.vertices.now.total }
        requires room { at + 6 * row_size self.vertices.now ≤ length out.old }
        requires left { Known out.old cell.left (row_size self.vertices.now) at (row_in self cell.i) }
        requires above { Known out.old cell.above (row_size self.vertices.now) at (row_in self (cell.i + 1)) }
        requires below { Known out.old cell.below (row_size self.vertices.now) at (row_in self (cell.i + cell.row)) }
        ensures value { result ≡ at + 6 * row_size self.entry.vertices.now }
        ensures written { Written out.old out.new at (cell_numbers (row_in self.entry) cell.row cell.i) result }
    {
        let i = cell.i;
        let j = i + cell.row;
        let p = self.write_row(i, cell.left, out, at);
        let q = self.write_row(i + 1, cell.above, out, p);
        let s = self.write_row(j, cell.below, out, q);
        let t = self.copy(p, out, s);
        let u = self.write(j + 1, out, t);
        self.copy(q, out, u)
    }

    // The cells between the row of vertices that begins with vertex `first` and the next.
    fn write_cells(self, row: usize, first: usize, out: &mut [f64], at: usize) -> usize
        requires two { 2 ≤ row }
        requires there { first + 2 * row ≤ self.vertices.now.total }
        requires room { at + 6 * row_size self.vertices.now * (row - 1) ≤ length out.old }
        requires above { 0 < first → Above (row_in self) out.old (row_size self.vertices.now) row first at }
        ensures value { result ≡ at + 6 * row_size self.entry.vertices.now * (row - 1) }
        ensures written { Written out.old out.new at (cells_numbers (row_in self.entry) row first) result }
    {
        let size = 10 + self.vertices.input.layout.n;
        let back = 6 * size * (row - 1) - 4 * size;
        let mut p = at;
        for c in 0..row - 1 {
            let cell = Cell {
                row,
                i: first + c,
                left: back_from(c > 0, p, 5 * size),
                above: back_from(first > 0, p, back),
                below: back_from(c > 0, p, 2 * size),
            };
            p = self.write_cell(cell, out, p);
        }
        p
    }

    // All cells of so many rows of vertices, to the front of out.
    fn write_lattice(self, row: usize, rows: usize, out: &mut [f64]) -> usize
        requires two { 2 ≤ row }
        requires some { 1 ≤ rows }
        requires there { rows * row ≤ self.vertices.now.total }
        requires room { (rows - 1) * (6 * row_size self.vertices.now * (row - 1)) ≤ length out.old }
        ensures { Written out.old out.new 0 (joined (rows - 1) (λ r. cells_numbers (row_in self.entry) row (r * row))) result }
    {
        let mut p: usize = 0;
        for r in 0..rows - 1 {
            p = self.write_cells(row, r * row, out, p);
        }
        p
    }
}

// Counts, tests for room, and writes. Decode's ranges are worked out only where there is room.
pub fn lattice_form(vertices: &Vertices, decode: &[f64], row: usize, out: &mut [f64]) -> Answer
    ensures { Done (fitted_mesh (finished (lattice vertices.now.total row) (row_of_vertex vertices.now (held_ranges (range_list decode.now vertices.now.input.layout.coord vertices.now.input.layout.comp)))) (length out.old)) out.old result out.new }
{
    let rows = lattice_rows(vertices.total, row);
    if rows < 2 {
        return Ok(0);
    }
    let count = 2 * (rows - 1) * (row - 1);
    let needed = count * (3 * (10 + vertices.input.layout.n));
    if out.len() < needed {
        return Err(Refusal::Room(needed));
    }
    let mut ranges = [rows::NO_RANGE; 34];
    vertices.input.fill_ranges(decode, &mut ranges);
    let rows_of = Rows {
        vertices,
        ranges: &ranges,
    };
    rows_of.write_lattice(row, rows, out);
    Ok(count)
}
