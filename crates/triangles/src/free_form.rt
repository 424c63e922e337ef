// Type 4: triangles by the flags of their vertices. Counted first, by the flags alone; then each vertex is read once, and the rows that a
// triangle shares with those before it are copied inside out.
ghost use Rattle.std.specs.Prelude.{◌≡◌, ◌+◌, ◌-◌, ◌*◌, ◌≤◌, cond, length, eqb};
ghost use Rattle.lists.specs.Lists.{flat};
ghost use Rattle.lists.specs.Writing.{Written};
ghost use Rattle.answers.specs.Outcome.{Done};
ghost use Rattle.rows.specs.Inner.Sources.{held_ranges, range_list};
ghost use Rattle.rules.specs.Triangles.{triangle_before, tri, corners};
ghost use Rattle.rules.specs.Meshes.{finished};
ghost use Rattle.meshes.specs.Outcomes.{fitted_mesh};
ghost use Rattle.triangles.specs.Inner.Vertices.{row_size, row_in, row_of_vertex, rule_of, triangles_in, kept_index};

use crate::vertices::{Rows, Vertices};
use answers::{Answer, Refusal};

// From which three vertices it goes on after flag 2: those of the new triangle, or the last three that were kept.
#[derive(Clone, Copy)]
pub enum Rule {
    TriangleBefore,
    LastThree,
}

impl Rule {
    // Where the row of the next va stands, when a triangle joined by the flag has been written from `at` on: it is that triangle's first. After
    // flag 2 the last three vertices begin with vb.
    fn kept_row(self, flag: u32, size: usize, at: usize) -> usize
        requires few { size ≤ 100 }
        requires before { 2 * size ≤ at }
        ensures { result ≡ kept_index self flag size at }
    {
        match self {
            Rule::LastThree if flag == 2 => at - 2 * size,
            _ => at,
        }
    }
}

impl Vertices<'_> {
    // How many triangles the flags give. Both rules give equally many.
    fn count_triangles(&self) -> usize
        requires { 1 ≤ self.now.input.layout.flag }
        ensures value { result ≡ length (triangles_in triangle_before self.now) }
        ensures few { result ≤ self.now.total }
    {
        let total = self.total;
        let mut count: usize = 0;
        let mut i: usize = 0;
        while i < total { // by one or by three
            let flag = self.flag(i);
            if flag == 0 {
                if total - i < 3 {
                    return count;
                }
                count += 1;
                i += 3;
            } else if count > 0 && flag < 3 {
                count += 1;
                i += 1;
            } else {
                i += 1;
            }
        }
        count
    }
}

// Where the row of the first vertex of the shared side stands: vb for flag 1, va for flag 2. The row of va stands at `first`, those of vb and vc
// right before `at`.
fn side_row(flag: u32, first: usize, size: usize, at: usize) -> usize
    requires few { size ≤ 100 }
    requires before { 2 * size ≤ at }
    ensures { result ≡ cond (eqb flag 1) (at - 2 * size) first }
{
    if flag == 1 { at - 2 * size } else { first }
}

impl Rows<'_> {
    // The rows of the vertices i, i + 1 and i + 2: a triangle joined to no other.
    fn write_three(self, i: usize, out: &mut [f64], at: usize) -> usize
        requires there { i + 3 ≤ self.vertices.now.total }
        requires room { at + 3 * row_size self.vertices.now ≤ length out.old }
        ensures value { result ≡ at + 3 * row_size self.entry.vertices.now }
        ensures written { Written out.old out.new at (corners (row_in self.entry) (tri i (i + 1) (i + 2))) result }
    {
        let p = self.write(i, out, at);
        let q = self.write(i + 1, out, p);
        self.write(i + 2, out, q)
    }

    // Writes all triangles to the front of out, which has room for them.
    fn write_triangles(self, rule: Rule, out: &mut [f64]) -> usize
        requires flagged { 1 ≤ self.vertices.now.input.layout.flag }
        requires room { length (triangles_in (rule_of rule) self.vertices.now) * (3 * row_size self.vertices.now) ≤ length out.old }
        ensures { Written out.old out.new 0 (flat (corners (row_in self.entry)) (triangles_in (rule_of rule) self.entry.vertices.now)) result }
    {
        let total = self.vertices.total;
        let size = 10 + self.vertices.input.layout.n;
        let mut first: usize = 0; // of the last triangle, of which there is one where p > 0, as in the Rust
        let mut p: usize = 0;
        let mut i: usize = 0;
        while i < total { // by one or by three
            let flag = self.vertices.flag(i);
            if flag == 0 {
                if total - i < 3 {
                    return p;
                }
                first = p;
                p = self.write_three(i, out, p);
                i += 3;
            } else if p > 0 && flag < 3 {
                let side = side_row(flag, first, size, p);
                first = rule.kept_row(flag, size, p);
                p = self.write_joined(side, i, out, p);
                i += 1;
            } else {
                i += 1;
            }
        }
        p
    }
}

// Counts, tests for room, and writes. Decode's ranges are worked out only where there is room.
pub fn free_form(vertices: &Vertices, decode: &[f64], rule: Rule, out: &mut [f64]) -> Answer
    requires { 1 ≤ vertices.now.input.layout.flag }
    ensures { Done (fitted_mesh (finished (triangles_in (rule_of rule) vertices.now) (row_of_vertex vertices.now (held_ranges (range_list decode.now vertices.now.input.layout.coord vertices.now.input.layout.comp)))) (length out.old)) out.old result out.new }
{
    let count = vertices.count_triangles();
    let needed = count * (3 * (10 + vertices.input.layout.n));
    if out.len() < needed {
        return Err(Refusal::Room(needed));
    }
    let mut ranges = [rows::NO_RANGE; 34];
    vertices.input.fill_ranges(decode, &mut ranges);
    let rows = Rows {
        vertices,
        ranges: &ranges,
    };
    rows.write_triangles(rule, out);
    Ok(count)
}
