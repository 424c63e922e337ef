// The vertices of a mesh, in bits or in a list of numbers, and their rows in a lent output. The output and the index stand side by side, as in `rows`.
ghost use Rattle.std.specs.Prelude.{◌≡◌, ◌+◌, ◌*◌, ◌≤◌};
ghost use Rattle.rows.specs.Inner.Sources.{places, mask_in};
ghost use Rattle.rows.specs.Inner.Placing.{vertex_places};

use decode::Range;
use rows::{Decoded, Input, Place};

// How the vertices stand one after the other: each takes size places, of which those of its flag come first. The mask has the bits of a flag that count.
#[derive(Clone, Copy)]
pub struct Vertices<'a> {
    pub input: Input<'a>,
    pub mask: u32,
    pub size: usize,
    pub total: usize,
    ghost sized: { size ≡ input.layout.flag + vertex_places input },
    ghost whole: { total * size ≤ places input.source },
    ghost mask_there: { mask ≡ mask_in input.source mask },
}

// The same with Decode's ranges: what their rows are made of.
#[derive(Clone, Copy)]
pub struct Rows<'a> {
    pub vertices: &'a Vertices<'a>,
    pub ranges: &'a [Range; 34],
}

impl<'a> Vertices<'a> {
    ghost use Rattle.std.specs.Prelude.{◌<◌, ◌/◌};
    ghost use Rattle.triangles.specs.Inner.Vertices.{flag_of_vertex};

    // As many vertices as there are places for.
    pub fn new(input: Input<'a>, mask: u32) -> Self
        requires { mask ≡ mask_in input.source mask }
        ensures input { result.input ≡ input.entry }
        ensures mask { result.mask ≡ mask }
        ensures total { result.total ≡ places result.input.source / result.size }
    {
        let layout = input.layout;
        let size = layout.flag + (2 * layout.coord + layout.n * layout.comp);
        let total = input.places() / size;
        Vertices {
            input,
            mask,
            size,
            total,
        }
    }

    // The flag of vertex i.
    pub fn flag(&self, i: usize) -> u32
        requires flagged { 1 ≤ self.now.input.layout.flag }
        requires there { i < self.now.total }
        ensures { result ≡ flag_of_vertex self.now i }
    {
        self.input.flag_at(Place(i * self.size)) & self.mask
    }
}

impl Rows<'_> {
    ghost use Rattle.std.specs.Prelude.{◌<◌, ◌-◌, ◌++◌, length};
    ghost use Rattle.std.specs.Float.{nan};
    ghost use Rattle.lists.specs.Lists.{part};
    ghost use Rattle.lists.specs.Writing.{Written};
    ghost use Rattle.triangles.specs.Inner.Vertices.{row_size, row_in};

    // Writes the row of vertex i.
    pub fn write(self, i: usize, out: &mut [f64], at: usize) -> usize
        requires there { i < self.vertices.now.total }
        requires room { at + row_size self.vertices.now ≤ length out.old }
        ensures value { result ≡ at + row_size self.entry.vertices.now }
        ensures written { Written out.old out.new at (row_in self.entry i) result }
    {
        let vertices = self.vertices;
        let decoded = Decoded {
            input: &vertices.input,
            ranges: self.ranges,
        };
        let place = Place(i * vertices.size + vertices.input.layout.flag);
        decoded.place_corner(place, at, out, at)
    }

    // Copies the row that stands in out from an index.
    pub fn copy(self, from: usize, out: &mut [f64], at: usize) -> usize
        requires before { from + row_size self.vertices.now ≤ at }
        requires room { at + row_size self.vertices.now ≤ length out.old }
        ensures value { result ≡ at + row_size self.entry.vertices.now }
        ensures written { Written out.old out.new at (part nan out.old from (row_size self.entry.vertices.now)) result }
    {
        self.vertices.input.layout.copy_row(out, from, at)
    }

    // Writes the row that stands at index first, the row right before `at`, and the row of vertex i. It shares with `write` no more than the call: of
    // one function for both each caller would have to take its rows out of a longer list.
    pub fn write_joined(self, first: usize, i: usize, out: &mut [f64], at: usize) -> usize
        requires there { i < self.vertices.now.total }
        requires before { first + row_size self.vertices.now ≤ at }
        requires room { at + 3 * row_size self.vertices.now ≤ length out.old }
        ensures value { result ≡ at + 3 * row_size self.entry.vertices.now }
        ensures written { Written out.old out.new at (part nan out.old first (row_size self.entry.vertices.now) ++ (part nan out.old (at - row_size self.entry.vertices.now) (row_size self.entry.vertices.now) ++ row_in self.entry i)) result }
    {
        let vertices = self.vertices;
        let decoded = Decoded {
            input: &vertices.input,
            ranges: self.ranges,
        };
        let place = Place(i * vertices.size + vertices.input.layout.flag);
        decoded.place_corner(place, first, out, at)
    }
}
