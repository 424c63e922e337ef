// Numbers, read from bits and decoded or taken from a list, and written to a lent output from an index. Each function that writes answers the index
// after what it wrote.
ghost use Rattle.std.specs.Prelude.{◌≡◌, [], ◌∷◌, ◌++◌, ◌+◌, ◌*◌, ◌≤◌, ◌<◌, length};
ghost use Rattle.lists.specs.Writing.{Written, Placed};
ghost use Rattle.answers.specs.Limits.{most_bytes};
ghost use Rattle.bits.specs.Bits.{field_at};
ghost use Rattle.decode.specs.Decode.{value_of};
ghost use Rattle.colour.specs.Colour.{colour_row};
ghost use Rattle.colour.specs.Inner.Places.{bit_numbers, point_at, components_at, points_at};
ghost use Rattle.rows.specs.Inner.Sources.{places, held_ranges};
ghost use Rattle.rows.specs.Inner.Placing.{numbers_in, points_in, components_in, colours_in, vertex_in, points_fit, colours_fit, corner_fits, vertex_places, vertex_of, shared_rows};

use crate::writing::Vertex;
use crate::{Decoded, Place, Source, writing};
use bits::BitPos;
use decode::Range;

// ---- in bits, which are there. What a loop needs are plain parameters: what is behind a reference is loaded for each number. What reads numbers is
// put into its callers, so that they stay in registers.

// The number of so many bits at a place. It is put into each caller, where the read itself is weighed.
#[inline(always)]
fn number(bytes: &[u8], from: usize, width: usize) -> u32
    requires some { 1 ≤ width }
    requires few { width ≤ 32 }
    requires short { length bytes.now ≤ most_bytes }
    requires there { from + width ≤ 8 * length bytes.now }
    ensures { result ≡ field_at bytes.now from width }
{
    let Some((value, _)) = bits::read(bytes, BitPos(from), width) else {
        unreachable!();
    };
    value
}

fn decoded(raw: u32, range: Range) -> f64
    ensures { result ≡ value_of raw range.scale range.min }
{
    decode::decode_value(raw, range.scale, range.min)
}

#[inline(always)]
fn read_point(bytes: &[u8], coord: usize, ranges: &[Range; 34], from: usize) -> (f64, f64)
    requires some { 1 ≤ coord }
    requires few { coord ≤ 32 }
    requires short { length bytes.now ≤ most_bytes }
    requires there { from + 2 * coord ≤ 8 * length bytes.now }
    ensures { result.0 ∷ result.1 ∷ [] ≡ point_at (bit_numbers bytes.now (held_ranges ranges.now)) coord from }
{
    let x = number(bytes, from, coord);
    let y = number(bytes, from + coord, coord);
    (decoded(x, ranges[0]), decoded(y, ranges[1]))
}

// Component j of those from a place on.
#[inline(always)]
fn read_component(bytes: &[u8], comp: usize, ranges: &[Range; 34], from: usize, j: usize) -> f64
    requires some { 1 ≤ comp }
    requires few { comp ≤ 32 }
    requires one { j < 32 }
    requires short { length bytes.now ≤ most_bytes }
    requires there { from + (j + 1) * comp ≤ 8 * length bytes.now }
    ensures { result ≡ bit_numbers bytes.now (held_ranges ranges.now) comp (2 + j) (from + j * comp) }
{
    decoded(number(bytes, from + j * comp, comp), ranges[2 + j])
}

impl Decoded<'_> {
    // k points. What a turn needs stands in variables, so that a store to out can't have changed it.
    fn read_points(self, bytes: &[u8], k: usize, from: usize, out: &mut [f64], at: usize) -> usize
        requires short { length bytes.now ≤ most_bytes }
        requires there { from + k * (2 * self.input.now.layout.coord) ≤ 8 * length bytes.now }
        requires room { at + 2 * k ≤ length out.old }
        ensures value { result ≡ at + 2 * k }
        ensures written { Written out.old out.new at (points_at (bit_numbers bytes.now (held_ranges self.entry.ranges.now)) self.entry.input.now.layout.coord k from) result }
    {
        let ranges = self.ranges;
        let coord = self.input.layout.coord;
        for i in 0..k {
            let (x, y) = read_point(bytes, coord, ranges, from + i * (2 * coord));
            writing::write_two(x, y, out, at + 2 * i);
        }
        at + 2 * k
    }

    // The components of a colour, two at a time: see `write_part`.
    #[inline(always)]
    fn read_components(self, bytes: &[u8], from: usize, out: &mut [f64], at: usize) -> usize
        requires short { length bytes.now ≤ most_bytes }
        requires there { from + self.input.now.layout.n * self.input.now.layout.comp ≤ 8 * length bytes.now }
        requires room { at + self.input.now.layout.n ≤ length out.old }
        ensures value { result ≡ at + self.entry.input.now.layout.n }
        ensures written { Written out.old out.new at (components_at (bit_numbers bytes.now (held_ranges self.entry.ranges.now)) self.entry.input.now.layout.comp self.entry.input.now.layout.n from) result }
    {
        let ranges = self.ranges;
        let comp = self.input.layout.comp;
        let n = self.input.layout.n;
        let mut j: usize = 0;
        while j + 1 < n {
            let a = read_component(bytes, comp, ranges, from, j);
            let b = read_component(bytes, comp, ranges, from, j + 1);
            out[at + j] = a;
            out[at + j + 1] = b;
            j += 2;
        }
        if j < n {
            out[at + j] = read_component(bytes, comp, ranges, from, j); // the last of an odd count
        }
        at + n
    }
}

// ---- from either source, whose numbers are there

impl Decoded<'_> {
    fn point(self, place: Place) -> (f64, f64)
        requires { place.0 + 2 * self.input.now.layout.coord ≤ places self.input.now.source }
        ensures { result.0 ∷ result.1 ∷ [] ≡ point_at (numbers_in self.entry) self.entry.input.now.layout.coord place.0 }
    {
        let p = place.0;
        match self.input.source {
            Source::Bits(bytes) => read_point(bytes, self.input.layout.coord, self.ranges, p),
            Source::List(values) => (values[p], values[p + 1]),
        }
    }

    fn write_points(self, k: usize, place: Place, out: &mut [f64], at: usize) -> usize
        requires there { place.0 + k * (2 * self.input.now.layout.coord) ≤ places self.input.now.source }
        requires room { at + 2 * k ≤ length out.old }
        ensures value { result ≡ at + 2 * k }
        ensures written { Written out.old out.new at (points_in self.entry k place.0) result }
    {
        let p = place.0;
        match self.input.source {
            Source::Bits(bytes) => self.read_points(bytes, k, p, out, at),
            Source::List(values) => writing::write_part(&values[p..p + 2 * k], out, at),
        }
    }

    #[inline(always)]
    fn write_components(self, place: Place, out: &mut [f64], at: usize) -> usize
        requires there { place.0 + self.input.now.layout.n * self.input.now.layout.comp ≤ places self.input.now.source }
        requires room { at + self.input.now.layout.n ≤ length out.old }
        ensures value { result ≡ at + self.entry.input.now.layout.n }
        ensures written { Written out.old out.new at (components_in self.entry place.0) result }
    {
        let p = place.0;
        match self.input.source {
            Source::Bits(bytes) => self.read_components(bytes, p, out, at),
            Source::List(values) => {
                writing::write_part(&values[p..p + self.input.layout.n], out, at)
            }
        }
    }

    // A colour's components go straight to their places; the colour is worked out from there.
    fn write_colour(self, place: Place, out: &mut [f64], at: usize) -> usize
        requires there { place.0 + self.input.now.layout.n * self.input.now.layout.comp ≤ places self.input.now.source }
        requires room { at + (8 + self.input.now.layout.n) ≤ length out.old }
        ensures value { result ≡ at + (8 + self.entry.input.now.layout.n) }
        ensures written { Written out.old out.new at (colour_row (components_in self.entry place.0)) result }
    {
        let first = at + 8;
        let end = self.write_components(place, out, first);
        let colour = colour::components_to_color(&out[first..end]);
        writing::write_eight(colour, out, at);
        end
    }

    // The rows of k colours.
    fn write_colours(self, k: usize, place: Place, out: &mut [f64], at: usize) -> usize
        requires there { place.0 + k * (self.input.now.layout.n * self.input.now.layout.comp) ≤ places self.input.now.source }
        requires room { at + k * (8 + self.input.now.layout.n) ≤ length out.old }
        ensures value { result ≡ at + k * (8 + self.entry.input.now.layout.n) }
        ensures written { Written out.old out.new at (colours_in self.entry k place.0) result }
    {
        let n = self.input.layout.n;
        let size = n * self.input.layout.comp;
        for i in 0..k {
            self.write_colour(Place(place.0 + i * size), out, at + i * (8 + n));
        }
        at + k * (8 + n)
    }

    // The vertex whose coordinates begin at a place. Its components go to their places in the row that begins at index at.
    fn vertex(self, place: Place, out: &mut [f64], at: usize) -> Vertex
        requires there { place.0 + vertex_places self.input.now ≤ places self.input.now.source }
        requires room { at + (10 + self.input.now.layout.n) ≤ length out.old }
        ensures value { result ≡ vertex_of (point_at (numbers_in self.entry) self.entry.input.now.layout.coord place.0) (components_in self.entry (place.0 + 2 * self.entry.input.now.layout.coord)) }
        ensures written { Written out.old out.new (at + 10) (components_in self.entry (place.0 + 2 * self.entry.input.now.layout.coord)) (at + (10 + self.entry.input.now.layout.n)) }
    {
        let (x, y) = self.point(place);
        let first = at + 10;
        let end = self.write_components(Place(place.0 + 2 * self.input.layout.coord), out, first);
        let colour = colour::components_to_color(&out[first..end]);
        Vertex { x, y, colour }
    }
}

// ---- where all is there

impl Decoded<'_> {
    // The row of the vertex whose coordinates begin at a place. Before it come the two rows of the side by which it is joined, if there is one: the first
    // stands at index side, the second right before index at. Where there is none, `side` is `at`, as of the `place_corner` that docs/PROMISES.md names.
    pub fn place_corner(self, place: Place, side: usize, out: &mut [f64], at: usize) -> usize
        ensures { Placed (corner_fits self.entry.input.now place.0 side at (length out.old)) out.old out.new at (shared_rows out.old side (10 + self.entry.input.now.layout.n) at ++ vertex_in self.entry place.0) result }
    {
        let n = self.input.layout.n;
        if !self.input.corner_fits(place, side, at, out.len()) {
            return at;
        }
        let vertex = self.vertex(place, out, writing::row_index(side, n, at));
        writing::write_corner(vertex, side, n, out, at)
    }

    // k points that begin at a place.
    pub fn place_points(self, k: usize, place: Place, out: &mut [f64], at: usize) -> usize
        ensures { Placed (points_fit self.entry.input.now k place.0 at (length out.old)) out.old out.new at (points_in self.entry k place.0) result }
    {
        if !self.input.points_fit(k, place, at, out.len()) {
            return at;
        }
        self.write_points(k, place, out, at)
    }

    // The rows of k colours that begin at a place.
    pub fn place_colours(self, k: usize, place: Place, out: &mut [f64], at: usize) -> usize
        ensures { Placed (colours_fit self.entry.input.now k place.0 at (length out.old)) out.old out.new at (colours_in self.entry k place.0) result }
    {
        if !self.input.colours_fit(k, place, at, out.len()) {
            return at;
        }
        self.write_colours(k, place, out, at)
    }
}
