// A record's numbers, from bits or from a list, decoded and written as rows into a lent output.
// Each public function that writes tests first that all it needs is there; else it changes nothing.
#![tactic(auto)]

ghost use Rattle.std.specs.Prelude.{◌≡◌, ◌≤◌};
ghost use Rattle.rows.specs.Inner.Sources.{places, width_in, flag_at};

use decode::Range;

mod any;
mod copying;
mod fitting;
mod numbers;
mod ranges;
mod writing;

pub use any::{Widths, fill_ranges, flag_at, place_colours, place_corner, place_points};
pub use copying::copy_point;
pub use writing::Vertex;

// Which bits of a flag count. A reader of bytes chooses once, by a mask and no test: docs/DECISIONS.md. The flags of a list are whole numbers.
pub const WHOLE_NUMBER: u32 = 0xffff_ffff;

pub const TWO_LOW_BITS: u32 = 3;

// What ranges are filled over.
pub const NO_RANGE: Range = Range {
    min: 0.0,
    scale: 0.0,
};

// Where the numbers of a mesh stand: in the bits of bytes, or in a list.
#[derive(Clone, Copy)]
pub enum Source<'a> {
    Bits(&'a [u8]),
    List(&'a [f64]),
}

// How many places a flag, a coordinate and a component take. A colour has n components.
#[derive(Clone, Copy)]
pub struct Layout {
    pub flag: usize,
    pub coord: usize,
    pub comp: usize,
    pub n: usize,
    ghost flag_few: { flag ≤ 32 },
    ghost coord_some: { 1 ≤ coord },
    ghost coord_few: { coord ≤ 32 },
    ghost comp_some: { 1 ≤ comp },
    ghost comp_few: { comp ≤ 32 },
    ghost n_few: { n ≤ 32 },
}

// Where a number begins: a bit, or an index of a list.
#[derive(Clone, Copy)]
pub struct Place(pub usize);

// The numbers of a mesh, and how they stand. There are no more places than LENGTH lets in; in a list each number takes one.
#[derive(Clone, Copy)]
pub struct Input<'a> {
    pub source: Source<'a>,
    pub layout: Layout,
    ghost short: { places source ≤ 134217728 },
    ghost coord_there: { layout.coord ≡ width_in source layout.coord },
    ghost comp_there: { layout.comp ≡ width_in source layout.comp },
}

// The same with the ranges that they are decoded by.
#[derive(Clone, Copy)]
pub struct Decoded<'a> {
    pub input: &'a Input<'a>,
    pub ranges: &'a [Range; 34],
}

impl Input<'_> {
    // The flag at a place as a whole number; 0 where there is none.
    #[inline]
    pub fn flag_at(&self, place: Place) -> u32
        ensures { result ≡ flag_at self.now.source self.now.layout.flag place.0 }
    {
        any::flag_at(self.source, self.layout.flag, place)
    }
}
