// What docs/PROMISES.md promises of these functions holds for any values: they take any source, widths and place, and test what `Input` holds.
ghost use Rattle.std.specs.Prelude.{◌≡◌, true, ◌+◌, ◌++◌, length};
ghost use Rattle.lists.specs.Writing.{Placed};
ghost use Rattle.colour.specs.Inner.Places.{points_at, colours_at, vertex_at};
ghost use Rattle.rows.specs.Inner.Sources.{width_in, numbers_of, flag_at, held_ranges, range_list, filled_ranges};
ghost use Rattle.rows.specs.Inner.Placing.{shared_rows};
ghost use Rattle.rows.specs.Inner.Any.{fair, Near, Holds, any_points_fit, any_colours_fit, any_corner_fits, widths_in};

use crate::fitting::has_room;
use crate::{Decoded, Input, Layout, Place, Source, ranges};
use bits::BitPos;
use decode::Range;

// How many places a coordinate and a component take, and how many components a colour has: any numbers.
#[derive(Clone, Copy)]
pub struct Widths {
    pub coord: usize,
    pub comp: usize,
    pub n: usize,
}

impl Widths {
    // Whether numbers of these widths can be placed from a source.
    #[tactic(auto, unfolding(crate::specs::Inner::Any::fair))]
    fn fair(self, source: Source) -> bool
        ensures { result ≡ fair source.entry self }
    {
        self.n <= answers::MOST_COMPONENTS
            && bits::width_is_readable(self.coord)
            && bits::width_is_readable(self.comp)
            && match source {
                Source::Bits(bytes) => bytes.len() <= answers::MOST_BYTES,
                Source::List(_) => self.coord == 1 && self.comp == 1,
            }
    }

    // The same where a list's numbers take one place each, whatever the widths.
    fn widths_in(self, source: Source) -> Widths
        ensures { result ≡ widths_in source.entry self }
    {
        match source {
            Source::Bits(_) => self,
            Source::List(_) => Widths {
                coord: 1,
                comp: 1,
                ..self
            },
        }
    }

    // The input that they are placed from. No flag of it is read.
    fn input<'a>(self, source: Source<'a>) -> Input<'a>
        requires fair { fair source self ≡ true }
        requires near { Near source }
        ensures { Holds source.entry self result }
    {
        let layout = Layout {
            flag: 0,
            coord: self.coord,
            comp: self.comp,
            n: self.n,
        };
        Input { source, layout }
    }
}

// The flag of so many bits at a place as a whole number; 0 where there is none. In a list it takes one place.
#[inline]
pub fn flag_at(source: Source, flag: usize, place: Place) -> u32
    ensures { result ≡ flag_at source.entry flag place.0 }
{
    let p = place.0;
    match source {
        Source::Bits(bytes) => {
            let Some((flag, _)) = bits::read(bytes, BitPos(p), flag) else {
                return 0;
            };
            flag
        }
        Source::List(values) => {
            if p < values.len() {
                decode::flag_of(values[p])
            } else {
                0
            }
        }
    }
}

// The ranges of x, of y, and of each component. The numbers of a list need none.
pub fn fill_ranges(
    source: Source,
    decode: &[f64],
    coord: usize,
    comp: usize,
    ranges: &mut [Range; 34],
)
    ensures { ranges.new ≡ filled_ranges source.entry (range_list decode.now coord comp) ranges.old }
{
    match source {
        Source::Bits(_) => ranges::fill(decode, coord, comp, ranges),
        Source::List(_) => {}
    }
}

// ---- what is placed. The three have no more than their shape in common: each has a test of its own, and lends a part of a list of its own size.

// k points that begin at a place.
pub fn place_points(
    source: Source,
    widths: Widths,
    ranges: &[Range; 34],
    k: usize,
    place: Place,
    out: &mut [f64],
    at: usize,
) -> usize
    ensures { Placed (any_points_fit source.entry widths k place.0 at (length out.old)) out.old out.new at (points_at (numbers_of source.entry (held_ranges ranges.now)) widths.coord k place.0) result }
{
    if !widths.fair(source) {
        return at;
    }
    match source {
        Source::Bits(_) => {
            let input = widths.input(source);
            Decoded {
                input: &input,
                ranges,
            }
            .place_points(k, place, out, at)
        }
        Source::List(values) => {
            let p = place.0;
            if k > 16 || !has_room(p, 2 * k, values.len()) {
                return at;
            }
            let input = widths.input(Source::List(&values[p..p + 2 * k]));
            Decoded {
                input: &input,
                ranges,
            }
            .place_points(k, Place(0), out, at)
        }
    }
}

// The rows of k colours that begin at a place.
pub fn place_colours(
    source: Source,
    widths: Widths,
    ranges: &[Range; 34],
    k: usize,
    place: Place,
    out: &mut [f64],
    at: usize,
) -> usize
    ensures { Placed (any_colours_fit source.entry widths k place.0 at (length out.old)) out.old out.new at (colours_at (numbers_of source.entry (held_ranges ranges.now)) widths.comp widths.n k place.0) result }
{
    if !widths.fair(source) {
        return at;
    }
    match source {
        Source::Bits(_) => {
            let input = widths.input(source);
            Decoded {
                input: &input,
                ranges,
            }
            .place_colours(k, place, out, at)
        }
        Source::List(values) => {
            let p = place.0;
            if k > 4 || !has_room(p, k * widths.n, values.len()) {
                return at;
            }
            let input = widths.input(Source::List(&values[p..p + k * widths.n]));
            Decoded {
                input: &input,
                ranges,
            }
            .place_colours(k, Place(0), out, at)
        }
    }
}

// The row of the vertex whose coordinates begin at a place, and before it the rows of the side by which it is joined, as of `Decoded`.
pub fn place_corner(
    source: Source,
    widths: Widths,
    ranges: &[Range; 34],
    place: Place,
    side: usize,
    out: &mut [f64],
    at: usize,
) -> usize
    ensures { Placed (any_corner_fits source.entry (widths_in source.entry widths) place.0 side at (length out.old)) out.old out.new at (shared_rows out.old side (10 + widths.n) at ++ vertex_at (numbers_of source.entry (held_ranges ranges.now)) (width_in source.entry widths.coord) (width_in source.entry widths.comp) widths.n place.0) result }
{
    let widths = widths.widths_in(source);
    if !widths.fair(source) {
        return at;
    }
    match source {
        Source::Bits(_) => {
            let input = widths.input(source);
            Decoded {
                input: &input,
                ranges,
            }
            .place_corner(place, side, out, at)
        }
        Source::List(values) => {
            let p = place.0;
            let size = 2 + widths.n;
            if !has_room(p, size, values.len()) {
                return at;
            }
            let input = widths.input(Source::List(&values[p..p + size]));
            Decoded {
                input: &input,
                ranges,
            }
            .place_corner(Place(0), side, out, at)
        }
    }
}
