// The ranges of Decode, worked out once for all kinds of numbers.
ghost use Rattle.std.specs.Prelude.{◌≡◌, cond, ltb};
ghost use Rattle.rows.specs.Inner.Sources.{range_list, filled_ranges};

use crate::{Input, any};
use decode::Range;

// The width of the numbers of a kind.
fn width_of(kind: usize, coord: usize, comp: usize) -> usize
    ensures { result ≡ cond (ltb kind 2) coord comp }
{
    if kind < 2 { coord } else { comp }
}

pub fn fill(decode: &[f64], coord: usize, comp: usize, ranges: &mut [Range; 34])
    ensures { ranges.new ≡ range_list decode.now coord comp }
{
    for (kind, range) in ranges.iter_mut().enumerate() {
        *range = decode::decode_range(decode, kind, width_of(kind, coord, comp));
    }
}

impl Input<'_> {
    // The ranges of x, of y, and of each component. The numbers of a list need none.
    pub fn fill_ranges(&self, decode: &[f64], ranges: &mut [Range; 34])
        ensures { ranges.new ≡ filled_ranges self.now.source (range_list decode.now self.now.layout.coord self.now.layout.comp) ranges.old }
    {
        any::fill_ranges(
            self.source,
            decode,
            self.layout.coord,
            self.layout.comp,
            ranges,
        )
    }
}
