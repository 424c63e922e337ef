// What stands in out already, before index at, copied to there. The rows of a layout have so many components each.
ghost use Rattle.std.specs.Prelude.{◌+◌, length};
ghost use Rattle.std.specs.Float.{nan};
ghost use Rattle.lists.specs.Lists.{part};
ghost use Rattle.lists.specs.Writing.{Placed};
ghost use Rattle.rows.specs.Inner.Placing.{copy_fits};

use crate::{Layout, fitting, writing};

pub fn copy_point(out: &mut [f64], from: usize, at: usize) -> usize
    ensures { Placed (copy_fits 2 from at (length out.old)) out.old out.new at (part nan out.old from 2) result }
{
    if !fitting::copy_fits(2, from, at, out.len()) {
        return at;
    }
    writing::copy_part(out, from, 2, at)
}

impl Layout {
    // The row of a colour.
    pub fn copy_colour(self, out: &mut [f64], from: usize, at: usize) -> usize
        ensures { Placed (copy_fits (8 + self.n) from at (length out.old)) out.old out.new at (part nan out.old from (8 + self.n)) result }
    {
        if !fitting::copy_fits(8 + self.n, from, at, out.len()) {
            return at;
        }
        writing::copy_colour(out, from, self.n, at)
    }

    // The row of a vertex.
    pub fn copy_row(self, out: &mut [f64], from: usize, at: usize) -> usize
        ensures { Placed (copy_fits (10 + self.n) from at (length out.old)) out.old out.new at (part nan out.old from (10 + self.n)) result }
    {
        if !fitting::copy_fits(10 + self.n, from, at, out.len()) {
            return at;
        }
        writing::copy_row(out, from, self.n, at)
    }
}
