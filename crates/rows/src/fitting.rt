// Whether all is there that a function needs. No sum is made that a usize might not hold: places and indices may be any.
ghost use Rattle.std.specs.Prelude.{◌≡◌, ◌+◌, ◌≤◌, leb};
ghost use Rattle.rows.specs.Inner.Sources.{places};
ghost use Rattle.rows.specs.Inner.Placing.{corner_fits, points_fit, colours_fit, copy_fits, rows_fit};

use crate::{Input, Place, Source};

// Whether a list of len elements has size of them from an index on.
pub fn has_room(from: usize, size: usize, len: usize) -> bool
    ensures { result ≡ leb (from + size) len }
{
    from <= len && size <= len - from
}

pub fn copy_fits(size: usize, from: usize, at: usize, room: usize) -> bool
    ensures { result ≡ copy_fits size from at room }
{
    has_room(from, size, at) && has_room(at, size, room)
}

// Whether the rows that come with a vertex have room, each of so many numbers.
#[tactic(auto, unfolding(crate::specs::Inner::Placing::rows_fit))]
fn rows_fit(size: usize, side: usize, at: usize, room: usize) -> bool
    requires { size ≤ 42 }
    ensures { result ≡ rows_fit size side at room }
{
    if side < at {
        has_room(side, size, at) && has_room(at, 3 * size, room)
    } else {
        has_room(at, size, room)
    }
}

impl Input<'_> {
    // How many places there are.
    pub fn places(&self) -> usize
        ensures { result ≡ places self.now.source }
    {
        match self.source {
            Source::Bits(bytes) => 8 * bytes.len(),
            Source::List(values) => values.len(),
        }
    }

    // Whether so many places from a place on are there. That bytes are few is known, but not to a compiler, which then tests it at each read.
    fn has(&self, place: Place, size: usize) -> bool
        ensures { result ≡ leb (place.0 + size) (places self.now.source) }
    {
        match self.source {
            Source::Bits(bytes) => {
                bytes.len() <= answers::MOST_BYTES && has_room(place.0, size, 8 * bytes.len())
            }
            Source::List(values) => has_room(place.0, size, values.len()),
        }
    }

    // Whether a vertex is there, and the rows that come with it have room.
    pub fn corner_fits(&self, place: Place, side: usize, at: usize, room: usize) -> bool
        ensures { result ≡ corner_fits self.now place.0 side at room }
    {
        let layout = self.layout;
        rows_fit(10 + layout.n, side, at, room)
            && self.has(place, 2 * layout.coord + layout.n * layout.comp)
    }

    #[tactic(auto, unfolding(crate::specs::Inner::Placing::points_fit))]
    pub fn points_fit(&self, k: usize, place: Place, at: usize, room: usize) -> bool
        ensures { result ≡ points_fit self.now k place.0 at room }
    {
        k <= 16 && self.has(place, k * (2 * self.layout.coord)) && has_room(at, 2 * k, room)
    }

    #[tactic(auto, unfolding(crate::specs::Inner::Placing::colours_fit))]
    pub fn colours_fit(&self, k: usize, place: Place, at: usize, room: usize) -> bool
        ensures { result ≡ colours_fit self.now k place.0 at room }
    {
        let layout = self.layout;
        k <= 4
            && self.has(place, k * (layout.n * layout.comp))
            && has_room(at, k * (8 + layout.n), room)
    }
}
