// How a mesh is made, and what its records take.
ghost use Rattle.std.specs.Prelude.{◌≡◌, ◌+◌, ◌*◌, ◌≤◌};
ghost use Rattle.records.specs.Inner.Walk.{Checked, RestAfter, record_size};

use crate::layout::widths_are_readable;
use crate::mesh::{Mesh, Rest};
use crate::shape::Kind;
use answers::Refusal;

impl Mesh {
    // The mesh of a type at given widths; LAYOUT or COMPONENTS where it can't be read.
    #[tactic(auto, unfolding(crate::specs::Inner::Walk::tested))]
    pub fn new(
        kind: Kind,
        first: usize,
        coord: usize,
        comp: usize,
        n: usize,
    ) -> Result<Self, Refusal>
        ensures { Checked kind first coord comp n result }
    {
        if !widths_are_readable(first, coord, comp) {
            return Err(Refusal::Layout);
        }
        if n > answers::MOST_COMPONENTS {
            return Err(Refusal::Components);
        }
        Ok(Mesh {
            kind,
            first,
            coord,
            comp,
            n,
        })
    }

    // What follows a record's first number, once a record has come before or not; None where the mesh ends.
    pub fn rest(self, started: bool, first: u32) -> Option<Rest>
        ensures { RestAfter self started first result }
    {
        let shape = self.kind.shape(started, first)?;
        Some(Rest {
            coords: shape.coords,
            comps: shape.colours * self.n,
        })
    }

    // How many bits a record takes.
    pub fn record_size(self, rest: Rest) -> usize
        ensures value { result ≡ record_size self rest.coords rest.comps }
        ensures few { result ≤ 32 * (1 + rest.coords + rest.comps) }
    {
        self.first + (rest.coords * self.coord + rest.comps * self.comp)
    }
}
