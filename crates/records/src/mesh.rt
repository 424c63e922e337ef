// A mesh whose layout can be read: past the tests of LAYOUT and COMPONENTS.
ghost use Rattle.std.specs.Prelude.{◌≤◌};
ghost use Rattle.answers.specs.Limits.{most_components};

use crate::shape::Kind;

// A mesh's type, the widths of a record's first number, of a coordinate and of a component, and the components of a colour.
#[derive(Clone, Copy)]
pub struct Mesh {
    pub kind: Kind,
    pub first: usize,
    pub coord: usize,
    pub comp: usize,
    pub n: usize,
    ghost first_some: { 1 ≤ first },
    ghost first_few: { first ≤ 32 },
    ghost coord_some: { 1 ≤ coord },
    ghost coord_few: { coord ≤ 32 },
    ghost comp_some: { 1 ≤ comp },
    ghost comp_few: { comp ≤ 32 },
    ghost n_few: { n ≤ most_components },
}

// What follows a record's first number: so many coordinates and components.
#[derive(Clone, Copy)]
pub struct Rest {
    pub coords: usize,
    pub comps: usize,
    ghost coords_few: { coords ≤ 32 },
    ghost comps_few: { comps ≤ 128 },
}
