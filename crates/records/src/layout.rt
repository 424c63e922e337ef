// Whether a mesh's layout can be read at all: the condition of LAYOUT.
ghost use Rattle.std.specs.Prelude.{◌≡◌};
ghost use Rattle.records.specs.Layout.{widths_readable, layout_readable};

use bits::width_is_readable;

// Whether every width that a type uses can be read: of a record's first number, a coordinate and a component.
pub fn widths_are_readable(first: usize, coord: usize, comp: usize) -> bool
    ensures { result ≡ widths_readable first coord comp }
{
    width_is_readable(coord) && width_is_readable(comp) && width_is_readable(first)
}

// Whether a mesh can be read whose flags have so many bits (Type 5 has none), where Decode has so many entries.
pub fn mesh_layout_is_readable(
    coord: usize,
    comp: usize,
    flag: Option<usize>,
    entries: usize,
) -> bool
    ensures { result ≡ layout_readable coord comp flag entries }
{
    widths_are_readable(flag.unwrap_or(coord), coord, comp) && 4 <= entries
}
