// The mesh types, and what follows the first number of a record in each.
ghost use Rattle.std.specs.Prelude.{◌≡◌, ◌≤◌};
ghost use Rattle.records.specs.Kinds.{kind_numbered};
ghost use Rattle.records.specs.Format.{shape_of, patch_shape};

// The four mesh types, by their numbers in ISO 32000-1.
#[derive(Clone, Copy, Debug, PartialEq, Eq)]
pub enum Kind {
    Four = 4,
    Five = 5,
    Six = 6,
    Seven = 7,
}

// A number that no mesh type has.
#[derive(Clone, Copy, Debug, PartialEq, Eq)]
pub struct UnknownKind(pub usize);

impl TryFrom<usize> for Kind {
    type Error = UnknownKind;

    ghost try_from_gives = { λ number kind. kind ≡ kind_numbered number };

    fn try_from(number: usize) -> Result<Self, UnknownKind> {
        match number {
            4 => Ok(Kind::Four),
            5 => Ok(Kind::Five),
            6 => Ok(Kind::Six),
            7 => Ok(Kind::Seven),
            _ => Err(UnknownKind(number)),
        }
    }
}

// So many coordinates and colours follow a record's first number.
#[derive(Clone, Copy, Debug, PartialEq, Eq)]
pub struct Shape {
    pub coords: usize,
    pub colours: usize,
}

// Types 6 and 7, where a joined patch has so many points of its own. Whether a patch came before is a Bool in `shape_of` and in `next`.
fn patch_shape(own: usize, started: bool, flag: u32) -> Option<Shape>
    requires { own ≤ 12 }
    ensures { result ≡ patch_shape own started flag }
{
    match flag {
        0 => Some(Shape {
            coords: 2 * (4 + own),
            colours: 4,
        }),
        1..=3 if started => Some(Shape {
            coords: 2 * own,
            colours: 2,
        }),
        _ => None,
    }
}

impl Kind {
    // What follows a record's first number, once a record has come before or not; None where the mesh ends.
    pub fn shape(self, started: bool, first: u32) -> Option<Shape>
        ensures { result ≡ shape_of self started first }
    {
        match self {
            Kind::Four => Some(Shape {
                coords: 2,
                colours: 1,
            }),
            Kind::Five => Some(Shape {
                coords: 1,
                colours: 1,
            }),
            Kind::Six => patch_shape(8, started, first),
            Kind::Seven => patch_shape(12, started, first),
        }
    }
}
