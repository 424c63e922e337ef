// What the patches of a mesh are: their type, and the sides of the patch before that flags 1, 2 and 3 take over.
ghost use Rattle.std.specs.Prelude.{◌≡◌, ◌≤◌};
ghost use Rattle.patches.specs.Inner.Forms.{kind_of, own_of, table_of, sides_in, TakenSide};

use records::shape::Kind;

// Coons patches are Type 6, tensor-product patches are Type 7. They join along their borders; those of the Type 7 list of 000 along their grids.
#[derive(Clone, Copy)]
pub enum Form {
    Coons,
    Tensor,
    Grid,
}

// The places of four points and two colours.
#[derive(Clone, Copy)]
pub struct Side {
    pub points: [usize; 4],
    pub colours: [usize; 2],
}

// By the border of a patch, from corner to corner.
static BORDER: [Side; 3] = [
    Side {
        points: [3, 4, 5, 6],
        colours: [1, 2],
    },
    Side {
        points: [6, 7, 8, 9],
        colours: [2, 3],
    },
    Side {
        points: [9, 10, 11, 0],
        colours: [3, 0], // back to the first corner
    },
];

// By the grid of its points.
static GRID: [Side; 3] = [
    Side {
        points: [3, 7, 11, 15],
        colours: [1, 2],
    },
    Side {
        points: [12, 8, 4, 0],
        colours: [3, 0],
    },
    Side {
        points: [15, 14, 13, 12],
        colours: [2, 3],
    },
];

impl Form {
    pub fn kind(self) -> Kind
        ensures { result ≡ kind_of self }
    {
        match self {
            Form::Coons => Kind::Six,
            Form::Tensor | Form::Grid => Kind::Seven,
        }
    }

    // How many points a joined patch has of its own.
    pub fn own_points(self) -> usize
        ensures { result ≡ own_of self }
    {
        match self {
            Form::Coons => 8,
            Form::Tensor | Form::Grid => 12,
        }
    }

    fn sides(self) -> &'static [Side; 3]
        ensures { sides_in result.now ≡ table_of self }
    {
        match self {
            Form::Coons | Form::Tensor => &BORDER,
            Form::Grid => &GRID,
        }
    }

    // The side that a flag names. A flag is the number of the stream, as in the clause's tables.
    pub fn side(self, flag: u32) -> &'static Side
        requires joined { 1 ≤ flag }
        requires few { flag ≤ 3 }
        ensures { TakenSide (table_of self) flag result.now }
    {
        &self.sides()[flag as usize - 1]
    }
}
