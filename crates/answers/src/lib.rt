// How a call answers: what it wrote, or why it refused.
#![tactic(auto)]

ghost use Rattle.std.specs.Prelude.{◌≡◌};
ghost use Rattle.answers.specs.Outcome.{number_of, needed_by, told};

// The limits of document 01. COMPONENTS: more components than these; LENGTH: more bytes, or more numbers of a list.
pub const MOST_COMPONENTS: usize = 32;

pub const MOST_BYTES: usize = 16_777_216;

pub const MOST_NUMBERS: usize = 1_048_576;

// The seven refusals of document 01, by name. ROOM carries how many places the whole answer needs.
#[derive(Clone, Copy, Debug, PartialEq, Eq)]
pub enum Refusal {
    Layout,
    Components,
    Length,
    Room(usize),
    Record,
    Thin,
    File,
}

impl Refusal {
    // Document 01's number of a refusal.
    pub fn number(self) -> usize
        ensures { result ≡ number_of self }
    {
        match self {
            Refusal::Layout => 1,
            Refusal::Components => 2,
            Refusal::Length => 3,
            Refusal::Room(_) => 4,
            Refusal::Record => 5,
            Refusal::Thin => 6,
            Refusal::File => 7,
        }
    }

    // How many places a refused answer needs, where it was refused for want of room.
    pub fn places_needed(self) -> usize
        ensures { result ≡ needed_by self }
    {
        match self {
            Refusal::Room(needed) => needed,
            _ => 0,
        }
    }
}

// How many triangles, patches, raw numbers or bytes were written; or the refusal.
pub type Answer = Result<usize, Refusal>;

// An answer as two numbers: a refusal's number or 0, and the count. With ROOM the count is how many places the answer needs, with any other refusal 0.
#[repr(C)]
#[derive(Clone, Copy, Debug, PartialEq, Eq)]
pub struct Told {
    pub refused: usize,
    pub count: usize,
}

impl From<Answer> for Told {
    ghost from_gives = { λ answer t. t ≡ told answer };

    fn from(answer: Answer) -> Told {
        match answer {
            Ok(count) => Told { refused: 0, count },
            Err(refusal) => Told {
                refused: refusal.number(),
                count: refusal.places_needed(),
            },
        }
    }
}
