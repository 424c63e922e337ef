// The inputs that readers and builders take: past the tests of LAYOUT, COMPONENTS and LENGTH, which all mesh types ask for alike.
#![tactic(auto)]

ghost use Rattle.std.specs.Prelude.{MatchResult, cond};
ghost use Rattle.accepting.specs.Inner.Accepting.{FromBits, BitsRefused, FromList, ListRefused};

use answers::Refusal;
use records::layout::mesh_layout_is_readable;
use rows::{Input, Layout, Source};

// Bytes, where Decode's entries are given. Type 5 has no flag.
pub fn bits<'a>(
    data: &'a [u8],
    coord: usize,
    comp: usize,
    flag: Option<usize>,
    decode: &[f64],
    n: usize,
) -> Result<Input<'a>, Refusal>
    ensures { MatchResult result (FromBits «data».now coord comp flag decode.now n) (BitsRefused «data».now coord comp flag decode.now n) }
{
    if !mesh_layout_is_readable(coord, comp, flag, decode.len()) {
        return Err(Refusal::Layout);
    }
    if n > answers::MOST_COMPONENTS {
        return Err(Refusal::Components);
    }
    if data.len() > answers::MOST_BYTES {
        return Err(Refusal::Length);
    }
    let layout = Layout {
        flag: flag.unwrap_or(0),
        coord,
        comp,
        n,
    };
    Ok(Input {
        source: Source::Bits(data),
        layout,
    })
}

// A list, in which a flag is one number; that of a type with no flags has none. So there are two ways, and a bool says which.
pub fn list(values: &[f64], flagged: bool, n: usize) -> Result<Input, Refusal>
    ensures { MatchResult result (FromList values.now (cond flagged 1 0) n) (ListRefused values.now n) }
{
    if n > answers::MOST_COMPONENTS {
        return Err(Refusal::Components);
    }
    if values.len() > answers::MOST_NUMBERS {
        return Err(Refusal::Length);
    }
    let layout = Layout {
        flag: if flagged { 1 } else { 0 },
        coord: 1,
        comp: 1,
        n,
    };
    Ok(Input {
        source: Source::List(values),
        layout,
    })
}
