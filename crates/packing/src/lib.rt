// The raw writers: a list of raw numbers, flags included, packed into the bytes that a raw reader reads back.
#![tactic(auto)]

ghost use Rattle.std.specs.Prelude.{length};
ghost use Rattle.answers.specs.Outcome.{Done};
ghost use Rattle.records.specs.declared.shape.Kind.TheVariants.{Four, Five, Six, Seven};
ghost use Rattle.packing.specs.Writer.{raw_write};

mod measure;
mod put;
mod waiting;
mod write;

use answers::Answer;
use records::shape::Kind;
use write::write;

pub fn raw_write_type4(
    numbers: &[u32],
    coord: usize,
    comp: usize,
    flag: usize,
    n: usize,
    out: &mut [u8],
) -> Answer
    ensures { Done (raw_write Four flag coord comp n numbers.now (length out.old)) out.old result out.new }
{
    write(numbers, Kind::Four, flag, coord, comp, n, out)
}

// Type 5 has no flag: a vertex begins with x.
pub fn raw_write_type5(
    numbers: &[u32],
    coord: usize,
    comp: usize,
    n: usize,
    out: &mut [u8],
) -> Answer
    ensures { Done (raw_write Five coord coord comp n numbers.now (length out.old)) out.old result out.new }
{
    write(numbers, Kind::Five, coord, coord, comp, n, out)
}

pub fn raw_write_type6(
    numbers: &[u32],
    coord: usize,
    comp: usize,
    flag: usize,
    n: usize,
    out: &mut [u8],
) -> Answer
    ensures { Done (raw_write Six flag coord comp n numbers.now (length out.old)) out.old result out.new }
{
    write(numbers, Kind::Six, flag, coord, comp, n, out)
}

pub fn raw_write_type7(
    numbers: &[u32],
    coord: usize,
    comp: usize,
    flag: usize,
    n: usize,
    out: &mut [u8],
) -> Answer
    ensures { Done (raw_write Seven flag coord comp n numbers.now (length out.old)) out.old result out.new }
{
    write(numbers, Kind::Seven, flag, coord, comp, n, out)
}
