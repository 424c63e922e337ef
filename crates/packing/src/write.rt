// A raw writer of any mesh type: the refusals in their order, and then the second pass.
ghost use Rattle.std.specs.Prelude.{◌≡◌, false, [], ◌≤◌, length};
ghost use Rattle.lists.specs.Writing.{Written};
ghost use Rattle.answers.specs.Limits.{most_numbers};
ghost use Rattle.answers.specs.Outcome.{Done};
ghost use Rattle.records.specs.Inner.Walk.{format_of};
ghost use Rattle.packing.specs.Packed.{packed};
ghost use Rattle.packing.specs.Writer.{thin, in_bytes, raw_write};
ghost use Rattle.packing.specs.Inner.Passes.{Roomy, Filled};

use crate::measure::measure;
use crate::waiting::Waiting;
use answers::{Answer, Refusal};
use records::mesh::Mesh;
use records::shape::Kind;

// The second pass, over a list that is accepted and has room. Answers how many bytes are written.
fn fill(numbers: &[u32], mesh: Mesh, out: &mut [u8]) -> usize
    requires { Roomy (packed (format_of mesh) false [] numbers.now) (length out.old) }
    ensures { Filled (packed (format_of mesh) false [] numbers.now) out.old out.new result }
{
    let mut waiting = Waiting::none();
    let mut i = 0;
    while i < numbers.len() { // by whole records: each tells how far the next one is
        let rest = mesh.rest(0 < i, numbers[i]).unwrap();
        waiting = waiting.put_record(numbers, i, mesh, rest, out);
        i += 1 + rest.coords + rest.comps;
    }
    waiting.flush(out)
}

// RECORD, ROOM, or the bytes.
fn pack(numbers: &[u32], mesh: Mesh, out: &mut [u8]) -> Answer
    requires { length numbers.now ≤ most_numbers }
    ensures { Done (in_bytes (packed (format_of mesh) false [] numbers.now) (length out.old)) out.old result out.new }
{
    let total = measure(numbers, mesh).ok_or(Refusal::Record)?;
    let needed = total.div_ceil(8);
    if out.len() < needed {
        return Err(Refusal::Room(needed));
    }
    Ok(fill(numbers, mesh, out))
}

// Whether one vertex takes under 8 bits, in the types of vertices.
fn is_thin(mesh: Mesh) -> bool
    ensures { result ≡ thin mesh.kind mesh.first mesh.coord mesh.comp mesh.n }
{
    let comps = mesh.n * mesh.comp;
    match mesh.kind {
        Kind::Four => mesh.first + (2 * mesh.coord + comps) < 8,
        Kind::Five => mesh.first + (mesh.coord + comps) < 8,
        Kind::Six | Kind::Seven => false,
    }
}

pub fn write(
    numbers: &[u32],
    kind: Kind,
    first: usize,
    coord: usize,
    comp: usize,
    n: usize,
    out: &mut [u8],
) -> Answer
    ensures { Done (raw_write kind first coord comp n numbers.now (length out.old)) out.old result out.new }
{
    let mesh = Mesh::new(kind, first, coord, comp, n)?;
    if numbers.len() > answers::MOST_NUMBERS {
        return Err(Refusal::Length);
    }
    if is_thin(mesh) {
        return Err(Refusal::Thin);
    }
    pack(numbers, mesh, out)
}
