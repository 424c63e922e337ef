// The four raw readers: the numbers before Decode, flags included, complete records only. The output and the index stand side by side, as in
// `Written`, by which their contracts speak.
ghost use Rattle.std.specs.Prelude.{◌≡◌, ◌∷◌, ◌+◌, ◌*◌, ◌/◌, ◌≤◌, ◌<◌, length, get_or, replicate};
ghost use Rattle.lists.specs.Writing.{Written};
ghost use Rattle.answers.specs.Outcome.{Done};
ghost use Rattle.records.specs.declared.shape.Kind.TheVariants as Kind;
ghost use Rattle.records.specs.Format.{raw_reading};
ghost use Rattle.records.specs.Raw.{raw_read};
ghost use Rattle.records.specs.Inner.Walk.{format_of, Run, record_size, numbers_at, widths_after, FoundAt, Vertices, Counted};

use crate::mesh::{Mesh, Rest};
use crate::shape::Kind;
use crate::stream::Stream;
use answers::{Answer, Refusal};
use bits::BitPos;

// A complete record: what follows its first number, and the place after it.
#[derive(Clone, Copy)]
struct Record {
    rest: Rest,
    end: BitPos,
}

impl Stream<'_> {
    // The record at a place; None where the reading ends.
    fn find_record(self, started: bool, at: BitPos) -> Option<Record>
        requires { at.0 ≤ 8 * length self.bytes.now }
        ensures { FoundAt self.entry.mesh self.entry.bytes.now started at.0 result }
    {
        let Some((first, _)) = bits::read(self.bytes, at, self.mesh.first) else {
            return None;
        };
        let rest = self.mesh.rest(started, first)?;
        let end = at.0 + self.mesh.record_size(rest);
        if end > 8 * self.bytes.len() {
            return None; // not all of its bits exist
        }
        Some(Record {
            rest,
            end: BitPos(end),
        })
    }

    // How many numbers the patches have, from their flags alone.
    fn count_patches(self) -> usize
        ensures { result ≡ length (raw_reading (format_of self.entry.mesh) self.entry.bytes.now) }
    {
        let mut at = BitPos(0);
        let mut count = 0;
        let mut started = false;
        while let Some(record) = self.find_record(started, at) { // each record tells where the next one is
            count += 1 + record.rest.coords + record.rest.comps;
            at = record.end;
            started = true;
        }
        count
    }

    // How many numbers the vertices have that fit into the bytes, where so many coordinates follow a vertex's first number.
    fn count_vertices(self, coords: usize) -> usize
        requires { coords ≤ 2 }
        ensures { result ≡ 8 * length self.entry.bytes.now / record_size self.entry.mesh coords self.entry.mesh.n * (1 + coords + self.entry.mesh.n) }
    {
        let comps = self.mesh.n;
        let vertices = 8 * self.bytes.len() / self.mesh.record_size(Rest { coords, comps });
        vertices * (1 + coords + comps)
    }

    // How many numbers the reading has. All vertices of a mesh have the same size; a patch's flag decides its size.
    fn count_numbers(self) -> usize
        ensures { result ≡ length (raw_reading (format_of self.entry.mesh) self.entry.bytes.now) }
    {
        match self.mesh.kind {
            Kind::Four => self.count_vertices(2),
            Kind::Five => self.count_vertices(1),
            Kind::Six | Kind::Seven => self.count_patches(),
        }
    }

    // Writes the numbers of one width that stand side by side from a place; answers the place after them.
    fn write_run(
        self,
        from: BitPos,
        width: usize,
        count: usize,
        out: &mut [u32],
        p: usize,
    ) -> BitPos
        requires there { Run self.bytes.now from.0 width count }
        requires room { p + count ≤ length out.old }
        ensures after { result.0 ≡ from.0 + count * width }
        ensures written { Written out.old out.new p (numbers_at self.entry.bytes.now from.0 (replicate count width)) (p + count) }
    {
        let mut at = from;
        for k in 0..count {
            let Some((value, next)) = bits::read(self.bytes, at, width) else {
                unreachable!();
            };
            out[p + k] = value;
            at = next;
        }
        at
    }

    // Writes what follows a record's first number: coordinates, then components; answers the place after them.
    fn write_rest(self, from: BitPos, rest: Rest, out: &mut [u32], p: usize) -> BitPos
        requires there { from.0 + (rest.coords * self.mesh.coord + rest.comps * self.mesh.comp) ≤ 8 * length self.bytes.now }
        requires room { p + (rest.coords + rest.comps) ≤ length out.old }
        ensures after { result.0 ≡ from.0 + (rest.coords * self.entry.mesh.coord + rest.comps * self.entry.mesh.comp) }
        ensures written { Written out.old out.new p (numbers_at self.entry.bytes.now from.0 (widths_after self.entry.mesh rest.coords rest.comps)) (p + (rest.coords + rest.comps)) }
    {
        let middle = self.write_run(from, self.mesh.coord, rest.coords, out, p);
        self.write_run(middle, self.mesh.comp, rest.comps, out, p + rest.coords)
    }

    // Writes the numbers of the vertex at a place; answers the place after them.
    fn write_vertex(self, coords: usize, from: BitPos, out: &mut [u32], p: usize) -> BitPos
        requires there { from.0 + record_size self.mesh coords self.mesh.n ≤ 8 * length self.bytes.now }
        requires room { p + (1 + coords + self.mesh.n) ≤ length out.old }
        ensures after { result.0 ≡ from.0 + record_size self.entry.mesh coords self.entry.mesh.n }
        ensures written { Written out.old out.new p (numbers_at self.entry.bytes.now from.0 (self.entry.mesh.first ∷ widths_after self.entry.mesh coords self.entry.mesh.n)) (p + (1 + coords + self.entry.mesh.n)) }
    {
        let mut at = from;
        for k in 0..1 + coords + self.mesh.n {
            let width = width_at(self.mesh, coords, k);
            let Some((value, next)) = bits::read(self.bytes, at, width) else {
                unreachable!();
            };
            out[p + k] = value;
            at = next;
        }
        at
    }

    // Writes all vertices, `count` numbers in all; so many coordinates follow a vertex's first number.
    fn write_vertices(self, coords: usize, count: usize, out: &mut [u32]) -> usize
        requires vertices { Vertices self.mesh coords }
        requires counted { Counted self.mesh self.bytes.now count out.old }
        ensures { Written out.old out.new 0 (raw_reading (format_of self.entry.mesh) self.entry.bytes.now) result }
    {
        let size = 1 + coords + self.mesh.n;
        let mut at = BitPos(0);
        let mut p = 0;
        while p < count { // by whole vertices: to count them would be a division
            at = self.write_vertex(coords, at, out, p);
            p += size;
        }
        p
    }

    // Writes all patches, `count` numbers in all; a patch's flag, once written, says how many numbers follow.
    fn write_patches(self, count: usize, out: &mut [u32]) -> usize
        requires { Counted self.mesh self.bytes.now count out.old }
        ensures { Written out.old out.new 0 (raw_reading (format_of self.entry.mesh) self.entry.bytes.now) result }
    {
        let mut at = BitPos(0);
        let mut p = 0;
        let mut started = false;
        while p < count { // each record tells where the next one is
            let after = self.write_run(at, self.mesh.first, 1, out, p);
            let rest = self.mesh.rest(started, out[p]).unwrap();
            at = self.write_rest(after, rest, out, p + 1);
            p += 1 + rest.coords + rest.comps;
            started = true;
        }
        p
    }

    // Writes the whole reading, `count` numbers, to the front of the output. An arm for each type: a walk that is called once would be
    // compiled into its caller, and the numbers that a turn needs would no longer fit the registers.
    fn write_numbers(self, count: usize, out: &mut [u32]) -> usize
        requires { Counted self.mesh self.bytes.now count out.old }
        ensures { Written out.old out.new 0 (raw_reading (format_of self.entry.mesh) self.entry.bytes.now) result }
    {
        match self.mesh.kind {
            Kind::Four => self.write_vertices(2, count, out),
            Kind::Five => self.write_vertices(1, count, out),
            Kind::Six => self.write_patches(count, out),
            Kind::Seven => self.write_patches(count, out),
        }
    }
}

// The width of number k of a vertex: its first number, then so many coordinates, then components.
fn width_at(mesh: Mesh, coords: usize, k: usize) -> usize
    requires { k < 1 + coords + mesh.n }
    ensures { result ≡ get_or (mesh.first ∷ widths_after mesh coords mesh.n) k 0 }
{
    if k == 0 {
        mesh.first
    } else if k <= coords {
        mesh.coord
    } else {
        mesh.comp
    }
}

// The reader of all four types.
fn raw_read(
    data: &[u8],
    kind: Kind,
    first: usize,
    coord: usize,
    comp: usize,
    n: usize,
    out: &mut [u32],
) -> Answer
    ensures { Done (raw_read kind first coord comp n «data».now (length out.old)) out.old result out.new }
{
    let mesh = Mesh::new(kind, first, coord, comp, n)?;
    if data.len() > answers::MOST_BYTES {
        return Err(Refusal::Length);
    }
    let stream = Stream { bytes: data, mesh };
    let count = stream.count_numbers();
    if out.len() < count {
        return Err(Refusal::Room(count));
    }
    Ok(stream.write_numbers(count, out))
}

// Type 4: each vertex is a flag, x, y and the components.
pub fn raw_read_type4(
    data: &[u8],
    coord: usize,
    comp: usize,
    flag: usize,
    n: usize,
    out: &mut [u32],
) -> Answer
    ensures { Done (raw_read Kind.Four flag coord comp n «data».now (length out.old)) out.old result out.new }
{
    raw_read(data, Kind::Four, flag, coord, comp, n, out)
}

// Type 5: each vertex is x, y and the components.
pub fn raw_read_type5(data: &[u8], coord: usize, comp: usize, n: usize, out: &mut [u32]) -> Answer
    ensures { Done (raw_read Kind.Five coord coord comp n «data».now (length out.old)) out.old result out.new }
{
    raw_read(data, Kind::Five, coord, coord, comp, n, out)
}

// Type 6: each patch is a flag, 12 points and four colours; of a joined patch 8 and two.
pub fn raw_read_type6(
    data: &[u8],
    coord: usize,
    comp: usize,
    flag: usize,
    n: usize,
    out: &mut [u32],
) -> Answer
    ensures { Done (raw_read Kind.Six flag coord comp n «data».now (length out.old)) out.old result out.new }
{
    raw_read(data, Kind::Six, flag, coord, comp, n, out)
}

// Type 7: each patch is a flag, 16 points and four colours; of a joined patch 12 and two.
pub fn raw_read_type7(
    data: &[u8],
    coord: usize,
    comp: usize,
    flag: usize,
    n: usize,
    out: &mut [u32],
) -> Answer
    ensures { Done (raw_read Kind.Seven flag coord comp n «data».now (length out.old)) out.old result out.new }
{
    raw_read(data, Kind::Seven, flag, coord, comp, n, out)
}
