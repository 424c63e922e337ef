// The header of the dump program's file: 13 bytes, then Decode's entries. All numbers stand high byte first.
ghost use Rattle.std.specs.Prelude.{◌≡◌, ◌≤◌, length, IfSome, IfNone, IfOk};
ghost use Rattle.answers.specs.Outcome.{number_of, Done};
ghost use Rattle.answers.specs.declared.Refusal.TheVariants.{File};
ghost use Rattle.msf.specs.File.{file_listing};
ghost use Rattle.msf.specs.Listing.{refused_line};
ghost use Rattle.meshes.specs.Outcomes.{ported_reader};
ghost use Rattle.msf.specs.Inner.Kinds.{stride_of, IsListable};

use answers::Answer;
use decode::stored::{big_endian, read_floats};
use patches::{parse_type6_patches, parse_type7_patches};
use records::shape::Kind;
use triangles::{parse_type4_mesh, parse_type5_mesh};

// What the header says, the bytes of Decode's entries, and the mesh's data.
#[derive(Clone, Copy)]
pub struct Header<'a> {
    pub kind: Kind,
    pub coord: usize,
    pub comp: usize,
    pub flag: usize,
    pub components: usize,
    pub row: usize,
    pub entries: &'a [u8],
    pub data: &'a [u8],
    ghost few_entries: { length entries.now ≤ 2040 },
}

impl<'a> Header<'a> {
    ghost use Rattle.msf.specs.Inner.Headers.{Heads, answer_to};

    // None for a file that is refused with FILE.
    pub fn read(file: &'a [u8]) -> Option<Header<'a>>
        ensures found { IfSome result (Heads file.now) }
        ensures refused { IfNone result (refused_line (number_of File) ≡ file_listing file.now) }
    {
        if file.len() > 65536 {
            return None;
        }
        let [
            _,
            _,
            _,
            _,
            _,
            kind,
            coord,
            comp,
            flag,
            n,
            _,
            _,
            count,
            rest @ ..,
        ] = file
        else {
            return None;
        };
        if big_endian(&file[..3]) != 0x4d5346 || big_endian(&file[3..5]) != 1 {
            return None; // the mark is `MSF`, the version 1
        }
        let kind = Kind::try_from(usize::from(*kind)).ok()?;
        let (entries, data) = rest.split_at_checked(8 * usize::from(*count))?;
        Some(Header {
            kind,
            coord: usize::from(*coord),
            comp: usize::from(*comp),
            flag: usize::from(*flag),
            components: usize::from(*n),
            row: big_endian(&file[10..12]) as usize,
            entries,
            data,
        })
    }

    // How many numbers a triangle or a patch has.
    pub fn stride(&self) -> usize
        requires { self.now.components ≤ 255 }
        ensures { result ≡ stride_of self.now.kind self.now.components }
    {
        let n = self.components;
        match self.kind {
            Kind::Four | Kind::Five => 3 * (10 + n),
            Kind::Six => 2 * 12 + 4 * (8 + n),
            Kind::Seven => 2 * 16 + 4 * (8 + n),
        }
    }

    // Reads the mesh with the ported reader of its type. As of `Call` in `replay`, whose file has a layout of its own; neither crate stands on the
    // other.
    fn read_decoded(&self, decode: &[f64], numbers: &mut [f64]) -> Answer
        ensures { let h = self.now in Done (ported_reader h.kind h.«data».now h.coord h.comp h.flag decode.now h.components h.row (length numbers.old)) numbers.old result numbers.new }
    {
        let Header {
            coord,
            comp,
            flag,
            components: n,
            data,
            ..
        } = *self;
        match self.kind {
            Kind::Four => parse_type4_mesh(data, coord, comp, flag, decode, n, numbers),
            Kind::Five => parse_type5_mesh(data, coord, comp, decode, n, self.row, numbers),
            Kind::Six => parse_type6_patches(data, coord, comp, flag, decode, n, numbers),
            Kind::Seven => parse_type7_patches(data, coord, comp, flag, decode, n, numbers),
        }
    }

    // Reads the mesh.
    pub fn read_mesh(&self, numbers: &mut [f64]) -> Answer
        requires { length numbers.old ≡ 8192 }
        ensures answered { Done (answer_to self.now) numbers.old result numbers.new }
        ensures listable { IfOk result (IsListable self.now.kind self.now.components) }
    {
        let mut entries = [0.0; 255];
        read_floats(self.entries, &mut entries);
        self.read_decoded(&entries[..self.entries.len() / 8], numbers)
    }
}
