// The eight ported functions, by the number that a stored file has for each.
ghost use Rattle.std.specs.Prelude.{◌≡◌, ◌≤◌, length};
ghost use Rattle.answers.specs.Outcome.{Done};
ghost use Rattle.meshes.specs.Outcomes.{ported_reader};
ghost use Rattle.replay.specs.Calls.{function_of, bytes_of, builder_outcome, outcome};

use answers::Answer;
use records::shape::Kind;

// The binary reader of a mesh type, or the builder from a list.
#[derive(Clone, Copy)]
pub enum Function {
    Reader(Kind),
    Builder(Kind),
}

// A call but for its input: the function, the widths of a coordinate, a component and a flag, the count of components, and the row length.
#[derive(Clone, Copy)]
pub struct Call {
    pub function: Function,
    pub coord: usize,
    pub comp: usize,
    pub flag: usize,
    pub n: usize,
    pub row: usize,
}

// A reader has its type's number, a builder ten more. Nobody asks which number names none, so this is no TryFrom.
pub fn function_of(number: usize) -> Option<Function>
    ensures { result ≡ function_of number }
{
    if number < 10 {
        Some(Function::Reader(Kind::try_from(number).ok()?))
    } else {
        Some(Function::Builder(Kind::try_from(number - 10).ok()?))
    }
}

impl Function {
    // How many bytes an input takes: a reader's length counts bytes, a builder's numbers.
    pub fn byte_count(self, size: usize) -> usize
        requires { size ≤ 1024 }
        ensures { result ≡ bytes_of self size }
    {
        match self {
            Function::Reader(_) => size,
            Function::Builder(_) => 8 * size,
        }
    }
}

impl Call {
    // As of `Header` in `msf`, whose file has a layout of its own; neither crate stands on the other.
    fn read(self, kind: Kind, data: &[u8], decode: &[f64], out: &mut [f64]) -> Answer
        ensures { Done (ported_reader kind «data».now self.coord self.comp self.flag decode.now self.n self.row (length out.old))
            out.old result out.new }
    {
        let Call {
            coord,
            comp,
            flag,
            n,
            row,
            ..
        } = self;
        match kind {
            Kind::Four => triangles::parse_type4_mesh(data, coord, comp, flag, decode, n, out),
            Kind::Five => triangles::parse_type5_mesh(data, coord, comp, decode, n, row, out),
            Kind::Six => patches::parse_type6_patches(data, coord, comp, flag, decode, n, out),
            Kind::Seven => patches::parse_type7_patches(data, coord, comp, flag, decode, n, out),
        }
    }

    fn build(self, kind: Kind, values: &[f64], out: &mut [f64]) -> Answer
        ensures { Done (builder_outcome kind self values.now (length out.old)) out.old result out.new }
    {
        let Call { n, row, .. } = self;
        match kind {
            Kind::Four => triangles::build_type4_from_array(values, n, out),
            Kind::Five => triangles::build_type5_from_array(values, n, row, out),
            Kind::Six => patches::build_type6_from_array(values, n, out),
            Kind::Seven => patches::build_type7_from_array(values, n, out),
        }
    }

    // Makes the call: a reader takes the bytes and Decode, a builder the list.
    pub fn answer(self, data: &[u8], decode: &[f64], values: &[f64], out: &mut [f64]) -> Answer
        ensures { Done (outcome self «data».now decode.now values.now (length out.old)) out.old result out.new }
    {
        match self.function {
            Function::Reader(kind) => self.read(kind, data, decode, out),
            Function::Builder(kind) => self.build(kind, values, out),
        }
    }
}
