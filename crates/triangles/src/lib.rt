// The readers and builders of Types 4 and 5, the free-form and the lattice-form triangle mesh. One code serves both sources of vertices, bits and a
// list of numbers, and both readings.
#![tactic(auto)]

ghost use Rattle.std.specs.Prelude.{[], length};
ghost use Rattle.std.proofs.Math.Option.{none};
ghost use Rattle.answers.specs.Outcome.{Done};
ghost use Rattle.records.specs.Format.{whole_number, two_low_bits};
ghost use Rattle.rows.specs.Inner.Sources.{masked};
ghost use Rattle.rules.specs.Triangles.{triangle_before, triangles};
ghost use Rattle.rules.specs.Ported.{binary_reader, list_builder};
ghost use Rattle.meshes.specs.Outcomes.{parse4, parse5, build4, build5};
ghost use Rattle.triangles.specs.Inner.Vertices.{rule_of};

use crate::free_form::{Rule, free_form};
use crate::lattice_form::lattice_form;
use crate::vertices::Vertices;
use answers::Answer;

mod free_form;
mod lattice_form;
mod vertices;

// ---- from bits, by the parameters of the C functions

// Both readings: the mask has the bits of a flag that count.
fn read_type4(
    data: &[u8],
    coord: usize,
    comp: usize,
    flag: usize,
    mask: u32,
    decode: &[f64],
    n: usize,
    out: &mut [f64],
) -> Answer
    ensures { Done (parse4 (masked mask) (triangles triangle_before) «data».now coord comp flag decode.now n (length out.old)) out.old result out.new }
{
    let input = accepting::bits(data, coord, comp, Some(flag), decode, n)?;
    let vertices = Vertices::new(input, mask);
    free_form(&vertices, decode, Rule::TriangleBefore, out)
}

// The Type 4 reader of 000: a flag is the whole number.
pub fn parse_type4_mesh(
    data: &[u8],
    coord: usize,
    comp: usize,
    flag: usize,
    decode: &[f64],
    n: usize,
    out: &mut [f64],
) -> Answer
    ensures { Done (parse4 whole_number (binary_reader none 0) «data».now coord comp flag decode.now n (length out.old)) out.old result out.new }
{
    read_type4(data, coord, comp, flag, rows::WHOLE_NUMBER, decode, n, out)
}

// Type 4 as ISO 32000-1, 8.7.4.5.5, has it, but for what docs/DIFFERENCES.md lists: a flag is its two low bits.
pub fn published_type4_mesh(
    data: &[u8],
    coord: usize,
    comp: usize,
    flag: usize,
    decode: &[f64],
    n: usize,
    out: &mut [f64],
) -> Answer
    ensures { Done (parse4 two_low_bits (triangles triangle_before) «data».now coord comp flag decode.now n (length out.old)) out.old result out.new }
{
    read_type4(data, coord, comp, flag, rows::TWO_LOW_BITS, decode, n, out)
}

// The Type 5 reader of 000.
pub fn parse_type5_mesh(
    data: &[u8],
    coord: usize,
    comp: usize,
    decode: &[f64],
    n: usize,
    row: usize,
    out: &mut [f64],
) -> Answer
    ensures { Done (parse5 «data».now coord comp decode.now n row (length out.old)) out.old result out.new }
{
    let input = accepting::bits(data, coord, comp, None, decode, n)?;
    let vertices = Vertices::new(input, rows::WHOLE_NUMBER);
    lattice_form(&vertices, decode, row, out)
}

// Type 5 as ISO 32000-1, 8.7.4.5.6, has it, but for what docs/DIFFERENCES.md lists: the same triangles.
pub fn published_type5_mesh(
    data: &[u8],
    coord: usize,
    comp: usize,
    decode: &[f64],
    n: usize,
    row: usize,
    out: &mut [f64],
) -> Answer
    ensures { Done (parse5 «data».now coord comp decode.now n row (length out.old)) out.old result out.new }
{
    parse_type5_mesh(data, coord, comp, decode, n, row, out)
}

// ---- from a list of numbers

fn build_type4(values: &[f64], n: usize, rule: Rule, out: &mut [f64]) -> Answer
    ensures { Done (build4 (triangles (rule_of rule)) values.now n (length out.old)) out.old result out.new }
{
    let input = accepting::list(values, true, n)?;
    let vertices = Vertices::new(input, rows::WHOLE_NUMBER);
    free_form(&vertices, &[], rule, out)
}

// The Type 4 builder of 000: it goes on from the last three vertices that it kept.
pub fn build_type4_from_array(values: &[f64], n: usize, out: &mut [f64]) -> Answer
    ensures { Done (build4 (list_builder [] 0) values.now n (length out.old)) out.old result out.new }
{
    build_type4(values, n, Rule::LastThree, out)
}

// The flag rules of ISO 32000-1, 8.7.4.5.5, read over the list: it goes on from the triangle before.
pub fn published_type4_from_array(values: &[f64], n: usize, out: &mut [f64]) -> Answer
    ensures { Done (build4 (triangles triangle_before) values.now n (length out.old)) out.old result out.new }
{
    build_type4(values, n, Rule::TriangleBefore, out)
}

// The Type 5 builder of 000.
pub fn build_type5_from_array(values: &[f64], n: usize, row: usize, out: &mut [f64]) -> Answer
    ensures { Done (build5 values.now n row (length out.old)) out.old result out.new }
{
    let input = accepting::list(values, false, n)?;
    let vertices = Vertices::new(input, rows::WHOLE_NUMBER);
    lattice_form(&vertices, &[], row, out)
}

// ISO 32000-1, 8.7.4.5.6, read over the list: the same triangles.
pub fn published_type5_from_array(values: &[f64], n: usize, row: usize, out: &mut [f64]) -> Answer
    ensures { Done (build5 values.now n row (length out.old)) out.old result out.new }
{
    build_type5_from_array(values, n, row, out)
}
