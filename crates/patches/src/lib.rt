// The readers and builders of Types 6 and 7, the Coons and the tensor-product patch mesh. One code serves both types, both readings, and both
// sources of records: bits, and a list of numbers.
#![tactic(auto)]

ghost use Rattle.std.specs.Prelude.{◌≡◌, length};
ghost use Rattle.answers.specs.Outcome.{Done};
ghost use Rattle.records.specs.Format.{whole_number, two_low_bits};
ghost use Rattle.rows.specs.Inner.Sources.{masked};
ghost use Rattle.rules.specs.Patches.{sides, list_sides};
ghost use Rattle.meshes.specs.Outcomes.{parse6, parse7, build6, build7};
ghost use Rattle.patches.specs.Inner.Forms.{parsed_form, built_form};

use crate::finding::Records;
use crate::forms::Form;
use answers::Answer;

mod finding;
mod forms;
mod writing;

// Every form and both readings: the mask has the bits of a flag that count.
fn parse_patches(
    data: &[u8],
    coord: usize,
    comp: usize,
    flag: usize,
    mask: u32,
    decode: &[f64],
    n: usize,
    form: Form,
    out: &mut [f64],
) -> Answer
    ensures { Done (parsed_form form (masked mask) «data».now coord comp flag decode.now n (length out.old)) out.old result out.new }
{
    let input = accepting::bits(data, coord, comp, Some(flag), decode, n)?;
    Records::new(input, mask, form).patches(decode, out)
}

fn build_patches(values: &[f64], n: usize, form: Form, out: &mut [f64]) -> Answer
    ensures { Done (built_form form values.now n (length out.old)) out.old result out.new }
{
    let input = accepting::list(values, true, n)?;
    Records::new(input, rows::WHOLE_NUMBER, form).patches(&[], out)
}

// ---- from bytes

// The readers of 000: a flag is the whole number.

pub fn parse_type6_patches(
    data: &[u8],
    coord: usize,
    comp: usize,
    flag: usize,
    decode: &[f64],
    n: usize,
    out: &mut [f64],
) -> Answer
    ensures { Done (parse6 whole_number sides «data».now coord comp flag decode.now n (length out.old)) out.old result out.new }
{
    parse_patches(
        data,
        coord,
        comp,
        flag,
        rows::WHOLE_NUMBER,
        decode,
        n,
        Form::Coons,
        out,
    )
}

pub fn parse_type7_patches(
    data: &[u8],
    coord: usize,
    comp: usize,
    flag: usize,
    decode: &[f64],
    n: usize,
    out: &mut [f64],
) -> Answer
    ensures { Done (parse7 whole_number sides «data».now coord comp flag decode.now n (length out.old)) out.old result out.new }
{
    parse_patches(
        data,
        coord,
        comp,
        flag,
        rows::WHOLE_NUMBER,
        decode,
        n,
        Form::Tensor,
        out,
    )
}

// As ISO 32000-1, 8.7.4.5.7 and 8.7.4.5.8, has them, but for what docs/DIFFERENCES.md lists: a flag is its two low bits.

pub fn published_type6_patches(
    data: &[u8],
    coord: usize,
    comp: usize,
    flag: usize,
    decode: &[f64],
    n: usize,
    out: &mut [f64],
) -> Answer
    ensures { Done (parse6 two_low_bits sides «data».now coord comp flag decode.now n (length out.old)) out.old result out.new }
{
    parse_patches(
        data,
        coord,
        comp,
        flag,
        rows::TWO_LOW_BITS,
        decode,
        n,
        Form::Coons,
        out,
    )
}

pub fn published_type7_patches(
    data: &[u8],
    coord: usize,
    comp: usize,
    flag: usize,
    decode: &[f64],
    n: usize,
    out: &mut [f64],
) -> Answer
    ensures { Done (parse7 two_low_bits sides «data».now coord comp flag decode.now n (length out.old)) out.old result out.new }
{
    parse_patches(
        data,
        coord,
        comp,
        flag,
        rows::TWO_LOW_BITS,
        decode,
        n,
        Form::Tensor,
        out,
    )
}

// ---- from a list of numbers

pub fn build_type6_from_array(values: &[f64], n: usize, out: &mut [f64]) -> Answer
    ensures { Done (build6 sides values.now n (length out.old)) out.old result out.new }
{
    build_patches(values, n, Form::Coons, out)
}

pub fn build_type7_from_array(values: &[f64], n: usize, out: &mut [f64]) -> Answer
    ensures { Done (build7 list_sides values.now n (length out.old)) out.old result out.new }
{
    build_patches(values, n, Form::Grid, out)
}

// The published reading of the Type 6 list is the ported one; of the Type 7 list it takes the sides by the border.

pub fn published_type6_from_array(values: &[f64], n: usize, out: &mut [f64]) -> Answer
    ensures { Done (build6 sides values.now n (length out.old)) out.old result out.new }
{
    build_patches(values, n, Form::Coons, out)
}

pub fn published_type7_from_array(values: &[f64], n: usize, out: &mut [f64]) -> Answer
    ensures { Done (build7 sides values.now n (length out.old)) out.old result out.new }
{
    build_patches(values, n, Form::Tensor, out)
}
