// The library for C and Rust programs: each function tells what the library's own function answers.
#![tactic(auto)]

ghost use Rattle.std.specs.Prelude.{[], length};
ghost use Rattle.std.proofs.Math.Option.{none};
ghost use Rattle.answers.specs.Outcome.{Tells};
ghost use Rattle.records.specs.declared.shape.Kind.TheVariants as Kind;
ghost use Rattle.records.specs.Format.{whole_number, two_low_bits};
ghost use Rattle.records.specs.Raw.{raw_read};
ghost use Rattle.packing.specs.Writer.{raw_write};
ghost use Rattle.rules.specs.Triangles.{triangle_before, triangles};
ghost use Rattle.rules.specs.Ported.{binary_reader, list_builder};
ghost use Rattle.rules.specs.Patches.{sides, list_sides};
ghost use Rattle.meshes.specs.Outcomes.{parse4, parse5, parse6, parse7, build4, build5, build6, build7};
ghost use Rattle.tensor.specs.Outcomes.{coons_to_tensor_raw, coons_to_tensor};

use answers::Told;

// Meshes from bytes, as 000 reads them.

#[unsafe(no_mangle)]
pub extern "C" fn mesh_parse_type4(
    data: &[u8],
    coord: usize,
    comp: usize,
    flag: usize,
    decode: &[f64],
    n: usize,
    out: &mut [f64],
) -> Told
    ensures { Tells (parse4 whole_number (binary_reader none 0) «data».now coord comp flag decode.now n (length out.old)) out.old result out.new }
{
    triangles::parse_type4_mesh(data, coord, comp, flag, decode, n, out).into()
}

#[unsafe(no_mangle)]
pub extern "C" fn mesh_parse_type5(
    data: &[u8],
    coord: usize,
    comp: usize,
    decode: &[f64],
    n: usize,
    row: usize,
    out: &mut [f64],
) -> Told
    ensures { Tells (parse5 «data».now coord comp decode.now n row (length out.old)) out.old result out.new }
{
    triangles::parse_type5_mesh(data, coord, comp, decode, n, row, out).into()
}

#[unsafe(no_mangle)]
pub extern "C" fn mesh_parse_type6(
    data: &[u8],
    coord: usize,
    comp: usize,
    flag: usize,
    decode: &[f64],
    n: usize,
    out: &mut [f64],
) -> Told
    ensures { Tells (parse6 whole_number sides «data».now coord comp flag decode.now n (length out.old)) out.old result out.new }
{
    patches::parse_type6_patches(data, coord, comp, flag, decode, n, out).into()
}

#[unsafe(no_mangle)]
pub extern "C" fn mesh_parse_type7(
    data: &[u8],
    coord: usize,
    comp: usize,
    flag: usize,
    decode: &[f64],
    n: usize,
    out: &mut [f64],
) -> Told
    ensures { Tells (parse7 whole_number sides «data».now coord comp flag decode.now n (length out.old)) out.old result out.new }
{
    patches::parse_type7_patches(data, coord, comp, flag, decode, n, out).into()
}

// Meshes from bytes, as ISO 32000-1 says, but for what docs/DIFFERENCES.md lists.

#[unsafe(no_mangle)]
pub extern "C" fn mesh_published_type4(
    data: &[u8],
    coord: usize,
    comp: usize,
    flag: usize,
    decode: &[f64],
    n: usize,
    out: &mut [f64],
) -> Told
    ensures { Tells (parse4 two_low_bits (triangles triangle_before) «data».now coord comp flag decode.now n (length out.old)) out.old result out.new }
{
    triangles::published_type4_mesh(data, coord, comp, flag, decode, n, out).into()
}

#[unsafe(no_mangle)]
pub extern "C" fn mesh_published_type5(
    data: &[u8],
    coord: usize,
    comp: usize,
    decode: &[f64],
    n: usize,
    row: usize,
    out: &mut [f64],
) -> Told
    ensures { Tells (parse5 «data».now coord comp decode.now n row (length out.old)) out.old result out.new }
{
    triangles::published_type5_mesh(data, coord, comp, decode, n, row, out).into()
}

#[unsafe(no_mangle)]
pub extern "C" fn mesh_published_type6(
    data: &[u8],
    coord: usize,
    comp: usize,
    flag: usize,
    decode: &[f64],
    n: usize,
    out: &mut [f64],
) -> Told
    ensures { Tells (parse6 two_low_bits sides «data».now coord comp flag decode.now n (length out.old)) out.old result out.new }
{
    patches::published_type6_patches(data, coord, comp, flag, decode, n, out).into()
}

#[unsafe(no_mangle)]
pub extern "C" fn mesh_published_type7(
    data: &[u8],
    coord: usize,
    comp: usize,
    flag: usize,
    decode: &[f64],
    n: usize,
    out: &mut [f64],
) -> Told
    ensures { Tells (parse7 two_low_bits sides «data».now coord comp flag decode.now n (length out.old)) out.old result out.new }
{
    patches::published_type7_patches(data, coord, comp, flag, decode, n, out).into()
}

// Meshes from a list of numbers, as 000 builds them.

#[unsafe(no_mangle)]
pub extern "C" fn mesh_build_type4(values: &[f64], n: usize, out: &mut [f64]) -> Told
    ensures { Tells (build4 (list_builder [] 0) values.now n (length out.old)) out.old result out.new }
{
    triangles::build_type4_from_array(values, n, out).into()
}

#[unsafe(no_mangle)]
pub extern "C" fn mesh_build_type5(values: &[f64], n: usize, row: usize, out: &mut [f64]) -> Told
    ensures { Tells (build5 values.now n row (length out.old)) out.old result out.new }
{
    triangles::build_type5_from_array(values, n, row, out).into()
}

#[unsafe(no_mangle)]
pub extern "C" fn mesh_build_type6(values: &[f64], n: usize, out: &mut [f64]) -> Told
    ensures { Tells (build6 sides values.now n (length out.old)) out.old result out.new }
{
    patches::build_type6_from_array(values, n, out).into()
}

#[unsafe(no_mangle)]
pub extern "C" fn mesh_build_type7(values: &[f64], n: usize, out: &mut [f64]) -> Told
    ensures { Tells (build7 list_sides values.now n (length out.old)) out.old result out.new }
{
    patches::build_type7_from_array(values, n, out).into()
}

// Meshes from a list of numbers, by the flag rules of ISO 32000-1.

#[unsafe(no_mangle)]
pub extern "C" fn mesh_build_published_type4(values: &[f64], n: usize, out: &mut [f64]) -> Told
    ensures { Tells (build4 (triangles triangle_before) values.now n (length out.old)) out.old result out.new }
{
    triangles::published_type4_from_array(values, n, out).into()
}

#[unsafe(no_mangle)]
pub extern "C" fn mesh_build_published_type5(
    values: &[f64],
    n: usize,
    row: usize,
    out: &mut [f64],
) -> Told
    ensures { Tells (build5 values.now n row (length out.old)) out.old result out.new }
{
    triangles::published_type5_from_array(values, n, row, out).into()
}

#[unsafe(no_mangle)]
pub extern "C" fn mesh_build_published_type6(values: &[f64], n: usize, out: &mut [f64]) -> Told
    ensures { Tells (build6 sides values.now n (length out.old)) out.old result out.new }
{
    patches::published_type6_from_array(values, n, out).into()
}

#[unsafe(no_mangle)]
pub extern "C" fn mesh_build_published_type7(values: &[f64], n: usize, out: &mut [f64]) -> Told
    ensures { Tells (build7 sides values.now n (length out.old)) out.old result out.new }
{
    patches::published_type7_from_array(values, n, out).into()
}

// Raw numbers from bytes.

#[unsafe(no_mangle)]
pub extern "C" fn mesh_raw_read_type4(
    data: &[u8],
    coord: usize,
    comp: usize,
    flag: usize,
    n: usize,
    out: &mut [u32],
) -> Told
    ensures { Tells (raw_read Kind.Four flag coord comp n «data».now (length out.old)) out.old result out.new }
{
    records::raw::raw_read_type4(data, coord, comp, flag, n, out).into()
}

#[unsafe(no_mangle)]
pub extern "C" fn mesh_raw_read_type5(
    data: &[u8],
    coord: usize,
    comp: usize,
    n: usize,
    out: &mut [u32],
) -> Told
    ensures { Tells (raw_read Kind.Five coord coord comp n «data».now (length out.old)) out.old result out.new }
{
    records::raw::raw_read_type5(data, coord, comp, n, out).into()
}

#[unsafe(no_mangle)]
pub extern "C" fn mesh_raw_read_type6(
    data: &[u8],
    coord: usize,
    comp: usize,
    flag: usize,
    n: usize,
    out: &mut [u32],
) -> Told
    ensures { Tells (raw_read Kind.Six flag coord comp n «data».now (length out.old)) out.old result out.new }
{
    records::raw::raw_read_type6(data, coord, comp, flag, n, out).into()
}

#[unsafe(no_mangle)]
pub extern "C" fn mesh_raw_read_type7(
    data: &[u8],
    coord: usize,
    comp: usize,
    flag: usize,
    n: usize,
    out: &mut [u32],
) -> Told
    ensures { Tells (raw_read Kind.Seven flag coord comp n «data».now (length out.old)) out.old result out.new }
{
    records::raw::raw_read_type7(data, coord, comp, flag, n, out).into()
}

// Bytes from raw numbers.

#[unsafe(no_mangle)]
pub extern "C" fn mesh_raw_write_type4(
    numbers: &[u32],
    coord: usize,
    comp: usize,
    flag: usize,
    n: usize,
    out: &mut [u8],
) -> Told
    ensures { Tells (raw_write Kind.Four flag coord comp n numbers.now (length out.old)) out.old result out.new }
{
    packing::raw_write_type4(numbers, coord, comp, flag, n, out).into()
}

#[unsafe(no_mangle)]
pub extern "C" fn mesh_raw_write_type5(
    numbers: &[u32],
    coord: usize,
    comp: usize,
    n: usize,
    out: &mut [u8],
) -> Told
    ensures { Tells (raw_write Kind.Five coord coord comp n numbers.now (length out.old)) out.old result out.new }
{
    packing::raw_write_type5(numbers, coord, comp, n, out).into()
}

#[unsafe(no_mangle)]
pub extern "C" fn mesh_raw_write_type6(
    numbers: &[u32],
    coord: usize,
    comp: usize,
    flag: usize,
    n: usize,
    out: &mut [u8],
) -> Told
    ensures { Tells (raw_write Kind.Six flag coord comp n numbers.now (length out.old)) out.old result out.new }
{
    packing::raw_write_type6(numbers, coord, comp, flag, n, out).into()
}

#[unsafe(no_mangle)]
pub extern "C" fn mesh_raw_write_type7(
    numbers: &[u32],
    coord: usize,
    comp: usize,
    flag: usize,
    n: usize,
    out: &mut [u8],
) -> Told
    ensures { Tells (raw_write Kind.Seven flag coord comp n numbers.now (length out.old)) out.old result out.new }
{
    packing::raw_write_type7(numbers, coord, comp, flag, n, out).into()
}

// Coons patches turned into tensor-product patches.

#[unsafe(no_mangle)]
pub extern "C" fn mesh_coons_to_tensor_raw(numbers: &[u32], n: usize, out: &mut [i64]) -> Told
    ensures { Tells (coons_to_tensor_raw n numbers.now (length out.old)) out.old result out.new }
{
    tensor::coons_to_tensor_raw(numbers, n, out).into()
}

#[unsafe(no_mangle)]
pub extern "C" fn mesh_coons_to_tensor(values: &[f64], n: usize, out: &mut [f64]) -> Told
    ensures { Tells (coons_to_tensor n values.now (length out.old)) out.old result out.new }
{
    tensor::coons_to_tensor(values, n, out).into()
}
