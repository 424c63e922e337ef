// The first pass: whether a list can be packed, and how many bits it takes.
ghost use Rattle.std.specs.Prelude.{◌≡◌, false, [], ◌^◌, ◌≤◌, ◌<◌, ltb, length};
ghost use Rattle.answers.specs.Limits.{most_numbers};
ghost use Rattle.records.specs.Inner.Walk.{format_of};
ghost use Rattle.packing.specs.Packed.{packed};
ghost use Rattle.packing.specs.Inner.Passes.{fits, record_fits, measure_of};

use records::mesh::{Mesh, Rest};

// Whether a number fits a width.
fn fits_width(x: u32, w: usize) -> bool
    requires { w ≤ 32 }
    ensures { result ≡ ltb x (2 ^ w) }
{
    (x as u64) < (1u64 << w)
}

// Whether each number of a run fits a width. Their or fits exactly when each does.
fn run_fits(run: &[u32], w: usize) -> bool
    requires { w ≤ 32 }
    ensures { result ≡ fits w run.now }
{
    let mut all = 0;
    for x in run {
        all |= *x;
    }
    fits_width(all, w)
}

// Whether the record at an index is there and each number of it fits its width.
fn record_fits(numbers: &[u32], i: usize, mesh: Mesh, rest: Rest) -> bool
    requires { i < length numbers.now }
    ensures { result ≡ record_fits mesh rest.coords rest.comps numbers.now i }
{
    let coords = i + 1;
    if numbers.len() - coords < rest.coords + rest.comps {
        return false;
    }
    let comps = coords + rest.coords;
    fits_width(numbers[i], mesh.first)
        && run_fits(&numbers[coords..comps], mesh.coord)
        && run_fits(&numbers[comps..comps + rest.comps], mesh.comp)
}

// How many bits a list takes; None where it is not accepted.
pub fn measure(numbers: &[u32], mesh: Mesh) -> Option<usize>
    requires { length numbers.now ≤ most_numbers }
    ensures { result ≡ measure_of (packed (format_of mesh) false [] numbers.now) }
{
    let mut total = 0;
    let mut i = 0;
    while i < numbers.len() { // by whole records: each tells how far the next one is
        let rest = mesh.rest(0 < i, numbers[i])?;
        if !record_fits(numbers, i, mesh, rest) {
            return None;
        }
        total += mesh.record_size(rest);
        i += 1 + rest.coords + rest.comps;
    }
    Some(total)
}
