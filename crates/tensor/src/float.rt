// Coons patches of f64, as a reader has written them. With raw patches they share `write_along`: a raw patch has a flag, sides to take over, and other
// sizes.
ghost use Rattle.std.specs.Prelude.{◌≡◌, ℕ, ◌+◌, ◌*◌, ◌/◌, ◌%◌, ◌≤◌, length};
ghost use Rattle.lists.specs.Lists.{flat};
ghost use Rattle.lists.specs.Writing.{put};
ghost use Rattle.answers.specs.Limits.{most_components, most_numbers};
ghost use Rattle.tensor.specs.Turning.{rounded, tensor_patch, numbers_of};
ghost use Rattle.tensor.specs.Outcomes.{coons_size, read_patches};
ghost use Rattle.tensor.specs.Inner.Placing.{read_patch};

use crate::inner_points::{Coordinate, write_along};

impl Coordinate for f64 {
    type Inner = f64;

    ghost turning = { rounded };

    fn inner(a: f64, b: f64, c: f64, d: f64, e: f64, f: f64, g: f64, h: f64) -> f64 {
        (-4.0 * a + 6.0 * (b + c) - 2.0 * (d + e) + 3.0 * (f + g) - h) / 9.0
    }
}

// Numbers copied one by one: `copy_from_slice` on a length that isn't known would call the C library.
fn copy(values: &[f64], out: &mut [f64])
    requires as_many { length out.old ≡ length values.now }
    ensures { out.new ≡ values.now }
{
    for (k, place) in out.iter_mut().enumerate() {
        *place = values[k];
    }
}

// A patch: its border, the inner four, its colours.
fn write_patch(patch: &[f64], row: &mut [f64])
    requires border { 24 ≤ length patch.now }
    requires room { length row.old ≡ length patch.now + 8 }
    ensures { (n : ℕ) → length patch.now ≡ coons_size n → row.new ≡ numbers_of (tensor_patch rounded (read_patch n patch.now 0)) }
{
    let (points, colours) = patch.split_at(24);
    let (outer, rest) = row.split_at_mut(24);
    let (inner, rest) = rest.split_at_mut(8);
    // A border of its own: taken from the list in the midst of the writing it costs half as much again.
    let mut border = [0.0; 24];
    border.copy_from_slice(points);
    outer.copy_from_slice(&border);
    write_along(&border, 0, inner);
    write_along(&border, 1, inner);
    copy(colours, rest);
}

// The patches of whole records.
pub fn write_patches(values: &[f64], n: usize, out: &mut [f64])
    requires components { n ≤ most_components }
    requires short { length values.now ≤ most_numbers }
    requires whole { length values.now % coons_size n ≡ 0 }
    requires room { length values.now / coons_size n * (coons_size n + 8) ≤ length out.old }
    ensures { out.new ≡ put out.old 0 (flat (λ p. numbers_of (tensor_patch rounded p)) (read_patches n values.now)) }
{
    let size = 24 + 4 * (8 + n);
    let row = size + 8;
    let mut at: usize = 0;
    for patch in values.chunks_exact(size) {
        write_patch(patch, &mut out[at..at + row]);
        at += row;
    }
}
