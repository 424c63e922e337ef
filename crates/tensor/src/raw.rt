// Coons patches of raw numbers.
ghost use Rattle.std.specs.Prelude.{◌≡◌, true, false, map, ◌++◌, ◌+◌, ◌*◌, ◌≤◌, pos, length, IsSome, IfSome};
ghost use Rattle.lists.specs.Lists.{flat};
ghost use Rattle.lists.specs.Writing.{put};
ghost use Rattle.answers.specs.Limits.{most_components, most_numbers};
ghost use Rattle.rules.specs.Meshes.{size_after};
ghost use Rattle.tensor.specs.Turning.{raw, tensor_patch, numbers_of};
ghost use Rattle.tensor.specs.Outcomes.{whole_records};
ghost use Rattle.tensor.specs.Inner.Standing.{patch_in, Sized, Takes, patches_of, count_of};

use crate::inner_points::{Coordinate, write_along};
use records::shape::{Kind, Shape};

// A patch: the numbers of its first side, and where the list has those of its other eight points and of its colours. c30 follows c33 there.
#[derive(Clone, Copy)]
struct Coons<'a> {
    side: [u32; 8],
    others: &'a [u32],
    c00: &'a [u32],
    c03: &'a [u32],
    c33_c30: &'a [u32],
}

impl Coordinate for u32 {
    type Inner = i64;

    ghost turning = { raw };

    // Nine times an inner coordinate. What is added and what is taken away are summed apart.
    fn inner(a: u32, b: u32, c: u32, d: u32, e: u32, f: u32, g: u32, h: u32) -> i64 {
        let more = 6 * (b as u64 + c as u64) + 3 * (f as u64 + g as u64);
        let less = 4 * (a as u64) + 2 * (d as u64 + e as u64) + h as u64;
        more as i64 - less as i64
    }
}

// How many patches a list of whole records has.
pub fn count_patches(numbers: &[u32], n: usize) -> Option<usize>
    requires components { n ≤ most_components }
    requires short { length numbers.now ≤ most_numbers }
    ensures value { result ≡ count_of (whole_records (length numbers.now) n false numbers.now) (length (patches_of n numbers.now)) }
    ensures few_patches { IfSome result (λ count. count ≤ length numbers.now) }
{
    let mut count: usize = 0;
    let mut i: usize = 0; // an index is quicker here than what is left as a slice
    while i < numbers.len() { // each record tells how many numbers it takes
        let Shape { coords, colours } = Kind::Six.shape(0 < count, numbers[i])?;
        let next = i + 1 + coords + colours * n;
        if numbers.len() < next {
            return None;
        }
        count += 1;
        i = next;
    }
    Some(count)
}

// The patch of a record, by the numbers after its flag, and how many of these it takes. The first side is the record's own for flag 0. Flag 1 takes over
// the points 3 to 6 of the patch before, flag 2 its points 6 to 9, flag 3 its points 9, 10, 11 and 0.
fn take_patch<'a>(
    before: Option<Coons<'a>>,
    flag: u32,
    own: &'a [u32],
    n: usize,
) -> (Coons<'a>, usize)
    requires few_flags { flag ≤ 3 }
    requires all_there { size_after 8 n flag ≤ length own.now }
    requires before_sized { IfSome before (Sized n) }
    requires joined_to { 1 ≤ flag → IsSome before }
    ensures taken { Takes n before.entry flag own.now result.0 }
    ensures sized { Sized n result.0 }
    ensures size { result.1 ≡ size_after 8 n flag }
{
    let mut side = [0u32; 8];
    if flag == 0 {
        let (first, own) = own.split_at(8);
        let (others, own) = own.split_at(16);
        let (c00, own) = own.split_at(n);
        let (c03, own) = own.split_at(n);
        let (c33_c30, _) = own.split_at(2 * n);
        side.copy_from_slice(first);
        return (
            Coons {
                side,
                others,
                c00,
                c03,
                c33_c30,
            },
            24 + 4 * n,
        );
    }
    let before = before.unwrap();
    let (others, own) = own.split_at(16);
    let (c33_c30, _) = own.split_at(2 * n);
    let size = 16 + 2 * n;
    let (c33, c30) = before.c33_c30.split_at(n);
    if flag == 1 {
        let (one, three) = side.split_at_mut(2);
        one.copy_from_slice(&before.side[6..8]);
        three.copy_from_slice(&before.others[0..6]);
        return (
            Coons {
                side,
                others,
                c00: before.c03,
                c03: c33,
                c33_c30,
            },
            size,
        );
    }
    if flag == 2 {
        side.copy_from_slice(&before.others[4..12]);
        return (
            Coons {
                side,
                others,
                c00: c33,
                c03: c30,
                c33_c30,
            },
            size,
        );
    }
    let (three, one) = side.split_at_mut(6);
    three.copy_from_slice(&before.others[10..16]);
    one.copy_from_slice(&before.side[0..2]);
    (
        Coons {
            side,
            others,
            c00: c30,
            c03: before.c00,
            c33_c30,
        },
        size,
    )
}

// The numbers, each times a factor.
fn write_times(numbers: &[u32], factor: u64, out: &mut [i64])
    requires small { factor ≤ 9 }
    requires as_many { length out.old ≡ length numbers.now }
    ensures { out.new ≡ map (λ x. pos (factor * x)) numbers.now }
{
    for (k, place) in out.iter_mut().enumerate() {
        *place = (factor * numbers[k] as u64) as i64;
    }
}

// The colours of a patch, unchanged. By n, not by the slices' lengths: these would be carried from patch to patch.
fn write_colours(c00: &[u32], c03: &[u32], c33_c30: &[u32], n: usize, out: &mut [i64])
    requires first { length c00.now ≡ n }
    requires second { length c03.now ≡ n }
    requires as_many { length out.old ≡ length c00.now + length c03.now + length c33_c30.now }
    ensures { out.new ≡ map pos (c00.now ++ (c03.now ++ c33_c30.now)) }
{
    let (first, rest) = out.split_at_mut(n);
    let (second, last) = rest.split_at_mut(n);
    write_times(c00, 1, first);
    write_times(c03, 1, second);
    write_times(c33_c30, 1, last);
}

// A patch: its border times nine, the inner four, its colours.
fn write_patch(patch: &Coons, n: usize, row: &mut [i64])
    requires sized { Sized n patch.now }
    requires room { length row.old ≡ 32 + 4 * n }
    ensures { row.new ≡ numbers_of (tensor_patch raw (patch_in n patch.now)) }
{
    let mut border = [0u32; 24];
    let (side, others) = border.split_at_mut(8);
    side.copy_from_slice(&patch.side);
    others.copy_from_slice(patch.others);
    let (outer, rest) = row.split_at_mut(24);
    let (inner, colours) = rest.split_at_mut(8);
    write_times(&border, 9, outer);
    write_along(&border, 0, inner);
    write_along(&border, 1, inner);
    write_colours(patch.c00, patch.c03, patch.c33_c30, n, colours);
}

pub fn write_patches(numbers: &[u32], n: usize, out: &mut [i64])
    requires components { n ≤ most_components }
    requires short { length numbers.now ≤ most_numbers }
    requires whole { whole_records (length numbers.now) n false numbers.now ≡ true }
    requires room { length (patches_of n numbers.now) * (32 + 4 * n) ≤ length out.old }
    ensures { out.new ≡ put out.old 0 (flat (λ p. numbers_of (tensor_patch raw p)) (patches_of n numbers.now)) }
{
    let size = 32 + 4 * n;
    let mut before = None;
    let mut i: usize = 0;
    let mut at: usize = 0;
    while i < numbers.len() { // each record tells how many numbers it takes
        let (patch, taken) = take_patch(before, numbers[i], &numbers[i + 1..], n);
        write_patch(&patch, n, &mut out[at..at + size]);
        before = Some(patch);
        i += 1 + taken;
        at += size;
    }
}
