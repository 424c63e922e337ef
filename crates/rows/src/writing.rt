// Numbers written to a lent output from an index, where there is room for them. Each function answers the index after them. The output and the index
// stand side by side, as in `place_points`, `place_colours` and `place_corner`, which docs/PROMISES.md names.
ghost use Rattle.std.specs.Prelude.{◌≡◌, [], ◌∷◌, ◌++◌, ◌+◌, ◌≤◌, ◌<◌, length};
ghost use Rattle.std.specs.Float.{nan};
ghost use Rattle.lists.specs.Lists.{part};
ghost use Rattle.lists.specs.Writing.{Written};
ghost use Rattle.colour.specs.Colour.{colour_numbers};
ghost use Rattle.rows.specs.Inner.Placing.{ten_numbers, row_beside, row_index, shared_rows};

use colour::{Cmyk, DeviceColor};

// It goes by value. Its components stand beside it, in the output that gets its row.
#[derive(Clone, Copy)]
pub struct Vertex {
    pub x: f64,
    pub y: f64,
    pub colour: DeviceColor,
}

const NO_INKS: Cmyk = Cmyk {
    c: 0.0,
    m: 0.0,
    y: 0.0,
    k: 0.0,
};

// Two numbers, stored together as they are copied later: see `copy_four`.
pub fn write_two(a: f64, b: f64, out: &mut [f64], at: usize) -> usize
    requires { at + 2 ≤ length out.old }
    ensures value { result ≡ at + 2 }
    ensures written { Written out.old out.new at (a ∷ b ∷ []) result }
{
    out[at] = a;
    out[at + 1] = b;
    at + 2
}

fn write_four(a: f64, b: f64, c: f64, d: f64, out: &mut [f64], at: usize) -> usize
    requires { at + 4 ≤ length out.old }
    ensures value { result ≡ at + 4 }
    ensures written { Written out.old out.new at (a ∷ b ∷ c ∷ d ∷ []) result }
{
    let p = write_two(a, b, out, at);
    write_two(c, d, out, p)
}

// r, g, b, mark, c, m, y, k.
pub fn write_eight(colour: DeviceColor, out: &mut [f64], at: usize) -> usize
    requires { at + 8 ≤ length out.old }
    ensures value { result ≡ at + 8 }
    ensures written { Written out.old out.new at (colour_numbers colour) result }
{
    let (mark, inks) = match colour.inks {
        Some(inks) => (1.0, inks),
        None => (0.0, NO_INKS),
    };
    let p = write_four(colour.r, colour.g, colour.b, mark, out, at);
    write_four(inks.c, inks.m, inks.y, inks.k, out, p)
}

// Numbers of a list, two at a time: see `copy_four`. The archive calls no memcpy, and a `for` over the pairs is unrolled, which is slower for so few.
pub fn write_part(values: &[f64], out: &mut [f64], at: usize) -> usize
    requires { at + length values.now ≤ length out.old }
    ensures value { result ≡ at + length values.now }
    ensures written { Written out.old out.new at values.now result }
{
    let n = values.len();
    let mut j: usize = 0;
    while j + 1 < n {
        let a = values[j];
        let b = values[j + 1];
        out[at + j] = a;
        out[at + j + 1] = b;
        j += 2;
    }
    if j < n {
        out[at + j] = values[j]; // the last of an odd count
    }
    at + n
}

// Numbers that stand in out already, two at a time: see `write_part`. By `split_at_mut` and that function lattices take 4 to 15 % longer.
pub fn copy_part(out: &mut [f64], from: usize, n: usize, at: usize) -> usize
    requires before { from + n ≤ at }
    requires room { at + n ≤ length out.old }
    ensures value { result ≡ at + n }
    ensures written { Written out.old out.new at (part nan out.old from n) result }
{
    let mut j: usize = 0;
    while j + 1 < n {
        let a = out[from + j];
        let b = out[from + j + 1];
        out[at + j] = a;
        out[at + j + 1] = b;
        j += 2;
    }
    if j < n {
        out[at + j] = out[from + j]; // the last of an odd count
    }
    at + n
}

// Half of a colour's eight numbers. A machine that has just stored two numbers together hands them on together, and single ones alone; so they are
// taken here as they are stored.
fn copy_four(out: &mut [f64], from: usize, at: usize) -> usize
    requires before { from + 4 ≤ at }
    requires room { at + 4 ≤ length out.old }
    ensures value { result ≡ at + 4 }
    ensures written { Written out.old out.new at (part nan out.old from 4) result }
{
    let p = copy_part(out, from, 2, at);
    let q = copy_part(out, from + 2, 1, p);
    copy_part(out, from + 3, 1, q)
}

// A colour's eight numbers and its n components, of one output: see `copy_part`.
pub fn copy_colour(out: &mut [f64], from: usize, n: usize, at: usize) -> usize
    requires before { from + (8 + n) ≤ at }
    requires room { at + (8 + n) ≤ length out.old }
    ensures value { result ≡ at + (8 + n) }
    ensures written { Written out.old out.new at (part nan out.old from (8 + n)) result }
{
    let p = copy_four(out, from, at);
    let q = copy_four(out, from + 4, p);
    copy_part(out, from + 8, n, q)
}

// The row of a vertex, of one output: two numbers and a colour.
pub fn copy_row(out: &mut [f64], from: usize, n: usize, at: usize) -> usize
    requires before { from + (10 + n) ≤ at }
    requires room { at + (10 + n) ≤ length out.old }
    ensures value { result ≡ at + (10 + n) }
    ensures written { Written out.old out.new at (part nan out.old from (10 + n)) result }
{
    let p = copy_part(out, from, 2, at);
    copy_colour(out, from + 2, n, p)
}

// ---- a vertex

// The ten numbers before its components: x, y and those of its colour.
fn write_vertex(vertex: Vertex, out: &mut [f64], at: usize) -> usize
    requires { at + 10 ≤ length out.old }
    ensures value { result ≡ at + 10 }
    ensures written { Written out.old out.new at (ten_numbers vertex) result }
{
    let p = write_two(vertex.x, vertex.y, out, at);
    write_eight(vertex.colour, out, p)
}

// Where its row begins, with or without a side.
pub fn row_index(side: usize, n: usize, at: usize) -> usize
    requires few { n ≤ 32 }
    requires small { at ≤ 1152921504606846976 }
    ensures { result ≡ row_index side (10 + n) at }
{
    if side < at { at + 2 * (10 + n) } else { at }
}

// Writes the rows of a triangle that come with a vertex: its own, whose components stand beside it already, and before it the two of the side.
pub fn write_corner(vertex: Vertex, side: usize, n: usize, out: &mut [f64], at: usize) -> usize
    requires few { n ≤ 32 }
    requires room { row_index side (10 + n) at + (10 + n) ≤ length out.old }
    requires before { side < at → side + (10 + n) ≤ at }
    ensures value { result ≡ row_index side (10 + n) at + (10 + n) }
    ensures written { Written out.old out.new at (shared_rows out.old side (10 + n) at ++ row_beside out.old (row_index side (10 + n) at) n vertex) result }
{
    let end = write_vertex(vertex, out, row_index(side, n, at)) + n;
    if side < at {
        let second = at - (10 + n);
        let p = copy_row(out, side, n, at);
        copy_row(out, second, n, p);
    }
    end
}
