// What a number of the input stands for: a raw number taken through Decode, the flag that a float of a list stands for, and the float of a
// pattern of bits. Each operation on floats is rounded once.
#![tactic(auto)]

ghost use Rattle.std.specs.Prelude.{◌≡◌, ◌+◌, ◌*◌, ◌≤◌, from_bits, slice_index_or};
ghost use Rattle.std.specs.Float.{binary64};
ghost use Rattle.decode.specs.Decode.{scale_of, value_of, range_of, flag_of};

use bits::width_is_readable;

pub mod stored;

// (max - min) / (2 ^ bits - 1); 0.0 for a width outside 1..32, which no readable layout has.
pub fn decode_scale(bits: usize, min: f64, max: f64) -> f64
    ensures { result ≡ scale_of bits min max }
{
    if !width_is_readable(bits) {
        return 0.0;
    }
    let top = (1u64 << bits) - 1;
    (max - min) / (top as f64)
}

// min + raw * scale.
pub fn decode_value(raw: u32, scale: f64, min: f64) -> f64
    ensures { result ≡ value_of raw scale min }
{
    min + (raw as f64) * scale
}

// Where the numbers of a kind start, and how far apart they are.
#[derive(Clone, Copy, Debug, PartialEq)]
pub struct Range {
    pub min: f64,
    pub scale: f64,
}

// One of a kind's two entries of Decode, 0 for the least number and 1 for the greatest: kind 0 is x, kind 1 is y, kind 2 + i is component i. Where there is
// no such entry, what stands for it.
fn entry_or(decode: &[f64], kind: usize, side: usize, other: f64) -> f64
    requires { side ≤ 1 }
    ensures { result ≡ slice_index_or decode.now (2 * kind + side) other }
{
    if decode.len() <= kind {
        return other; // else twice the kind might not fit a usize
    }
    decode.get(2 * kind + side).copied().unwrap_or(other)
}

// The range of a kind whose numbers have so many bits. Decode's missing entries are 0.0 for the least number and 1.0 for the greatest.
pub fn decode_range(decode: &[f64], kind: usize, bits: usize) -> Range
    ensures { result ≡ range_of decode.now kind bits }
{
    let min = entry_or(decode, kind, 0, 0.0);
    let max = entry_or(decode, kind, 1, 1.0);
    let scale = decode_scale(bits, min, max);
    Range { min, scale }
}

// Rust's x as u32: NaN and what is below 0 give 0, what is too large the largest, and the fraction is cut off.
pub fn flag_of(x: f64) -> u32
    ensures { result ≡ flag_of x }
{
    std::num::saturating_f64_to_u32(x)
}

// The float of a pattern of 64 bits. Every NaN's pattern gives the one NaN of the logic.
pub fn float_of(pattern: u64) -> f64
    ensures { result ≡ from_bits binary64 pattern }
{
    std::num::f64_from_bits_with_nan(pattern)
}
