// The bit reader: numbers of 1 to 32 bits, taken from the high end of each byte, bytes in order.
// A place is handed in and the next one handed back; the slice is lent for each read.
#![tactic(auto)]

ghost use Rattle.std.specs.Prelude.{◌≡◌, ◌++◌, ◌+◌, ◌-◌, ◌*◌, ◌/◌, ◌%◌, ◌^◌, ◌≤◌, ◌<◌, length, get_or, replicate};
ghost use Rattle.bits.specs.Bits.{field_at};
ghost use Rattle.bits.specs.Reading.{readable, read_at, exhausted_at};
ghost use Rattle.bits.specs.Inner.Gathering.{Gathers};

// A bit position, counted from the first byte's high bit.
#[derive(Clone, Copy)]
pub struct BitPos(pub usize);

// A byte place, counted from the first byte.
#[derive(Clone, Copy)]
pub struct BytePlace(pub usize);

// Whether numbers of so many bits can be read.
pub fn width_is_readable(bits: usize) -> bool
    ensures { result ≡ readable bits }
{
    1 <= bits && bits <= 32
}

// The byte that a bit position lies in.
pub fn byte_of(at: BitPos) -> BytePlace
    ensures { result.0 ≡ at.0 / 8 }
{
    BytePlace(at.0 / 8)
}

// Whether no byte is left at a place.
pub fn exhausted(data: &[u8], at: BitPos) -> bool
    ensures { result ≡ exhausted_at «data».now at.0 }
{
    data.len() <= byte_of(at).0
}

// The bits of eight bytes from a place, as a number. A machine can load them at once.
fn eight_bytes(data: &[u8], from: BytePlace) -> u64
    requires { from.0 + 8 ≤ length «data».now }
    ensures { Gathers «data».now from.0 8 result }
{
    u64::from_be_bytes(*data[from.0..].first_chunk().unwrap())
}

// The bits of the first eight bytes, as a number. Zeros stand for bytes that aren't there.
fn first_eight(data: &[u8]) -> u64
    ensures { Gathers («data».now ++ replicate 8 0) 0 8 result }
{
    let mut accum = 0;
    for k in 0..8 {
        accum = (accum << 8) | u64::from(data.get(k).copied().unwrap_or(0));
    }
    accum
}

// Of eight gathered bytes, the n bits at an offset: what stands before them is shifted out, then what stands after them.
fn window(accum: u64, offset: usize, n: usize) -> u32
    requires some { 1 ≤ n }
    requires few { n ≤ 32 }
    requires inside { offset + n ≤ 64 }
    ensures { result ≡ accum / 2 ^ (64 - offset - n) % 2 ^ n }
{
    ((accum << offset) >> (64 - n)) as u32
}

// The n bits at an offset into the first byte, all of which exist.
fn field(data: &[u8], offset: usize, n: usize) -> u32
    requires first_byte { offset < 8 }
    requires some { 1 ≤ n }
    requires few { n ≤ 32 }
    requires whole { offset + n ≤ 8 * length «data».now }
    ensures { result ≡ field_at «data».now offset n }
{
    window(first_eight(data), offset, n)
}

// Reads n bits at a place, as `read` does, for a number that is read now and then. It hands on a part of the slice and never the slice itself, so
// that a caller can keep the slice in registers. It is never put into a caller: the loops that read would be too large.
#[inline(never)]
pub fn read_seldom(data: &[u8], at: BitPos, n: usize) -> Option<(u32, BitPos)>
    ensures { result ≡ read_at «data».now at.0 n }
{
    if n == 0 {
        return Some((0, at));
    }
    if n > 32 {
        return None;
    }
    let end = at.0.checked_add(n)?;
    let BytePlace(byte) = byte_of(at);
    let offset = at.0 % 8;
    let rest = data.get(byte..)?;
    if rest.len() < (offset + n).div_ceil(8) {
        return None; // not all bits exist
    }
    Some((field(rest, offset, n), BitPos(end)))
}

// Reads n bits at a place: the number and the place after it, or the end. A read of 0 bits gives 0. All but the last bytes are read eight at
// once, which is little enough for a compiler to put into a loop. The last ones go by `read_seldom`, which it must leave out of there:
// docs/DECISIONS.md, "The bit read".
pub fn read(data: &[u8], at: BitPos, n: usize) -> Option<(u32, BitPos)>
    ensures { result ≡ read_at «data».now at.0 n }
{
    let place = byte_of(at);
    let counted = data.len() <= 0x1fff_ffff_ffff_ffff; // a usize counts its bits
    if width_is_readable(n) && place.0 + 8 <= data.len() && counted {
        let number = window(eight_bytes(data, place), at.0 % 8, n);
        return Some((number, BitPos(at.0 + n)));
    }
    read_seldom(data, at, n)
}
