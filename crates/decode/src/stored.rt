// Numbers that a file stores high byte first.
ghost use Rattle.std.specs.Prelude.{◌≡◌, ◌^◌, ◌<◌, length};
ghost use Rattle.decode.specs.Inner.Reading.{big_endian_or0, big_endian_at_or0, with_floats, with_floats_at};

use crate::float_of;

// The number that bytes make; 0 for more than eight of them.
pub fn big_endian(bytes: &[u8]) -> u64
    ensures value { result ≡ big_endian_or0 bytes.now }
    ensures below { result < 256 ^ length bytes.now }
{
    if bytes.len() > 8 {
        return 0;
    }
    let mut number = 0;
    for byte in bytes {
        number = 256 * number + u64::from(*byte);
    }
    number
}

// The number of k bytes from an index on; 0 for more than eight of them, and where not all are there. Any index: so docs/PROMISES.md has it.
pub fn big_endian_at(bytes: &[u8], at: usize, k: usize) -> u64
    ensures value { result ≡ big_endian_at_or0 bytes.now at k }
    ensures below { result < 256 ^ k }
{
    if k > 8 {
        return 0;
    }
    if bytes.len() < k {
        return 0;
    }
    if bytes.len() - k < at {
        return 0;
    }
    big_endian(&bytes[at..at + k])
}

// The k floats from an index on to the front of out; nothing where not all bytes are there, or no room. Any index: so docs/PROMISES.md has it.
pub fn read_floats_at(bytes: &[u8], at: usize, k: usize, out: &mut [f64])
    ensures { out.new ≡ with_floats_at out.old bytes.now at k }
{
    if bytes.len() / 8 < k {
        return;
    }
    if bytes.len() - 8 * k < at {
        return;
    }
    if out.len() < k {
        return;
    }
    for i in 0..k {
        out[i] = float_of(big_endian_at(bytes, at + 8 * i, 8));
    }
}

// As many floats as bytes hold, 8 bytes each, to the front of out, which may have room for fewer.
pub fn read_floats(bytes: &[u8], out: &mut [f64])
    ensures { out.new ≡ with_floats out.old bytes.now }
{
    read_floats_at(bytes, 0, (bytes.len() / 8).min(out.len()), out);
}
