// Bits on their way into bytes: whole bytes go out four at a time.
ghost use Rattle.std.specs.Prelude.{◌≡◌, true, ◌+◌, ◌*◌, ◌^◌, ◌≤◌, ◌<◌, length};
ghost use Rattle.lists.specs.Writing.{Written};
ghost use Rattle.bits.specs.Bits.{bits_of};
ghost use Rattle.records.specs.Inner.Walk.{record_size};
ghost use Rattle.packing.specs.Packed.{bytes};
ghost use Rattle.packing.specs.Inner.Passes.{fits, run_bits, record_fits, record_bits, Stored, Put};

use crate::waiting::Waiting;
use records::mesh::{Mesh, Rest};

// Stores the low count bytes of a number, high first, from an index on: a part of the output would be named by the same two numbers.
fn store(number: u64, count: usize, at: usize, out: &mut [u8])
    requires few { count ≤ 8 }
    requires room { at + count ≤ length out.old }
    ensures { Stored out.old out.new at count number }
{
    for k in 0..count {
        out[at + k] = ((number >> (8 * (count - 1 - k))) % 256) as u8;
    }
}

impl Waiting {
    // Nothing is written, and nothing waits.
    pub fn none() -> Waiting
        ensures at { result.at ≡ 0 }
        ensures count { result.count ≡ 0 }
    {
        Waiting {
            at: 0,
            count: 0,
            bits: 0,
        }
    }

    // Puts a number of w bits. What stands above the bits that wait does no harm, and is let be.
    fn put(self, x: u32, w: usize, out: &mut [u8]) -> Waiting
        requires fits { x < 2 ^ w }
        requires width { w ≤ 32 }
        requires room { 8 * self.at + self.count + w ≤ 8 * length out.old }
        ensures { Put self result out.old out.new (bits_of w x) }
    {
        let bits = (self.bits << w) | (x as u64);
        let count = self.count + w;
        if count < 32 {
            return Waiting {
                at: self.at,
                count,
                bits,
            };
        }
        let left = count - 32;
        store(bits >> left, 4, self.at, out);
        Waiting {
            at: self.at + 4,
            count: left,
            bits,
        }
    }

    // Puts a run of numbers of one width.
    fn put_run(self, run: &[u32], w: usize, out: &mut [u8]) -> Waiting
        requires fits { fits w run.now ≡ true }
        requires width { w ≤ 32 }
        requires room { 8 * self.at + self.count + length run.now * w ≤ 8 * length out.old }
        ensures { Put self result out.old out.new (run_bits w run.now) }
    {
        let mut waiting = self;
        for x in run {
            waiting = waiting.put(*x, w, out);
        }
        waiting
    }

    // Puts the record at an index.
    pub fn put_record(
        self,
        numbers: &[u32],
        i: usize,
        mesh: Mesh,
        rest: Rest,
        out: &mut [u8],
    ) -> Waiting
        requires fits { record_fits mesh rest.coords rest.comps numbers.now i ≡ true }
        requires room { 8 * self.at + self.count + record_size mesh rest.coords rest.comps ≤ 8 * length out.old }
        ensures { Put self result out.old out.new (record_bits mesh rest.coords rest.comps numbers.now i) }
    {
        let coords = i + 1;
        let comps = coords + rest.coords;
        self.put(numbers[i], mesh.first, out)
            .put_run(&numbers[coords..comps], mesh.coord, out)
            .put_run(&numbers[comps..comps + rest.comps], mesh.comp, out)
    }

    // The bits that wait go out, the last byte filled with zeros. Answers how many bytes are written.
    pub fn flush(self, out: &mut [u8]) -> usize
        requires room { 8 * self.at + self.count ≤ 8 * length out.old }
        ensures { Written out.old out.new self.at (bytes (bits_of self.count self.bits)) result }
    {
        let count = self.count.div_ceil(8);
        store(self.bits << (8 * count - self.count), count, self.at, out);
        self.at + count
    }
}
