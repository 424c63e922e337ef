// Replays stored answers of the original Rust against the eight ported functions, and says how many agree.
//
// A file is cases one after the other, in under 65,536 bytes. A case, each number high byte first:
//
//     index  bytes
//         0      1  function: 4 to 7 the binary reader of that type, 14 to 17 the list builder of Types 4 to 7
//         1      4  width of a coordinate, of a component and of a flag, and the count of components: a byte each
//         5      2  row length
//         7      1  count of Decode entries
//         8      2  length of the input, at most 1,024: bytes, or numbers of a list
//        10      2  room: how many numbers the lent output has, at most 4,096
//        12      1  the refusal that is answered, or 0
//        13      2  the count that is answered
//        15     16  the two sums of the lent output after the call, 8 bytes each
//        31         the Decode entries, 8 bytes each; then the input, a byte each, or 8 bytes for a number of a list
//
// The whole output is filled with -7.25 before the call. The sums are over all its places, so they also show what must stay as it was.
// The first is the sum of the numbers' bits, the second the sum of the first as it runs, both modulo 2^64; a NaN counts as the bits 7ff8000000000000.
//
// Files are named in args. A case that is cut, or is none by the above, disagrees and ends its file.
#![tactic(auto)]

ghost use Rattle.std.specs.Prelude.{◌≡◌, ◌≤◌, length};
ghost use Rattle.replay.specs.Tallies.{tally};

use crate::replaying::Replayed;
use pieces::Pieces;
use std::fmt::Write;
use std::fs::File;
use std::io::Read;
use std::rt::Files;
use std::{env, io};

mod calls;
mod digests;
mod replaying;

// The cases of a file that agree and that disagree.
#[derive(Clone, Copy)]
struct Tally {
    agree: u64,
    disagree: u64,
}

// Replays the cases of a file one by one, and prints those that disagree. What can't be printed is let go: the tally holds all the same.
fn replay_file(rt: &impl Print, name: &str, file: &[u8]) -> Tally
    ensures { result ≡ tally file.now }
{
    let mut agree = 0;
    let mut disagree = 0;
    let mut rest = file;
    while !rest.is_empty() { // each case tells how long it is
        let case = agree + disagree + 1;
        let function = rest[0];
        let Some(Replayed { size, wrong }) = replaying::replay(rest) else {
            let _ = write!(Pieces(rt), "{name}: case {case} can't be read\n");
            return Tally {
                agree,
                disagree: disagree + 1,
            };
        };
        rest = &rest[size..];
        match wrong {
            None => agree += 1,
            Some(seen) => {
                let _ = write!(
                    Pieces(rt),
                    "{name}: case {case}, function {function}{seen}\n"
                );
                disagree += 1;
            }
        }
    }
    Tally { agree, disagree }
}

// Reads until the buffer is full, the input ends or a read fails, and answers how many bytes came. Of std's reads `read` gives a part of them alone,
// and `read_exact` doesn't say how many came before the end.
fn read_full(reader: &mut impl Read, buffer: &mut [u8]) -> usize
    ensures { result ≤ length buffer.new }
{
    let mut done = 0;
    while done < buffer.len() {
        match reader.read(&mut buffer[done..]) {
            Ok(0) | Err(_) => break,
            Ok(n) => done += n,
        }
    }
    done
}

// Replays the file that an argument names, and prints its tally. What can't be printed is let go here too, so that the files after it are replayed.
fn replay_argument(rt: &(impl Files + Print), name: &str) {
    let Ok(mut reader) = File::open(rt, name) else {
        let _ = write!(Pieces(rt), "{name}: can't be opened\n");
        return;
    };
    let mut file = [0u8; 65536];
    let n = read_full(&mut reader, &mut file);
    if n == file.len() {
        let _ = write!(Pieces(rt), "{name}: too long\n");
        return;
    }
    let Tally { agree, disagree } = replay_file(rt, name, &file[..n]);
    let _ = write!(Pieces(rt), "{name}: {agree} agree, {disagree} disagree\n");
}

fn main(rt: HostRuntime) -> io::Result<()> {
    for name in env::args(&rt)?.skip(1) {
        replay_argument(&rt, name.as_str());
    }
    Ok(())
}
