// One stored case, replayed.
ghost use Rattle.std.specs.Prelude.{◌≡◌, ◌<◌, ◌≤◌, length, IfSome};
ghost use Rattle.replay.specs.Calls.{outcome};
ghost use Rattle.replay.specs.Cases.{case_of, seen_of, seen_at, replayed};
ghost use Rattle.replay.specs.Inner.Walk.{Fits};

use crate::calls::Call;
use crate::digests::Sums;
use crate::{calls, digests};
use answers::Told;
use decode::stored::{big_endian, read_floats};
use std::fmt;
use std::fmt::InlineText;

// How many bytes of a case stand before its Decode entries.
const HEADER: usize = 31;

// The most Decode entries, numbers of an input or bytes of it, and numbers of the lent output.
const MOST_ENTRIES: usize = 256;

const MOST_INPUT: usize = 1024;

const MOST_ROOM: usize = 4096;

// What a call has answered, and the sums of the lent output after it.
#[derive(Clone, Copy, Debug, PartialEq, Eq)]
pub struct Seen {
    pub told: Told,
    pub sums: Sums,
}

// What a case's line says after the function. A sum is one piece of it, with the zeros that lead it.
impl fmt::Display for Seen {
    fn fmt<W: fmt::Write>(&self, f: &mut fmt::Formatter<W>) -> fmt::Result {
        let Told { refused, count } = self.told;
        let Sums { first, second } = self.sums;
        let first = InlineText::<16>::of(format_args!("{first:016x}"));
        let second = InlineText::<16>::of(format_args!("{second:016x}"));
        write!(
            f,
            ", answers refused {refused}, count {count}, sums {} {}",
            first.as_str(),
            second.as_str()
        )
    }
}

// A stored case: the call, the indices of its input and of what follows the case, how many numbers the output has, and the answer that is stored.
// Indices, since the second is the case's size too.
#[derive(Clone, Copy)]
pub struct Case {
    pub call: Call,
    pub input: usize,
    pub end: usize,
    pub room: usize,
    pub stored: Seen,
}

// What replaying a case comes to: how many bytes the case takes, and what was seen where it isn't what is stored.
#[derive(Clone, Copy)]
pub struct Replayed {
    pub size: usize,
    pub wrong: Option<Seen>,
}

// Makes a call and sums up the output.
fn seen_of(call: Call, data: &[u8], decode: &[f64], values: &[f64], out: &mut [f64]) -> Seen
    ensures { result ≡ seen_of (outcome call «data».now decode.now values.now (length out.old)) out.old }
{
    let told = Told::from(call.answer(data, decode, values, out));
    Seen {
        told,
        sums: digests::sum_up(out),
    }
}

impl Case {
    // The case that the bytes begin with: whole, of a known function, and within the limits.
    fn read(file: &[u8]) -> Option<Case>
        ensures value { result ≡ case_of file.now }
        ensures fits { IfSome result (Fits (length file.now)) }
    {
        if file.len() < HEADER {
            return None;
        }
        let function = calls::function_of(file[0] as usize)?;
        let size = big_endian(&file[8..10]) as usize;
        let room = big_endian(&file[10..12]) as usize;
        if size > MOST_INPUT || room > MOST_ROOM {
            return None;
        }
        let input = HEADER + 8 * file[7] as usize;
        let end = input + function.byte_count(size);
        if end > file.len() {
            return None;
        }
        Some(Case {
            call: Call {
                function,
                coord: file[1] as usize,
                comp: file[2] as usize,
                flag: file[3] as usize,
                n: file[4] as usize,
                row: big_endian(&file[5..7]) as usize,
            },
            input,
            end,
            room,
            stored: Seen {
                told: Told {
                    refused: file[12] as usize,
                    count: big_endian(&file[13..15]) as usize,
                },
                sums: Sums {
                    first: big_endian(&file[15..23]),
                    second: big_endian(&file[23..31]),
                },
            },
        })
    }

    // Makes the call of a case that the bytes begin with, on its own numbers.
    fn seen(self, file: &[u8]) -> Seen
        requires { Fits (length file.now) self }
        ensures { result ≡ seen_at self file.now }
    {
        let entries = &file[HEADER..self.input];
        let input = &file[self.input..self.end];
        let mut decode = [0.0f64; MOST_ENTRIES];
        let mut values = [0.0f64; MOST_INPUT];
        let mut out = [-7.25f64; MOST_ROOM];
        read_floats(entries, &mut decode);
        read_floats(input, &mut values);
        seen_of(
            self.call,
            input,
            &decode[..entries.len() / 8],
            &values[..input.len() / 8],
            &mut out[..self.room],
        )
    }
}

// Replays the case that the bytes begin with.
pub fn replay(file: &[u8]) -> Option<Replayed>
    ensures value { result ≡ replayed file.now }
    ensures moves { IfSome result (λ r. 0 < r.size) }
    ensures within { IfSome result (λ r. r.size ≤ length file.now) }
{
    let case = Case::read(file)?;
    let seen = case.seen(file);
    Some(Replayed {
        size: case.end,
        wrong: (seen != case.stored).then_some(seen),
    })
}
