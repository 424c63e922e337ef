// Lists the mesh file that comes on standard input, or the one that the argument names: document 01, "Dump program".
#![tactic(auto)]

ghost use Rattle.std.specs.Prelude.{◌≡◌, ◌≤◌, length, take, IfOk, IfSome};
ghost use Rattle.lists.specs.Writing.{Written};

use std::fs::File;
use std::io::{Read, Write};
use std::{env, io};

// One byte more than a file may have, so that one byte too many is seen.
const ROOM: usize = 65537;

// Copies as many bytes as there is room for, and answers how many.
fn keep(came: &[u8], room: &mut [u8]) -> usize
    ensures { Written room.old room.new 0 (take (length room.old) came.now) result }
{
    let kept = came.len().min(room.len());
    room[..kept].copy_from_slice(&came[..kept]);
    kept
}

// Reads to the end, and drops what there is no room for; answers how many bytes were kept. `read_to_end` would need a heap.
fn read_input<R: Read>(reader: &mut R, file: &mut [u8]) -> io::Result<usize>
    ensures fits { IfOk result (λ kept. kept ≤ length file.new) }
    ensures first { IfOk result (λ kept. IfSome (R.remaining reader.old) (λ xs. take kept file.new ≡ take (length file.new) xs)) }
{
    let mut at = 0;
    for _ in 0..u64::MAX { // every call ends
        let mut came = [0; 4096];
        match reader.read(&mut came)? {
            0 => return Ok(at),
            count => at += keep(&came[..count], &mut file[at..]),
        }
    }
    Err(io::ErrorKind::Other.into())
}

// Lists what a reader gives.
fn list<R: Read>(rt: &impl Print, reader: &mut R) -> io::Result<()> {
    let mut file = [0u8; ROOM];
    let length = read_input(reader, &mut file)?;
    let mut listing = [0u8; msf::LISTING];
    let listed = msf::list_file(&file[..length], &mut listing);
    io::writer(rt).write_all(&listing[..listed])
}

// Lists the file that the argument names.
fn list_argument(rt: &HostRuntime, name: &str) -> io::Result<()> {
    let mut file = File::open(rt, name)?;
    list(rt, &mut file)
}

fn main(rt: HostRuntime) -> io::Result<()> {
    let mut words = env::args(&rt)?;
    let _program = words.next();
    let Some(name) = words.next() else {
        return list(&rt, &mut rt.reader());
    };
    if words.next().is_some() {
        return eprintln!(rt; "usage: mesh-dump [FILE]");
    }
    list_argument(&rt, name.as_str())
}
