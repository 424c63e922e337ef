// The dump program's work: the listing of a file that holds a mesh, document 01's "Dump program".
#![tactic(auto)]

ghost use Rattle.std.specs.Prelude.{◌≡◌, ◌+◌, ◌≤◌, length};
ghost use Rattle.lists.specs.Writing.{Written};
ghost use Rattle.msf.specs.Listing.{listing};
ghost use Rattle.msf.specs.File.{file_listing};
ghost use Rattle.msf.specs.Inner.Appending.{Appends};
ghost use Rattle.msf.specs.Inner.Headers.{answer_to};

use crate::header::Header;
use crate::text::Text;
use answers::Refusal;

mod header;
mod lines;
mod text;

// The bytes of the longest listing: 6 of the first line, and 17 for each of 8,192 numbers.
pub const LISTING: usize = 139270;

// The listing of a mesh, or of the refusal that its reader answers.
fn put_mesh(header: &Header, text: &mut Text)
    requires room { text.old.at + 139270 ≤ length text.old.out.now }
    ensures { Appends text.old text.new (listing header.now.kind header.now.components (answer_to header.now)) }
{
    let mut numbers = [0.0f64; 8192];
    match header.read_mesh(&mut numbers) {
        Err(refusal) => text.put_refused(refusal),
        Ok(count) => text.put_listing(header, count, &numbers[..count * header.stride()]),
    }
}

// The listing of a file.
fn put_file(file: &[u8], text: &mut Text)
    requires room { text.old.at + 139270 ≤ length text.old.out.now }
    ensures { Appends text.old text.new (file_listing file.now) }
{
    match Header::read(file) {
        Some(header) => put_mesh(&header, text),
        None => text.put_refused(Refusal::File),
    }
}

// Writes what the dump program prints for a file, and answers how many bytes that are.
pub fn list_file(file: &[u8], out: &mut [u8; LISTING]) -> usize
    ensures { Written out.old out.new 0 (file_listing file.now) result }
{
    let mut text = Text::new(out);
    put_file(file, &mut text);
    text.at
}
