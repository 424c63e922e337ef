// The records of a patch mesh, one after the other: in bits, or in a list of numbers.
ghost use Rattle.std.specs.Prelude.{◌≡◌, ◌≤◌};
ghost use Rattle.rows.specs.Inner.Sources.{places, width_in, mask_in};

use crate::forms::Form;
use rows::{Input, Place};

// In so many places. The mask has the bits of a flag that count.
#[derive(Clone, Copy)]
pub struct Records<'a> {
    pub input: Input<'a>,
    pub mask: u32,
    pub form: Form,
    pub limit: usize,
    ghost flagged: { 1 ≤ input.layout.flag },
    ghost flag_there: { input.layout.flag ≡ width_in input.source input.layout.flag },
    ghost mask_there: { mask ≡ mask_in input.source mask },
    ghost all_places: { limit ≡ places input.source },
}

impl<'a> Records<'a> {
    ghost use Rattle.patches.specs.Inner.Records.{found_at};

    pub fn new(input: Input<'a>, mask: u32, form: Form) -> Self
        requires flagged { 1 ≤ input.layout.flag }
        requires flag_there { input.layout.flag ≡ width_in input.source input.layout.flag }
        requires mask_there { mask ≡ mask_in input.source mask }
        ensures input { result.input ≡ input.entry }
        ensures mask { result.mask ≡ mask }
        ensures form { result.form ≡ form }
    {
        Records {
            input,
            mask,
            form,
            limit: input.places(),
        }
    }

    // The complete record at a place, once a patch came before it or not: its flag, and the place after it. None where the mesh ends. It is put into
    // both walks, since a pair in an Option would go through memory.
    #[inline(always)]
    pub fn find(&self, started: bool, place: Place) -> Option<(u32, Place)>
        requires { place.0 ≤ self.now.limit }
        ensures { result ≡ found_at self.now started place.0 }
    {
        let layout = self.input.layout;
        if self.limit - place.0 < layout.flag {
            return None;
        }
        let number = self.input.flag_at(place);
        let flag = number & self.mask;
        let shape = self.form.kind().shape(started, flag)?;
        let numbers = shape.coords * layout.coord + shape.colours * (layout.n * layout.comp);
        let next = place.0 + layout.flag + numbers;
        if next > self.limit {
            return None; // the record is not complete
        }
        Some((flag, Place(next)))
    }
}
