// The patches, written one after the other: counted first, then each number decoded once, straight into the output. The side that a patch takes
// over is copied from the patch before, which stands right before it. The output and the index stand side by side, as in `rows`.
ghost use Rattle.std.specs.Prelude.{◌≡◌, ◌+◌, ◌-◌, ◌*◌, ◌<◌, ◌≤◌, length};
ghost use Rattle.lists.specs.Lists.{AllBelow, flat};
ghost use Rattle.lists.specs.Writing.{Written};
ghost use Rattle.answers.specs.Outcome.{Done};
ghost use Rattle.decode.specs.Decode.{Ranges};
ghost use Rattle.rows.specs.Inner.Sources.{held_ranges};
ghost use Rattle.meshes.specs.Outcomes.{fitted_mesh};
ghost use Rattle.patches.specs.Inner.Records.{patch_size, point_in, colour_in, finished_of, decoded_of};

use crate::finding::Records;
use crate::forms::Side;
use answers::{Answer, Refusal};
use decode::Range;
use rows::{Decoded, Layout, Place};

// The records with Decode's ranges: what their patches are made of.
#[derive(Clone, Copy)]
pub struct Patches<'a> {
    pub records: &'a Records<'a>,
    pub ranges: &'a [Range; 34],
}

// ---- the side of the patch before

fn copy_point(out: &mut [f64], start: usize, i: usize, at: usize) -> usize
    requires before { start + (i * 2 + 2) ≤ at }
    requires room { at + 2 ≤ length out.old }
    ensures value { result ≡ at + 2 }
    ensures written { Written out.old out.new at (point_in out.old start i) result }
{
    rows::copy_point(out, start + i * 2, at)
}

fn copy_colour(layout: Layout, out: &mut [f64], start: usize, i: usize, at: usize) -> usize
    requires few { i < 4 }
    requires before { start + 4 * (8 + layout.n) ≤ at }
    requires room { at + (8 + layout.n) ≤ length out.old }
    ensures value { result ≡ at + (8 + layout.n) }
    ensures written { Written out.old out.new at (colour_in layout.n out.old start i) result }
{
    layout.copy_colour(out, start + i * (8 + layout.n), at)
}

// Points and colours have nothing in common but the loop: their counts, sizes and places differ.
impl Side {
    fn copy_points(&self, out: &mut [f64], start: usize, at: usize) -> usize
        requires few { AllBelow 16 self.now.points }
        requires before { start + 32 ≤ at }
        requires room { at + 8 ≤ length out.old }
        ensures value { result ≡ at + 8 }
        ensures written { Written out.old out.new at (flat (point_in out.old start) self.now.points) result }
    {
        let mut p = at;
        for i in self.points {
            p = copy_point(out, start, i, p);
        }
        p
    }

    fn copy_colours(&self, layout: Layout, out: &mut [f64], start: usize, at: usize) -> usize
        requires few { AllBelow 4 self.now.colours }
        requires before { start + 4 * (8 + layout.n) ≤ at }
        requires room { at + 2 * (8 + layout.n) ≤ length out.old }
        ensures value { result ≡ at + 2 * (8 + layout.n) }
        ensures written { Written out.old out.new at (flat (colour_in layout.n out.old start) self.now.colours) result }
    {
        let mut p = at;
        for i in self.colours {
            p = copy_colour(layout, out, start, i, p);
        }
        p
    }
}

// ---- a patch

impl Patches<'_> {
    ghost use Rattle.patches.specs.Inner.Records.{size_of, row_in};

    // A patch joined to no other: all its points and colours follow its flag.
    fn write_first(self, place: Place, out: &mut [f64], at: usize) -> usize
        requires there { place.0 + size_of self.records.now 0 ≤ self.records.now.limit }
        requires room { at + patch_size self.records.now ≤ length out.old }
        ensures { Written out.old out.new at (row_in self.entry out.old at 0 place.0) result }
    {
        let layout = self.records.input.layout;
        let decoded = Decoded {
            input: &self.records.input,
            ranges: self.ranges,
        };
        let count = 4 + self.records.form.own_points();
        let points = Place(place.0 + layout.flag);
        let colours = Place(points.0 + count * (2 * layout.coord));
        let p = decoded.place_points(count, points, out, at);
        decoded.place_colours(4, colours, out, p)
    }

    // A patch joined to the one that ends at index at.
    fn write_next(self, flag: u32, place: Place, out: &mut [f64], at: usize) -> usize
        requires joined { 1 ≤ flag }
        requires few { flag ≤ 3 }
        requires there { place.0 + size_of self.records.now flag ≤ self.records.now.limit }
        requires before { patch_size self.records.now ≤ at }
        requires room { at + patch_size self.records.now ≤ length out.old }
        ensures { Written out.old out.new at (row_in self.entry out.old at flag place.0) result }
    {
        let layout = self.records.input.layout;
        let decoded = Decoded {
            input: &self.records.input,
            ranges: self.ranges,
        };
        let own = self.records.form.own_points();
        let points = Place(place.0 + layout.flag);
        let colours = Place(points.0 + own * (2 * layout.coord));
        let side = self.records.form.side(flag);
        let start = at - self.records.patch_size();
        let p = side.copy_points(out, start, at);
        let q = decoded.place_points(own, points, out, p);
        let r = side.copy_colours(layout, out, start + (4 + own) * 2, q);
        decoded.place_colours(2, colours, out, r)
    }

    // The patch of the record at a place.
    fn write_patch(self, flag: u32, place: Place, out: &mut [f64], at: usize) -> usize
        requires few { flag ≤ 3 }
        requires there { place.0 + size_of self.records.now flag ≤ self.records.now.limit }
        requires before { 1 ≤ flag → patch_size self.records.now ≤ at }
        requires room { at + patch_size self.records.now ≤ length out.old }
        ensures { Written out.old out.new at (row_in self.entry out.old at flag place.0) result }
    {
        if flag == 0 {
            self.write_first(place, out, at)
        } else {
            self.write_next(flag, place, out, at)
        }
    }

    fn write_patches(self, out: &mut [f64]) -> usize
        requires { length (finished_of self.records.now (held_ranges self.ranges.now)).numbers ≤ length out.old }
        ensures { Written out.old out.new 0 (finished_of self.entry.records.now (held_ranges self.entry.ranges.now)).numbers result }
    {
        let mut at: usize = 0;
        let mut place = Place(0);
        let mut started = false; // only a patch joined to no other may come first
        while let Some((flag, next)) = self.records.find(started, place) { // each record tells where the next one is
            at = self.write_patch(flag, place, out, at);
            place = next;
            started = true;
        }
        at
    }
}

// ---- the mesh

impl Records<'_> {
    // How many numbers a patch is written as.
    fn patch_size(&self) -> usize
        ensures { result ≡ patch_size self.now }
    {
        (4 + self.form.own_points()) * 2 + 4 * (8 + self.input.layout.n)
    }

    // How many patches there are: only flags are read.
    fn count_patches(&self) -> usize
        ensures upper_bound { result ≤ self.now.limit }
        ensures value { (R : Ranges) → result ≡ (finished_of self.now R).count }
    {
        let mut count: usize = 0;
        let mut place = Place(0);
        let mut started = false;
        while let Some((_, next)) = self.find(started, place) { // each record tells where the next one is
            count += 1;
            place = next;
            started = true;
        }
        count
    }

    // The patches, if there is room for them. Decode's ranges are worked out only then.
    pub fn patches(&self, decode: &[f64], out: &mut [f64]) -> Answer
        ensures { Done (fitted_mesh (decoded_of self.now decode.now) (length out.old)) out.old result out.new }
    {
        let count = self.count_patches();
        let needed = count * self.patch_size();
        if out.len() < needed {
            return Err(Refusal::Room(needed));
        }
        let mut ranges = [rows::NO_RANGE; 34];
        self.input.fill_ranges(decode, &mut ranges);
        let patches = Patches {
            records: self,
            ranges: &ranges,
        };
        patches.write_patches(out);
        Ok(count)
    }
}
