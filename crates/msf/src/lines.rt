// The lines of a listing. A number of the mesh takes at most 17 bytes of its line: 16 digits, and a space or the line's end.
ghost use Rattle.std.specs.Prelude.{◌≡◌, [], ◌∷◌, ◌++◌, map, ◌+◌, ◌-◌, ◌*◌, ◌/◌, ◌≤◌, ◌<◌, length};
ghost use Rattle.answers.specs.Outcome.{number_of};
ghost use Rattle.msf.specs.Text.{float_text, decimal};
ghost use Rattle.msf.specs.Listing.{line, spaced, ink_words, row_line, point_line, lines, patch_lines, patches_lines, mesh_lines, type_of, refused_line};
ghost use Rattle.msf.specs.Inner.Kinds.{stride_of, IsListable};
ghost use Rattle.msf.specs.Inner.Appending.{Appends};

use crate::header::Header;
use crate::text::Text;
use answers::Refusal;
use records::shape::Kind;

impl Text<'_> {
    // ---- one line

    // Numbers, each with a space before it.
    fn put_spaced(&mut self, numbers: &[f64])
        requires room { self.old.at + 17 * length numbers.now ≤ length self.old.out.now }
        ensures at_most { self.new.at ≤ self.old.at + 17 * length numbers.now }
        ensures appended { Appends self.old self.new (spaced (map float_text numbers.now)) }
    {
        for x in numbers {
            self.put_byte(b' ');
            self.put_float(*x);
        }
    }

    // The mark, numbers after it, and the line's end.
    fn put_marked(&mut self, mark: u32, numbers: &[f64])
        requires digit { mark < 10 }
        requires room { self.old.at + (3 + 17 * length numbers.now) ≤ length self.old.out.now }
        ensures at_most { self.new.at ≤ self.old.at + (3 + 17 * length numbers.now) }
        ensures appended { Appends self.old self.new (spaced (decimal mark ∷ map float_text numbers.now) ++ (10 ∷ [])) }
    {
        self.put_byte(b' ');
        self.put_digit(mark);
        self.put_spaced(numbers);
        self.put_byte(b'\n');
    }

    // What follows r, g and b of a colour, and the line's end.
    fn put_inks(&mut self, colour: &[f64])
        requires whole { 8 ≤ length colour.now }
        requires room { self.old.at + 17 * (length colour.now - 3) ≤ length self.old.out.now }
        ensures at_most { self.new.at ≤ self.old.at + 17 * (length colour.now - 3) }
        ensures appended { Appends self.old self.new (spaced (ink_words colour.now) ++ (10 ∷ [])) }
    {
        if colour[3] == 1.0 {
            return self.put_marked(1, &colour[4..]);
        }
        self.put_marked(0, &colour[8..]);
    }

    // A row of so many coordinates and a colour.
    fn put_row(&mut self, coords: usize, row: &[f64])
        requires whole { coords + 8 ≤ length row.now }
        requires room { self.old.at + 17 * length row.now ≤ length self.old.out.now }
        ensures at_most { self.new.at ≤ self.old.at + 17 * length row.now }
        ensures appended { Appends self.old self.new (row_line coords row.now) }
    {
        self.put_float(row[0]);
        self.put_spaced(&row[1..coords + 3]);
        self.put_inks(&row[coords..]);
    }

    // x and y.
    fn put_point(&mut self, point: &[f64])
        requires whole { length point.now ≡ 2 }
        requires room { self.old.at + 34 ≤ length self.old.out.now }
        ensures at_most { self.new.at ≤ self.old.at + 34 }
        ensures appended { Appends self.old self.new (point_line point.now) }
    {
        self.put_float(point[0]);
        self.put_spaced(&point[1..]);
        self.put_byte(b'\n');
    }

    // ---- the lines of a mesh; a loop for each kind of piece, since a closure would carry the piece's whole contract

    fn put_rows(&mut self, coords: usize, size: usize, rows: &[f64])
        requires whole { coords + 8 ≤ size }
        requires room { self.old.at + 17 * length rows.now ≤ length self.old.out.now }
        ensures at_most { self.new.at ≤ self.old.at + 17 * length rows.now }
        ensures appended { Appends self.old self.new (lines (row_line coords) size rows.now 0 (length rows.now / size)) }
    {
        for row in rows.chunks_exact(size) {
            self.put_row(coords, row);
        }
    }

    fn put_points(&mut self, points: &[f64])
        requires room { self.old.at + 17 * length points.now ≤ length self.old.out.now }
        ensures at_most { self.new.at ≤ self.old.at + 17 * length points.now }
        ensures appended { Appends self.old self.new (lines point_line 2 points.now 0 (length points.now / 2)) }
    {
        for point in points.chunks_exact(2) {
            self.put_point(point);
        }
    }

    // The points of a patch, then its four colours.
    fn put_patch(&mut self, points: usize, n: usize, patch: &[f64])
        requires whole { length patch.now ≡ 2 * points + 4 * (8 + n) }
        requires room { self.old.at + 17 * length patch.now ≤ length self.old.out.now }
        ensures at_most { self.new.at ≤ self.old.at + 17 * length patch.now }
        ensures appended { Appends self.old self.new (patch_lines points n patch.now 0) }
    {
        let (front, colours) = patch.split_at(2 * points);
        self.put_points(front);
        self.put_rows(0, 8 + n, colours);
    }

    fn put_patches(&mut self, points: usize, n: usize, patches: &[f64])
        requires few_points { points ≤ 16 }
        requires few { n ≤ 32 }
        requires room { self.old.at + 17 * length patches.now ≤ length self.old.out.now }
        ensures { Appends self.old self.new (patches_lines points n patches.now (length patches.now / (2 * points + 4 * (8 + n)))) }
    {
        let size = 2 * points + 4 * (8 + n);
        for patch in patches.chunks_exact(size) {
            self.put_patch(points, n, patch);
        }
    }

    // ---- a listing

    // The type and the count.
    fn put_head(&mut self, kind: Kind, count: usize)
        requires low { count < 1000 }
        requires room { self.old.at + 6 ≤ length self.old.out.now }
        ensures at_most { self.new.at ≤ self.old.at + 6 }
        ensures appended { Appends self.old self.new (line (decimal (type_of kind) ∷ decimal count ∷ [])) }
    {
        self.put_digit(kind as u32);
        self.put_byte(b' ');
        self.put_decimal(count as u32);
        self.put_byte(b'\n');
    }

    // The whole listing of a mesh: so many triangles or patches, whose numbers are a reader's.
    pub fn put_listing(&mut self, header: &Header, count: usize, numbers: &[f64])
        requires listable { IsListable header.now.kind header.now.components count }
        requires whole { length numbers.now ≡ count * stride_of header.now.kind header.now.components }
        requires room { self.old.at + (6 + 17 * length numbers.now) ≤ length self.old.out.now }
        ensures { let h = header.now in Appends self.old self.new (line (decimal (type_of h.kind) ∷ decimal count ∷ []) ++ mesh_lines h.kind h.components numbers.now count) }
    {
        self.put_head(header.kind, count);
        let n = header.components;
        match header.kind {
            Kind::Four | Kind::Five => self.put_rows(2, 10 + n, numbers),
            Kind::Six => self.put_patches(12, n, numbers),
            Kind::Seven => self.put_patches(16, n, numbers),
        }
    }

    // The whole listing of a refusal.
    pub fn put_refused(&mut self, refusal: Refusal)
        requires room { self.old.at + 12 ≤ length self.old.out.now }
        ensures { Appends self.old self.new (refused_line (number_of refusal)) }
    {
        self.put_bytes(b"refused ");
        self.put_decimal(refusal.number() as u32);
        self.put_byte(b'\n');
    }
}
