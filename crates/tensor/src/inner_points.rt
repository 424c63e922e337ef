// The inner points of a patch, from the numbers of its border.
ghost use Rattle.std.specs.Prelude.{◌≡◌, ◌≤◌, length};
ghost use Rattle.rules.specs.Meshes.{groups};
ghost use Rattle.tensor.specs.Turning.{Turning};
ghost use Rattle.tensor.specs.Inner.Placing.{spaced, inner_along};

// A coordinate of the border.
pub trait Coordinate: Copy {
    // a coordinate of an inner point
    type Inner: Copy;

    ghost turning: { Turning Self Self.Inner };

    // The formula of eight points: one by one, as the clause's formula names them.
    fn inner(a: Self, b: Self, c: Self, d: Self, e: Self, f: Self, g: Self, h: Self) -> Self::Inner
        ensures { result ≡ turning.inner a b c d e f g h };
}

// The inner four along an axis, each at every second place. Each caller has an axis of its own, so it may go into them.
#[inline]
pub fn write_along<C: Coordinate>(border: &[C; 24], axis: usize, out: &mut [C::Inner])
    requires x_or_y { axis ≤ 1 }
    requires four_points { length out.old ≡ 8 }
    ensures { out.new ≡ spaced out.old axis (inner_along C.turning (groups C.turning.missing border.now 0 12 2) axis) }
{
    // By index: a pattern would also name a hole for each number of the other axis.
    let p00 = border[axis];
    let p01 = border[axis + 2];
    let p02 = border[axis + 4];
    let p03 = border[axis + 6];
    let p13 = border[axis + 8];
    let p23 = border[axis + 10];
    let p33 = border[axis + 12];
    let p32 = border[axis + 14];
    let p31 = border[axis + 16];
    let p30 = border[axis + 18];
    let p20 = border[axis + 20];
    let p10 = border[axis + 22];
    out[axis] = C::inner(p00, p01, p10, p03, p30, p31, p13, p33);
    out[axis + 2] = C::inner(p03, p02, p13, p00, p33, p32, p10, p30);
    out[axis + 4] = C::inner(p33, p32, p23, p30, p03, p02, p20, p00);
    out[axis + 6] = C::inner(p30, p31, p20, p33, p00, p01, p23, p03);
}
