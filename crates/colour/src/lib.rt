// A colour out of its components.
#![tactic(auto)]

ghost use Rattle.std.specs.Prelude.{◌≡◌};
ghost use Rattle.colour.specs.Light.{clamp_of, lesser_of, light_of};
ghost use Rattle.colour.specs.Colour.{gray_of, rgb_of, cmyk_of, colour_of};

// The four inks of a colour.
#[derive(Clone, Copy, Debug, PartialEq)]
pub struct Cmyk {
    pub c: f64,
    pub m: f64,
    pub y: f64,
    pub k: f64,
}

#[derive(Clone, Copy, Debug, PartialEq)]
pub struct DeviceColor {
    pub r: f64,
    pub g: f64,
    pub b: f64,
    pub inks: Option<Cmyk>,
}

// x brought into 0..1. A NaN and -0.0 stay as they are.
pub fn clamp01(x: f64) -> f64
    ensures { result ≡ clamp_of x }
{
    x.clamp(0.0, 1.0)
}

// The lesser of x and 1, and 1 for a NaN. By hand, since std's `min` leaves open which of two equal numbers it answers.
fn lesser(x: f64) -> f64
    ensures { result ≡ lesser_of x }
{
    if x < 1.0 { x } else { 1.0 }
}

// The light that an ink and the black leave: 1 - min(ink + black, 1).
pub fn light(ink: f64, black: f64) -> f64
    ensures { result ≡ light_of ink black }
{
    1.0 - lesser(ink + black)
}

impl DeviceColor {
    fn from_gray(gray: f64) -> Self
        ensures { result ≡ gray_of gray }
    {
        Self::from_rgb(gray, gray, gray)
    }

    fn from_rgb(r: f64, g: f64, b: f64) -> Self
        ensures { result ≡ rgb_of r g b }
    {
        Self {
            r,
            g,
            b,
            inks: None,
        }
    }

    fn from_cmyk(c: f64, m: f64, y: f64, k: f64) -> Self
        ensures { result ≡ cmyk_of c m y k }
    {
        Self {
            r: light(c, k),
            g: light(m, k),
            b: light(y, k),
            inks: Some(Cmyk { c, m, y, k }),
        }
    }
}

// The colour of a record's components, by their count. It is put into its callers, where it stays in registers.
#[inline(always)]
pub fn components_to_color(comps: &[f64]) -> DeviceColor
    ensures { result ≡ colour_of comps.now }
{
    match comps {
        [gray] => DeviceColor::from_gray(clamp01(*gray)),
        [c, m, y, k] => DeviceColor::from_cmyk(clamp01(*c), clamp01(*m), clamp01(*y), clamp01(*k)),
        [r, g, b, ..] => DeviceColor::from_rgb(clamp01(*r), clamp01(*g), clamp01(*b)),
        _ => DeviceColor::from_gray(0.0),
    }
}
