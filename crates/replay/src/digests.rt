// The two sums of a list of numbers.
ghost use Rattle.std.specs.Prelude.{◌≡◌};
ghost use Rattle.replay.specs.Digest.{pattern_of, more, digest};

// The sum of the numbers' bits, and the sum of that sum as it runs.
#[derive(Clone, Copy, Debug, PartialEq, Eq)]
pub struct Sums {
    pub first: u64,
    pub second: u64,
}

// A number's bits, and those of one NaN for all.
fn pattern(x: f64) -> u64
    ensures { result ≡ pattern_of x }
{
    if x.is_nan() {
        0x7ff8000000000000
    } else {
        x.to_bits()
    }
}

impl Sums {
    // With one number more.
    fn with(self, x: f64) -> Sums
        ensures { result ≡ more self x }
    {
        let first = self.first.wrapping_add(pattern(x));
        Sums {
            first,
            second: self.second.wrapping_add(first),
        }
    }
}

pub fn sum_up(numbers: &[f64]) -> Sums
    ensures { result ≡ digest numbers.now }
{
    let mut sums = Sums {
        first: 0,
        second: 0,
    };
    for x in numbers {
        sums = sums.with(*x);
    }
    sums
}
