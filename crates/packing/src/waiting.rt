// Bits that wait for their byte.
ghost use Rattle.std.specs.Prelude.{◌<◌};

// `at` bytes are written; the low `count` bits of `bits` wait.
#[derive(Clone, Copy)]
pub struct Waiting {
    pub at: usize,
    pub count: usize,
    pub bits: u64,
    ghost few: { count < 32 },
}
