ghost use Rattle.std.specs.Prelude.{◌≡◌};
ghost use Rattle.board.specs.Sign.{put_in};

// Whether a number is added or taken off. An enum and no closure, so that clauses can say `put_in` of it.
#[derive(Clone, Copy, Debug, PartialEq, Eq)]
pub enum Sign {
    Plus,
    Minus,
}

impl Sign {
    // Sums are modulo 2^64.
    pub fn put(self, value: u64, weight: u64) -> u64
        ensures { result ≡ put_in self value weight }
    {
        match self {
            Sign::Plus => value.wrapping_add(weight),
            Sign::Minus => value.wrapping_sub(weight),
        }
    }
}
