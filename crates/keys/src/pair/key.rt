ghost use Rattle.std.specs.Prelude.{◌≡◌, refl};
ghost use Rattle.keys.specs.Pair.{new_pair, pair_kind};
ghost use Rattle.keys.specs.PairLaws.{pair_laws};

use super::super::Key;
use super::Pair;
use refusal::Refusal;

impl Pair {
    pub fn new(source: u32, destination: u32) -> Result<Pair, Refusal>
        ensures { result ≡ new_pair source destination }
    {
        if source >= 1000 || destination >= 1000 {
            return Err(Refusal::KeyOutOfRange);
        }
        Ok(Pair {
            source,
            destination,
        })
    }
}

/// A pair's code is 1,000 times its source plus its destination.
impl Key for Pair {
    const BITS: usize = 20;

    const CODES: u32 = 1_000_000;

    ghost BITS = { 20 };

    ghost CODES = { 1000000 };

    ghost kind = { pair_kind };

    ghost lawful = { pair_laws };

    ghost bits_are = { refl };

    ghost codes_are = { refl };

    fn code(&self) -> u32 {
        1000 * self.source + self.destination
    }

    fn from_code(code: u32) -> Option<Pair> {
        Pair::new(code / 1000, code % 1000).ok()
    }
}
