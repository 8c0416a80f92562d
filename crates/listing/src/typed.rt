ghost use Rattle.std.specs.Prelude.{◌≡◌, ℕ, List};
ghost use Rattle.listing.specs.Typed.{TypedKey, station_line, two_numbers, pair_line};

use crate::text::{number, place_of};
use keys::{Key, Pair, Station};
use refusal::Refusal;

/// A kind of key that can be typed, one key to a line.
pub trait Typed: Key {
    ghost typed: { ℕ → List ℕ → TypedKey Self };

    /// The key on a line, whose number a wrong form is refused with.
    fn from_line(line: u64, text: &[u8]) -> Result<Self, Refusal>
        ensures { result ≡ typed line text.now };
}

/// A station is typed as its number.
impl Typed for Station {
    ghost typed = { station_line };

    fn from_line(line: u64, text: &[u8]) -> Result<Station, Refusal> {
        let station = number(text).ok_or(Refusal::WrongLineForm { line })?;
        Station::new(station)
    }
}

// The numbers before and after the first space, if both are there.
fn two_numbers(text: &[u8]) -> Option<(u32, u32)>
    ensures { result ≡ two_numbers text.now }
{
    let space = place_of(b' ', text)?;
    number(&text[..space]).zip(number(&text[space + 1..]))
}

/// A pair is typed as source and destination, parted by one space.
impl Typed for Pair {
    ghost typed = { pair_line };

    fn from_line(line: u64, text: &[u8]) -> Result<Pair, Refusal> {
        let (source, destination) = two_numbers(text).ok_or(Refusal::WrongLineForm { line })?;
        Pair::new(source, destination)
    }
}
