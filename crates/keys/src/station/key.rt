ghost use Rattle.std.specs.Prelude.{◌≡◌, refl};
ghost use Rattle.keys.specs.Station.{new_station, station_kind};
ghost use Rattle.keys.specs.StationLaws.{station_laws};

use super::super::Key;
use super::Station;
use refusal::Refusal;

impl Station {
    pub fn new(number: u32) -> Result<Station, Refusal>
        ensures { result ≡ new_station number }
    {
        Station::from_code(number).ok_or(Refusal::KeyOutOfRange)
    }
}

/// A station's number is its code.
impl Key for Station {
    const BITS: usize = 30;

    const CODES: u32 = 1_000_000_000;

    ghost BITS = { 30 };

    ghost CODES = { 1000000000 };

    ghost kind = { station_kind };

    ghost lawful = { station_laws };

    ghost bits_are = { refl };

    ghost codes_are = { refl };

    fn code(&self) -> u32 {
        self.number
    }

    fn from_code(code: u32) -> Option<Station> {
        if code >= Self::CODES {
            return None;
        }
        Some(Station { number: code })
    }
}
