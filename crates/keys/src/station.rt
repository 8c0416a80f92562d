ghost use Rattle.std.specs.Prelude.{◌≡◌, ◌<◌};

pub mod key;

/// A station, by its number from 0 to 999,999,999.
#[derive(Clone, Copy)]
pub struct Station {
    number: u32,
    ghost below: { number < 1000000000 },
}

impl Station {
    pub fn number(&self) -> u32
        ensures { result ≡ self.now.number }
    {
        self.number
    }
}
