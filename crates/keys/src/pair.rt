ghost use Rattle.std.specs.Prelude.{◌≡◌, ◌<◌};

pub mod key;

/// A source and a destination region, each from 0 to 999 for as long as the pair exists.
#[derive(Clone, Copy)]
pub struct Pair {
    source: u32,
    destination: u32,
    ghost source_below: { source < 1000 },
    ghost destination_below: { destination < 1000 },
}

impl Pair {
    pub fn source(&self) -> u32
        ensures { result ≡ self.now.source }
    {
        self.source
    }

    pub fn destination(&self) -> u32
        ensures { result ≡ self.now.destination }
    {
        self.destination
    }
}
