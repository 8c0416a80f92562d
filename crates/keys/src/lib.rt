//! Kinds of key: stations, and pairs of regions.
#![tactic(auto)]

ghost use Rattle.std.specs.Prelude.{◌≡◌, ℕ};
ghost use Rattle.model.specs.Kind.{Kind, KindLaws};

mod pair;
mod station;

pub use pair::Pair;
pub use station::Station;

/// A kind of key. What it means is one record, and every question is answered from that record.
pub trait Key: Drop {
    /// How many bits a code has, at most 30.
    const BITS: usize;

    /// Each code is below this.
    const CODES: u32;

    ghost BITS: { ℕ };

    ghost CODES: { ℕ };

    ghost kind: { Kind Self };

    fn code(&self) -> u32
        ensures { result ≡ kind.code self.now };

    /// The key with this code, if there is one.
    fn from_code(code: u32) -> Option<Self>
        ensures { result ≡ kind.key code };

    ghost lawful: { KindLaws kind };

    ghost bits_are: { BITS ≡ kind.bits };

    ghost codes_are: { CODES ≡ kind.codes };
}
