ghost use Rattle.std.specs.Prelude.{◌≡◌};
ghost use Rattle.model.specs.Universal.{universal_span};
ghost use Rattle.groupings.specs.UniversalFit.{drawn_fit};
ghost use Rattle.groupings.specs.Universal.{new_universal, universal_groups};
ghost use Rattle.model.proofs.Spread.{spread_of_all_rows};
ghost use Rattle.std.proofs.Common.{rules};

use super::{Draw, Universal};
use crate::{Grouping, is_inside, rows_fit};
use refusal::Refusal;

/// 2^31 - 1; a drawn number is below it.
const PRIME: u32 = 2_147_483_647;

// Whether every drawn number is below the prime.
fn drawn_below_prime(drawn: &[Draw]) -> bool
    ensures { result ≡ drawn_fit drawn.now }
{
    drawn.iter().all(|draw| draw.a < PRIME && draw.b < PRIME)
}

impl Universal {
    /// The drawn numbers of rows past the last are kept and never looked at.
    pub fn new(rows: usize, width: usize, drawn: [Draw; 16]) -> Result<Universal, Refusal>
        ensures { result ≡ new_universal rows width drawn }
    {
        if !rows_fit(rows) {
            return Err(Refusal::RowsOutOfRange);
        }
        if !(1..=4096).contains(&width) {
            return Err(Refusal::WidthNotAllowed);
        }
        if !drawn_below_prime(&drawn[0..rows]) {
            return Err(Refusal::DrawnNumberTooLarge);
        }
        Ok(Universal { rows, width, drawn })
    }
}

impl Grouping for Universal {
    ghost groups = { universal_groups };

    ghost span = { λ _. universal_span };

    ghost spread = { λ u. u.rows };

    ghost lawful = { Prim.search rules };

    ghost apart = { λ u. spread_of_all_rows (universal_groups u) universal_span };

    fn rows(&self) -> usize {
        self.rows
    }

    fn width(&self) -> usize {
        self.width
    }

    fn span(&self) -> u32 {
        1 << 30
    }

    fn spread(&self) -> usize {
        self.rows
    }

    fn group(&self, row: usize, code: u32) -> usize {
        if !is_inside(self.rows, row, code) {
            return 0;
        }
        let draw = self.drawn[row];
        let mixed = (draw.a as u64 * code as u64 + draw.b as u64) % PRIME as u64;
        mixed as usize % self.width
    }
}
