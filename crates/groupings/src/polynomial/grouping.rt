ghost use Rattle.std.specs.Prelude.{◌≡◌, ◌^◌, ◌≤◌};
ghost use Rattle.model.specs.Polynomial.{allowed_width, digit_count, polynomial_spread};
ghost use Rattle.groupings.specs.Polynomial.{new_polynomial, polynomial_groups, DigitsAreLeast};
ghost use Rattle.model.proofs.PolynomialLaw.{polynomial_laws, polynomial_spread_law};
ghost use Rattle.groupings.specs.PolynomialFitLemmas.{fit_parts};

use super::Polynomial;
use crate::{Grouping, is_inside, rows_fit};
use refusal::Refusal;

// Whether a polynomial grouping may have this width.
#[tactic(auto, unfolding(model::specs::Polynomial::allowed_width))]
fn is_width(width: usize) -> bool
    ensures { result ≡ allowed_width width }
{
    matches!(width, 31 | 61 | 127 | 251 | 509 | 1021 | 2039 | 4093)
}

// The least number of at least 1 whose power of the width reaches the span. A loop that multiplies: the integer logarithm
// divides at each digit, which takes several times as long.
fn digit_count(width: usize, span: u32) -> u32
    requires wide { 2 ≤ width }
    requires narrow { width ≤ 4093 }
    requires small { span ≤ 2 ^ 30 }
    ensures { result ≡ digit_count width span }
{
    let mut digits = 1;
    let mut power = width;
    while power < span as usize {
        power *= width;
        digits += 1;
    }
    digits
}

impl Polynomial {
    #[tactic(auto, using(model::proofs::Inverses::width_at_least_31, model::proofs::Inverses::width_at_most_4093))]
    pub fn new(rows: usize, width: usize, span: u32) -> Result<Polynomial, Refusal>
        ensures made { result ≡ new_polynomial rows width span }
        ensures digits_are_least { DigitsAreLeast result }
    {
        if !rows_fit(rows) {
            return Err(Refusal::RowsOutOfRange);
        }
        if !is_width(width) {
            return Err(Refusal::WidthNotAllowed);
        }
        if !(1..=1 << 30).contains(&span) {
            return Err(Refusal::SpanOutOfRange);
        }
        let digits = digit_count(width, span);
        Ok(Polynomial {
            rows,
            width,
            span,
            digits,
        })
    }
}

impl Grouping for Polynomial {
    ghost groups = { polynomial_groups };

    ghost span = { λ p. p.span };

    ghost spread = { λ p. polynomial_spread p.rows p.width p.span };

    ghost lawful = { λ p.
        let parts = fit_parts p.rows p.width p.span p.fit in
        polynomial_laws p.rows p.width p.span parts.some_rows parts.few_rows parts.a_width };

    ghost apart = { λ p.
        let parts = fit_parts p.rows p.width p.span p.fit in
        polynomial_spread_law p.rows p.width p.span parts.few_rows parts.a_width parts.small_span };

    fn rows(&self) -> usize {
        self.rows
    }

    fn width(&self) -> usize {
        self.width
    }

    fn span(&self) -> u32 {
        self.span
    }

    #[tactic(auto, using(model::proofs::Digits::digits_at_least_1))]
    fn spread(&self) -> usize {
        (self.digits as usize - 1).min(self.rows)
    }

    fn group(&self, row: usize, code: u32) -> usize {
        if !is_inside(self.rows, row, code) {
            return 0;
        }
        // Digit by digit, the lowest first; no list of them is made.
        let mut sum = 0;
        let mut power = 1;
        let mut rest = code as usize;
        for _place in 0..self.digits {
            sum = (sum + rest % self.width * power) % self.width;
            power = power * row % self.width;
            rest /= self.width;
        }
        sum
    }
}
