ghost use Rattle.std.specs.Prelude.{◌≡◌, true};
ghost use Rattle.groupings.specs.PolynomialFit.{polynomial_fit};
ghost use Rattle.model.specs.Polynomial.{digit_count};

pub mod grouping;

/// The polynomial grouping. The digits of a code that its span asks for are counted once, when it is made.
#[derive(Clone, Copy)]
pub struct Polynomial {
    // Two numbers and no struct of their own: each grouping allows other widths.
    rows: usize,
    width: usize,
    span: u32,
    digits: u32,
    ghost fit: { polynomial_fit rows width span ≡ true },
    ghost counted: { digits ≡ digit_count width span },
}
