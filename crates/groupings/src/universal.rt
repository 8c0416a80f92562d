ghost use Rattle.std.specs.Prelude.{◌≡◌, true};
ghost use Rattle.groupings.specs.UniversalFit.{universal_fit};

pub mod grouping;

/// The two drawn numbers of a row.
#[derive(Clone, Copy)]
pub struct Draw {
    pub a: u32,
    pub b: u32,
}

/// The universal grouping: two drawn numbers for each of 16 rows, of which the first `rows` are used.
#[derive(Clone, Copy)]
pub struct Universal {
    rows: usize,
    width: usize,
    // An array, so that a grouping is `Copy` and keeps the numbers of unused rows.
    drawn: [Draw; 16],
    ghost fit: { universal_fit rows width drawn ≡ true },
}
