ghost use Rattle.std.specs.Prelude.{◌≤◌};

/// The values in a refusal's brackets, at most four.
// An array with a count, since it is `Copy`, which a vector of fixed capacity is not.
#[derive(Clone, Copy)]
pub struct Values {
    pub(crate) places: [u64; 4],
    pub(crate) count: usize,
    ghost few: { count ≤ 4 },
}
