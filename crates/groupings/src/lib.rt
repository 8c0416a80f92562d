//! Groupings: rows of groups for codes, and the law that bounds how many rows two codes share.
#![tactic(auto)]

ghost use Rattle.std.specs.Prelude.{◌≡◌, ℕ, ◌<◌, ◌≤◌, ◌≢◌, count_by};
ghost use Rattle.std.specs.List.{range_with_len};
ghost use Rattle.model.specs.Grouping.{Groups, GroupsLaws, Spread, is_inside, shares, shared_rows, OneGroupNeedsEveryRow};
ghost use Rattle.groupings.specs.Rows.{rows_fit};

mod polynomial;
mod universal;

pub use polynomial::Polynomial;
pub use universal::{Draw, Universal};

/// A grouping. What it means is its rows of groups, a span and a spread, and every question is answered from these.
pub trait Grouping: Sized {
    ghost groups: { Self → Groups };

    ghost span: { Self → ℕ };

    ghost spread: { Self → ℕ };

    fn rows(&self) -> usize
        ensures { result ≡ (groups self.now).rows };

    /// How many groups a row has.
    fn width(&self) -> usize
        ensures { result ≡ (groups self.now).width };

    /// The codes below this are those that the spread speaks of.
    fn span(&self) -> u32
        ensures { result ≡ span self.now };

    /// In at most so many rows two different codes below the span share a group.
    fn spread(&self) -> usize
        ensures { result ≡ spread self.now };

    /// The group of a code in a row; 0 for a row past the last and for a code of 2^30 or more.
    fn group(&self, row: usize, code: u32) -> usize
        ensures { result ≡ (groups self.now).group row code };

    ghost lawful: { (g : Self) → GroupsLaws (groups g) };

    ghost apart: { (g : Self) → Spread (groups g) (span g) (spread g) };
}

// The rows in which two codes share a group, counted in the list of all rows. Apart from `shared_rows`, since a chain is shown
// by a clause that mirrors it.
fn count_shared<G: Grouping>(grouping: &G, code: u32, other: u32) -> usize
    ensures { result ≡ count_by (shares (G.Grouping.groups grouping.now) code other) (range_with_len 0 (G.Grouping.groups grouping.now).rows) }
{
    (0..grouping.rows())
        .filter(|row| grouping.group(*row, code) == grouping.group(*row, other))
        .count()
}

/// In how many rows two codes share a group.
#[tactic(auto, using(crate::proofs::SharedRows::count_of_rows))]
pub fn shared_rows<G: Grouping>(grouping: &G, code: u32, other: u32) -> usize
    ensures value { result ≡ shared_rows (G.Grouping.groups grouping.now) code other }
    ensures at_most_spread { code < G.Grouping.span grouping.now → other < G.Grouping.span grouping.now → code ≢ other → result ≤ G.Grouping.spread grouping.now }
    ensures one_group_needs_every_row { OneGroupNeedsEveryRow (G.Grouping.groups grouping.now) (G.Grouping.span grouping.now) (G.Grouping.spread grouping.now) }
{
    count_shared(grouping, code, other)
}

// How many rows a grouping may have.
fn rows_fit(rows: usize) -> bool
    ensures { result ≡ rows_fit rows }
{
    (1..=16).contains(&rows)
}

// Whether a row is used and a code below 2^30. What is outside has group 0.
fn is_inside(rows: usize, row: usize, code: u32) -> bool
    ensures { result ≡ is_inside rows row code }
{
    row < rows && code < 1 << 30
}
