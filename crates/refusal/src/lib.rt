//! The reasons to refuse: one case for each, its number, the values in its brackets, and how it is written out.
#![tactic(auto)]

ghost use Rattle.std.specs.Prelude.{◌≡◌, ◌≤◌, length, Some};
ghost use Rattle.std.specs.Fmt.{WritesOnOk};
ghost use Rattle.refusal.specs.Reason.{says, reason, listed, spelt};

mod values;

use std::error::Error;
use std::fmt;
pub use values::Values;

/// Which of the boards that a call brings, by the number that stands for it.
#[derive(Clone, Copy, Debug, PartialEq, Eq)]
pub enum Side {
    /// The board written to, or the only one.
    Written = 0,
    /// The board that is added or taken off.
    Other = 1,
}

/// What a report finds out of balance, by the number that stands for it.
#[derive(Clone, Copy, Debug, PartialEq, Eq)]
pub enum Cause {
    /// The total is 2^63 or more.
    TotalTooLarge = 1,
    /// A cell is 2^63 or more.
    CellTooLarge = 2,
    /// A cell is above its group's cell 0.
    CellAboveCount = 3,
    /// The counts of a row's groups do not add up to the total.
    RowSumDiffers = 4,
}

/// Why a call refuses. A refused call leaves everything as it was.
#[derive(Clone, Copy, Debug, PartialEq, Eq)]
pub enum Refusal {
    /// Rows are outside 1 to 16.
    RowsOutOfRange,
    /// The width is outside 1 to 4,096, or none of the eight of a polynomial grouping.
    WidthNotAllowed,
    /// A drawn number of a used row is 2,147,483,647 or more.
    DrawnNumberTooLarge,
    /// The span of a polynomial grouping is outside 1 to 2^30.
    SpanOutOfRange,
    /// A station number is above 999,999,999, or a region above 999.
    KeyOutOfRange,
    /// The grouping's span is below the number of codes of the kind of key.
    SpanBelowCodes,
    /// So many cells were brought, which is not the plan's number.
    WrongCellCount {
        brought: usize,
        board: Side,
    },
    /// The head has another plan number.
    WrongPlanNumber {
        board: Side,
    },
    /// The weight is 0.
    ZeroWeight,
    /// The level is outside 1 to 4,095.
    LevelOutOfRange,
    /// The list is shorter than rows times the lesser of level and width.
    ListTooShort,
    /// A report finds the board out of balance, here.
    OutOfBalance {
        cause: Cause,
        row: usize,
        group: usize,
        cell: usize,
    },
    /// The message buffer is too short; so many bytes are needed.
    BufferTooShort {
        needed: usize,
    },
    /// The message ends too soon, has a spare bit set, or has bytes left over, from this bit on.
    MessageMisshapen {
        bit_place: u64,
    },
    /// The message's plan field at this bit differs from the plan in hand.
    PlanFieldDiffers {
        bit_place: u64,
    },
    /// The section of this row, at this bit, is unsound.
    SectionUnsound {
        row: usize,
        bit_place: u64,
    },
    /// The line of this number, from 1, has the wrong form.
    WrongLineForm {
        line: u64,
    },
}

impl Values {
    fn of(values: &[u64]) -> Values
        requires few { length values.now ≤ 4 }
        ensures { listed result ≡ values.now }
    {
        let mut places = [0; 4];
        places[..values.len()].copy_from_slice(values);
        Values {
            places,
            count: values.len(),
        }
    }

    pub fn as_slice(&self) -> &[u64]
        ensures { result.now ≡ listed self.now }
    {
        &self.places[0..self.count]
    }
}

impl Refusal {
    // Cases carry values, so that no cast gives the number.
    pub fn number(&self) -> u32
        ensures { result ≡ (reason self.now).number }
    {
        match self {
            Refusal::RowsOutOfRange => 1,
            Refusal::WidthNotAllowed => 2,
            Refusal::DrawnNumberTooLarge => 3,
            Refusal::SpanOutOfRange => 4,
            Refusal::KeyOutOfRange => 5,
            Refusal::SpanBelowCodes => 6,
            Refusal::WrongCellCount { .. } => 7,
            Refusal::WrongPlanNumber { .. } => 8,
            Refusal::ZeroWeight => 9,
            Refusal::LevelOutOfRange => 10,
            Refusal::ListTooShort => 11,
            Refusal::OutOfBalance { .. } => 12,
            Refusal::BufferTooShort { .. } => 13,
            Refusal::MessageMisshapen { .. } => 14,
            Refusal::PlanFieldDiffers { .. } => 15,
            Refusal::SectionUnsound { .. } => 16,
            Refusal::WrongLineForm { .. } => 17,
        }
    }

    pub fn values(&self) -> Values
        ensures { listed result ≡ (reason self.now).values }
    {
        match self {
            Refusal::WrongCellCount { brought, board } => Values::of(&[
                *brought as u64,
                *board as u64,
            ]),
            Refusal::WrongPlanNumber { board } => Values::of(&[*board as u64]),
            Refusal::OutOfBalance {
                cause,
                row,
                group,
                cell,
            } => Values::of(&[*cause as u64, *row as u64, *group as u64, *cell as u64]),
            Refusal::BufferTooShort { needed } => Values::of(&[*needed as u64]),
            Refusal::MessageMisshapen { bit_place } => Values::of(&[*bit_place]),
            Refusal::PlanFieldDiffers { bit_place } => Values::of(&[*bit_place]),
            Refusal::SectionUnsound { row, bit_place } => Values::of(&[*row as u64, *bit_place]),
            Refusal::WrongLineForm { line } => Values::of(&[*line]),
            _ => Values::of(&[]),
        }
    }
}

// A number, and each value after a space.
fn write_spelt<W: fmt::Write>(f: &mut fmt::Formatter<W>, number: u32, values: &[u64]) -> fmt::Result
    ensures { WritesOnOk W.Write.write_str_gives f.old result (spelt (says number values.now)) f.new }
{
    write!(f, "{number}")?;
    for value in values {
        write!(f, " {value}")?;
    }
    Ok(())
}

/// The number and the values, parted by single spaces.
impl fmt::Display for Refusal {
    ghost output = { λ x. Some (spelt (reason x)) };

    fn fmt<W: fmt::Write>(&self, f: &mut fmt::Formatter<W>) -> fmt::Result {
        let values = self.values();
        write_spelt(f, self.number(), values.as_slice())
    }
}

impl Error for Refusal {}
