//! Plans, the heads and cells of boards, and the call that opens a board. The caller keeps head and cells and lends them to
//! each call; no call allocates.
#![tactic(auto)]

ghost use Rattle.std.specs.Prelude.{◌≡◌};
ghost use Rattle.model.specs.Plan.{cell_count};
ghost use Rattle.model.specs.Board.{open_outcome, answer_of, left_by};
ghost use Rattle.board.specs.Plan.{new_plan, meant, held};

mod sign;

use groupings::Grouping;
use keys::Key;
use refusal::{Refusal, Side};
use std::marker::PhantomData;

/// The head of a board: the number of its plan, and its total. Only the calls of a plan write it.
pub struct Head {
    plan: u32,
    total: u64,
}

/// A plan number and a grouping, for one kind of key. All boards of one plan can be merged.
#[derive(Drop)]
pub struct Plan<K, G> {
    number: u32,
    grouping: G,
    kind: PhantomData<K>,
}

impl Head {
    /// A head for a board that is to be opened.
    pub fn blank() -> Head
        ensures { result ≡ record { plan = 0; total = 0 } }
    {
        Head { plan: 0, total: 0 }
    }

    pub fn plan_number(&self) -> u32
        ensures { result ≡ self.now.plan }
    {
        self.plan
    }

    pub fn total(&self) -> u64
        ensures { result ≡ self.now.total }
    {
        self.total
    }
}

// Clauses say what a plan means by `meant`: a model of it would have to be data, and what a kind and a grouping mean holds
// functions.
impl<K: Key, G: Grouping> Plan<K, G> {
    /// A plan with this number and grouping, if the grouping's span is not below the kind's number of codes.
    pub fn new(number: u32, grouping: G) -> Result<Self, Refusal>
    where
        G: Drop,
        ensures { result ≡ new_plan K.Key.kind.codes (G.Grouping.span grouping) number grouping }
    {
        if grouping.span() < K::CODES {
            return Err(Refusal::SpanBelowCodes);
        }
        Ok(Plan {
            number,
            grouping,
            kind: PhantomData,
        })
    }

    pub fn number(&self) -> u32
        ensures { result ≡ self.now.number }
    {
        self.number
    }

    pub fn grouping(&self) -> &G
        ensures { result.now ≡ self.now.grouping }
    {
        &self.grouping
    }

    /// How many cells a board of this plan has.
    pub fn cell_count(&self) -> usize
        ensures { result ≡ cell_count (meant K.Key.kind G.Grouping.groups self.now) }
    {
        self.grouping.rows() * self.grouping.width() * (K::BITS + 1)
    }

    /// Makes head and cells a new board of this plan.
    #[tactic(auto, using(crate::proofs::Opened::zeros_are_opened))]
    pub fn open(&self, head: &mut Head, cells: &mut [u64]) -> Result<(), Refusal>
        ensures answer { result ≡ answer_of (open_outcome (meant K.Key.kind G.Grouping.groups self.now) (held head.old cells.old)) }
        ensures board { held head.new cells.new ≡ left_by (open_outcome (meant K.Key.kind G.Grouping.groups self.now) (held head.old cells.old)) (held head.old cells.old) }
    {
        if cells.len() != self.cell_count() {
            return Err(Refusal::WrongCellCount {
                brought: cells.len(),
                board: Side::Written,
            });
        }
        cells.fill(0);
        head.plan = self.number;
        head.total = 0;
        Ok(())
    }
}
