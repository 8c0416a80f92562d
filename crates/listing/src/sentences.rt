ghost use Rattle.std.specs.Prelude.{◌≡◌, Some};
ghost use Rattle.listing.specs.Sentences.{key_sentence, shared_sentence, line_fault, closing_sentence};
ghost use Rattle.listing.specs.Description.{shared_with, all_shared};

use groupings::{Grouping, shared_rows};
use refusal::Refusal;
use std::fmt;

/// The code of a key, and its group in every row.
#[derive(Drop)]
pub(crate) struct KeySentence<'a, G> {
    pub(crate) grouping: &'a G,
    pub(crate) code: u32,
}

impl<'a, G: Grouping> fmt::Display for KeySentence<'a, G> {
    ghost output = { λ s. Some (key_sentence (G.Grouping.groups s.grouping.now) s.code) };

    fn fmt<W: fmt::Write>(&self, f: &mut fmt::Formatter<W>) -> fmt::Result {
        write!(f, "code {} groups", self.code)?;
        for row in 0..self.grouping.rows() {
            write!(f, " {}", self.grouping.group(row, self.code))?;
        }
        writeln!(f)
    }
}

/// In how many rows two codes share a group, and the spread that bounds it; nothing where they share none.
#[derive(Drop)]
pub(crate) struct SharedSentence<'a, G> {
    pub(crate) grouping: &'a G,
    pub(crate) code: u32,
    pub(crate) other: u32,
}

impl<'a, G: Grouping> fmt::Display for SharedSentence<'a, G> {
    ghost output = { λ s. Some (shared_sentence (G.Grouping.groups s.grouping.now) (G.Grouping.spread s.grouping.now) s.code s.other) };

    fn fmt<W: fmt::Write>(&self, f: &mut fmt::Formatter<W>) -> fmt::Result {
        let shared = shared_rows(self.grouping, self.code, self.other);
        if shared == 0 {
            return Ok(());
        }
        writeln!(
            f,
            "codes {} and {}: rows shared {shared}, spread {}",
            self.code,
            self.other,
            self.grouping.spread()
        )
    }
}

/// How a code shares rows with each of others.
#[derive(Drop)]
pub(crate) struct SharedWith<'a, G> {
    pub(crate) grouping: &'a G,
    pub(crate) code: u32,
    pub(crate) others: &'a [u32],
}

impl<'a, G: Grouping> fmt::Display for SharedWith<'a, G> {
    ghost output = { λ s. Some (shared_with (G.Grouping.groups s.grouping.now) (G.Grouping.spread s.grouping.now) s.code s.others.now) };

    fn fmt<W: fmt::Write>(&self, f: &mut fmt::Formatter<W>) -> fmt::Result {
        for &other in self.others {
            let shared = SharedSentence {
                grouping: self.grouping,
                code: self.code,
                other,
            };
            write!(f, "{shared}")?;
        }
        Ok(())
    }
}

/// How every two of the codes share rows.
#[derive(Drop)]
pub(crate) struct AllShared<'a, G> {
    pub(crate) grouping: &'a G,
    pub(crate) codes: &'a [u32],
}

impl<'a, G: Grouping> fmt::Display for AllShared<'a, G> {
    ghost output = { λ s. Some (all_shared (G.Grouping.groups s.grouping.now) (G.Grouping.spread s.grouping.now) s.codes.now) };

    fn fmt<W: fmt::Write>(&self, f: &mut fmt::Formatter<W>) -> fmt::Result {
        let mut codes = self.codes;
        while let [code, others @ ..] = codes {
            let shared = SharedWith {
                grouping: self.grouping,
                code: *code,
                others,
            };
            write!(f, "{shared}")?;
            codes = others;
        }
        Ok(())
    }
}

// What a refused line lacks, in words; the refusal itself writes numbers.
pub(crate) fn fault(refusal: &Refusal) -> &'static str
    ensures { result.now ≡ line_fault refusal.now }
{
    match refusal {
        Refusal::KeyOutOfRange => "no such key",
        _ => "not the form of a key",
    }
}

/// How many keys were read, and how many lines were refused.
#[derive(Drop)]
pub(crate) struct ClosingSentence {
    pub(crate) keys: usize,
    pub(crate) refused: u64,
}

impl fmt::Display for ClosingSentence {
    ghost output = { λ s. Some (closing_sentence s.keys s.refused) };

    fn fmt<W: fmt::Write>(&self, f: &mut fmt::Formatter<W>) -> fmt::Result {
        let ClosingSentence { keys, refused } = self;
        writeln!(f, "keys read: {keys}, lines refused: {refused}")
    }
}
