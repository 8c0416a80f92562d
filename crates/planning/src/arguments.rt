ghost use Rattle.std.specs.Prelude.{◌≡◌, map, Some, ok_or, vec_items, string_bytes, slice_index};
ghost use Rattle.planning.specs.Arguments.{kind_named, rule_named, Reads, drawn_from, universal_from, polynomial_from, chosen_from};
ghost use Rattle.planning.specs.declared.no_answer.NoAnswer.TheVariants.{Usage};

use crate::no_answer::NoAnswer;
use groupings::{Draw, Polynomial, Universal};
use listing::number;
use std::alloc::Global;
use std::array;
use std::str::FromStr;

// The kind of key that was asked for.
#[derive(Clone, Copy, Debug, PartialEq, Eq)]
pub(crate) enum KindNamed {
    Stations,
    Pairs,
}

// The rule of the grouping that was asked for.
#[derive(Clone, Copy, Debug, PartialEq, Eq)]
pub(crate) enum RuleNamed {
    Draws,
    Digits,
}

// The grouping that was asked for. It has no equality, since a grouping has none: numbers of rows that are not used mean nothing.
#[derive(Clone, Copy)]
pub(crate) enum Chosen {
    ByDraws(Universal),
    ByDigits(Polynomial),
}

impl FromStr for KindNamed {
    type Err = NoAnswer;

    ghost from_str_gives = { λ word r. r ≡ ok_or (kind_named word) Usage };

    fn from_str(word: &str) -> Result<KindNamed, NoAnswer> {
        match word {
            "stations" => Ok(KindNamed::Stations),
            "pairs" => Ok(KindNamed::Pairs),
            _ => Err(NoAnswer::Usage),
        }
    }
}

impl FromStr for RuleNamed {
    type Err = NoAnswer;

    ghost from_str_gives = { λ word r. r ≡ ok_or (rule_named word) Usage };

    fn from_str(word: &str) -> Result<RuleNamed, NoAnswer> {
        match word {
            "universal" => Ok(RuleNamed::Draws),
            "polynomial" => Ok(RuleNamed::Digits),
            _ => Err(NoAnswer::Usage),
        }
    }
}

// The numbers that words write, if each writes one. A loop, since it has to be known that a word that writes none is the error,
// which `try_collect` does not say.
#[tactic(auto, using(crate::proofs::Numbers::one_word_more, crate::proofs::Numbers::joined_more))]
pub(crate) fn numbers_of(heap: Global, words: &[String]) -> Result<Vec<u32>, NoAnswer>
    ensures { Reads vec_items result (map string_bytes words.now) }
{
    let mut numbers = Vec::new(heap);
    for word in words {
        let n = number(word.as_bytes()).ok_or(NoAnswer::Usage)?;
        numbers.push(n)?;
    }
    Ok(numbers)
}

// The number at a place, or 0 past the last.
fn number_at(numbers: &[u32], place: usize) -> u32
    ensures { result ≡ slice_index numbers.now place }
{
    numbers.get(place).copied().unwrap_or(0)
}

// The drawn numbers of 16 rows, which stand after the rows and the width; 0 where there are none. Read by place, as the
// clause does, which is for any list.
fn drawn_of(numbers: &[u32]) -> [Draw; 16]
    ensures { result ≡ drawn_from numbers.now }
{
    array::from_fn(|row| Draw {
        a: number_at(numbers, 2 * row + 2),
        b: number_at(numbers, 2 * row + 3),
    })
}

// Rows, width, and two drawn numbers for each row.
#[tactic(auto, unfolding(crate::specs::Arguments::universal_from))]
fn universal_of(numbers: &[u32]) -> Result<Chosen, NoAnswer>
    ensures { result ≡ universal_from numbers.now }
{
    let [rows, width, drawn @ ..] = numbers else {
        return Err(NoAnswer::Usage);
    };
    let (rows, width) = (*rows as usize, *width as usize);
    if drawn.len() != 2 * rows {
        return Err(NoAnswer::Usage);
    }
    let grouping = Universal::new(rows, width, drawn_of(numbers))?;
    Ok(Chosen::ByDraws(grouping))
}

// Rows, width and span.
#[tactic(auto, unfolding(crate::specs::Arguments::polynomial_from))]
fn polynomial_of(numbers: &[u32]) -> Result<Chosen, NoAnswer>
    ensures { result ≡ polynomial_from numbers.now }
{
    let &[rows, width, span] = numbers else {
        return Err(NoAnswer::Usage);
    };
    let grouping = Polynomial::new(rows as usize, width as usize, span)?;
    Ok(Chosen::ByDigits(grouping))
}

// The grouping that a rule and numbers ask for. Each rule reads numbers of its own.
pub(crate) fn grouping_of(rule: RuleNamed, numbers: &[u32]) -> Result<Chosen, NoAnswer>
    ensures { result ≡ chosen_from (Some rule) (Some numbers.now) }
{
    match rule {
        RuleNamed::Draws => universal_of(numbers),
        RuleNamed::Digits => polynomial_of(numbers),
    }
}
