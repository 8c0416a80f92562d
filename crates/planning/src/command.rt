ghost use Rattle.std.specs.Prelude.{◌≡◌, map, Some, Ok, string_bytes};
ghost use Rattle.keys.specs.Station.{station_kind};
ghost use Rattle.keys.specs.Pair.{pair_kind};
ghost use Rattle.listing.specs.Typed.{station_line, pair_line};
ghost use Rattle.planning.specs.declared.arguments.Chosen.{Chosen};
ghost use Rattle.planning.specs.Command.{Tells, answer_by, answer_for, answer_of, answer_to, RowsSharedWithinSpread};

use crate::arguments::{Chosen, KindNamed, RuleNamed, grouping_of, numbers_of};
use crate::no_answer::NoAnswer;
use groupings::{Grouping, Polynomial, Universal};
use keys::{Key, Pair, Station};
use listing::{Typed, describe};
use refusal::Refusal;
use std::alloc::Global;

// The keys of a text under a grouping, whose span has to reach all codes of the kind: a test that a plan makes too, in a crate on
// which this one does not rest. The allocator is handed on, as to every call that makes something.
fn answer_by<K: Typed, G: Grouping>(
    heap: Global,
    grouping: &G,
    input: &[u8],
) -> Result<String, NoAnswer>
    ensures { Tells string_bytes result (answer_by K.Key.kind K.Typed.typed (G.Grouping.groups grouping.now) (G.Grouping.span grouping.now) (G.Grouping.spread grouping.now) input.now) }
{
    if grouping.span() < K::CODES {
        return Err(Refusal::SpanBelowCodes.into());
    }
    Ok(describe::<K, G>(heap, grouping, input)?)
}

// The grouping's type is known only when the words are read, so a match picks the instance.
fn answer_for<K: Typed>(heap: Global, chosen: &Chosen, input: &[u8]) -> Result<String, NoAnswer>
    ensures { Tells string_bytes result (answer_for K.Key.kind K.Typed.typed chosen.now input.now) }
{
    match chosen {
        Chosen::ByDraws(universal) => answer_by::<K, Universal>(heap, universal, input),
        Chosen::ByDigits(polynomial) => answer_by::<K, Polynomial>(heap, polynomial, input),
    }
}

// The kind is a type, known only when the words are read, so a match picks the instance.
fn answer_of(
    heap: Global,
    kind: KindNamed,
    chosen: &Chosen,
    input: &[u8],
) -> Result<String, NoAnswer>
    ensures { Tells string_bytes result (answer_of (Some kind) (Ok chosen.now) input.now) }
{
    match kind {
        KindNamed::Stations => answer_for::<Station>(heap, chosen, input),
        KindNamed::Pairs => answer_for::<Pair>(heap, chosen, input),
    }
}

/// What the tool says of a text of keys under the plan that the words ask for, or why it says nothing.
#[tactic(auto, using(crate::proofs::SharedRows::stations_share_within_spread, crate::proofs::SharedRows::pairs_share_within_spread))]
pub fn answer(heap: Global, words: &[String], input: &[u8]) -> Result<String, NoAnswer>
    ensures stations_share_within_spread { (chosen : Chosen) → RowsSharedWithinSpread station_kind station_line chosen input.now }
    ensures pairs_share_within_spread { (chosen : Chosen) → RowsSharedWithinSpread pair_kind pair_line chosen input.now }
    ensures told { Tells string_bytes result (answer_to (map string_bytes words.now) input.now) }
{
    let [kind, rule, numbers @ ..] = words else {
        return Err(NoAnswer::Usage);
    };
    let kind = kind.parse::<KindNamed>()?;
    // A word that names no rule is told after the numbers are read, so that want of memory comes before it.
    let rule = rule.parse::<RuleNamed>();
    let numbers = numbers_of(heap, numbers)?;
    let chosen = grouping_of(rule?, &numbers)?;
    answer_of(heap, kind, &chosen, input)
}
