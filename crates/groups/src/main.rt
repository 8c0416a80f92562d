//! The planner's tool: which groups the keys on standard input have under the plan that the arguments ask for, and how
//! many rows they share. What it prints is `planning::answer`; this program only moves bytes.
#![tactic(auto)]

use anyhow::bail;
use planning::{NoAnswer, answer};
use refusal::Refusal;
use std::env;
use std::io::Read;

const USAGE: &str = "usage: groups KIND RULE NUMBERS.. <KEYS
  KIND  stations    a key is a number from 0 to 999999999
        pairs       a key is a source and a destination region from 0 to 999, parted by one space
  RULE  polynomial  NUMBERS are ROWS WIDTH SPAN
        universal   NUMBERS are ROWS WIDTH and for each row A B
KEYS are read from standard input, one to a line";

fn main(rt: HostRuntime) -> anyhow::Result<()> {
    run(&rt)
}

fn run(rt: &HostRuntime) -> anyhow::Result<()> {
    let heap = rt.alloc();
    let words: Vec<String> = env::args(rt)?.skip(1).collect(heap)?;
    // Wrong arguments are told before any input is waited for.
    explained(rt, answer(heap, &words, &[]))?;
    let mut input = Vec::new(heap);
    rt.stdin().read_to_end(&mut input)?;
    let out = explained(rt, answer(heap, &words, &input))?;
    Ok(print!(rt; "{out}")?)
}

// What the refusals of a plan mean to a planner; a refusal itself writes numbers.
fn meaning(refusal: Refusal) -> &'static str {
    match refusal {
        Refusal::RowsOutOfRange => "rows are from 1 to 16",
        Refusal::WidthNotAllowed =>
            "a width is from 1 to 4096, and if polynomial 31, 61, 127, 251, 509, 1021, 2039 or 4093",
        Refusal::DrawnNumberTooLarge => "a drawn number is below 2147483647",
        Refusal::SpanOutOfRange => "a span is from 1 to 1073741824",
        Refusal::SpanBelowCodes => "the span is below the number of codes of this kind of key",
        _ => "no plan has these parameters",
    }
}

// An answer, or why there is none; the usage is printed where the words have the wrong form.
fn explained(rt: &HostRuntime, answered: Result<String, NoAnswer>) -> anyhow::Result<String> {
    match answered {
        Err(NoAnswer::Usage) => {
            eprintln!(rt; "{USAGE}")?;
            bail!("the arguments have the wrong form")
        }
        Err(no_answer @ NoAnswer::Refused(refusal)) => bail!("{no_answer}: {}", meaning(refusal)),
        answered => Ok(answered?),
    }
}
