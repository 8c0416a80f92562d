ghost use Rattle.std.specs.Prelude.{◌≡◌, ◌++◌, length, IfOk, string_bytes, OnOk};
ghost use Rattle.listing.specs.Text.{lines};
ghost use Rattle.listing.specs.Sentences.{Adds};
ghost use Rattle.listing.specs.Description.{code_read, codes_read, line_said, lines_said, distinct, EachOnce, description};

use crate::sentences::{AllShared, ClosingSentence, KeySentence, fault};
use crate::text::Lines;
use crate::typed::Typed;
use groupings::Grouping;
use std::alloc::{AllocError, Global};

// Each code once, where it stands first.
fn distinct_of(heap: Global, codes: &[u32]) -> Result<Vec<u32>, AllocError>
    ensures { IfOk result (λ once. once.items ≡ distinct codes.now) }
{
    let mut once = Vec::new(heap);
    for &code in codes {
        if !once.contains(&code) {
            once.push(code)?;
        }
    }
    Ok(once)
}

// One line: what is said of it, and its key's code after those read so far. Text and codes are two results, which only this and
// the next function fill.
fn write_line<K: Typed, G: Grouping>(
    out: &mut String,
    codes: &mut Vec<u32>,
    grouping: &G,
    line: u64,
    text: &[u8],
) -> Result<(), AllocError>
    ensures said { Adds result (string_bytes out.old) (line_said K.Key.kind (G.Grouping.groups grouping.now) line (K.Typed.typed line text.now)) (string_bytes out.new) }
    ensures read { Adds result codes.old.items (code_read K.Key.kind (K.Typed.typed line text.now)) codes.new.items }
{
    match K::from_line(line, text) {
        Ok(key) => {
            let code = key.code();
            codes.push(code)?;
            write!(out, "{}", KeySentence { grouping, code })
        }
        Err(refusal) => writeln!(out, "line {line} refused: {refusal} ({})", fault(&refusal)),
    }
}

// Every line in turn. How many there were is the answer, so they are counted here, which also numbers them.
fn write_lines<K: Typed, G: Grouping>(
    out: &mut String,
    codes: &mut Vec<u32>,
    grouping: &G,
    input: &[u8],
) -> Result<u64, AllocError>
    ensures said { OnOk result (string_bytes out.new ≡ string_bytes out.old ++ lines_said K.Key.kind K.Typed.typed (G.Grouping.groups grouping.now) 1 (lines input.now)) }
    ensures read { OnOk result (codes.new.items ≡ codes.old.items ++ codes_read K.Key.kind K.Typed.typed 1 (lines input.now)) }
    ensures counted { IfOk result (λ n. n ≡ length (lines input.now)) }
{
    let mut count: u64 = 0;
    for text in Lines(input) {
        count += 1;
        write_line::<K, G>(out, codes, grouping, count, text)?;
    }
    Ok(count)
}

/// All that is said of the keys in a text, one key to a line. The error is want of memory.
#[tactic(auto, using(crate::proofs::Distinct::distinct_each_once, crate::proofs::Adding::keys_and_refused))]
pub fn describe<K: Typed, G: Grouping>(
    heap: Global,
    grouping: &G,
    input: &[u8],
) -> Result<String, AllocError>
    ensures each_key_compared_once { OnOk result (EachOnce (codes_read K.Key.kind K.Typed.typed 1 (lines input.now)) (distinct (codes_read K.Key.kind K.Typed.typed 1 (lines input.now)))) }
    ensures described { IfOk result (λ out. string_bytes out ≡ description K.Key.kind K.Typed.typed (G.Grouping.groups grouping.now) (G.Grouping.spread grouping.now) input.now) }
{
    let mut out = String::new(heap);
    let mut codes = Vec::new(heap);
    let count = write_lines::<K, G>(&mut out, &mut codes, grouping, input)?;
    let once = distinct_of(heap, &codes)?;
    let shared = AllShared {
        grouping,
        codes: &once,
    };
    write!(out, "{shared}")?;
    let keys = codes.len();
    let refused = count - keys as u64;
    write!(out, "{}", ClosingSentence { keys, refused })?;
    Ok(out)
}
