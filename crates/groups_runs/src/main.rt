//! The planner's tool over many command lines. Standard input is a script: what follows a `$` is a line of words, and
//! then the keys that the command reads. It prints each command line, and what the tool answers to it.
#![tactic(auto)]

use planning::answer;
use std::alloc::{AllocError, Global};
use std::io::Read;

fn main(rt: HostRuntime) -> anyhow::Result<()> {
    run(&rt)
}

fn run(rt: &HostRuntime) -> anyhow::Result<()> {
    let mut script = String::new(rt.alloc());
    rt.stdin().read_to_string(&mut script)?;
    for part in script.as_str().split('$').skip(1) {
        let (line, keys) = part.split_once('\n').unwrap_or((part, ""));
        println!(rt; "${line}")?;
        let words = words_of(rt.alloc(), line.trim())?;
        match answer(rt.alloc(), &words, keys.as_bytes()) {
            Ok(out) => print!(rt; "{out}")?,
            Err(no_answer) => println!(rt; "{no_answer}")?,
        }
    }
    Ok(())
}

fn words_of(heap: Global, line: &str) -> Result<Vec<String>, AllocError> {
    line.split(' ')
        .map(|word| String::from_str(heap, word))
        .try_collect(heap)
}
