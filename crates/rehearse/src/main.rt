//! The program rehearse: the drill over a channel that its arguments name.
#![tactic(auto)]

mod words;

use console::run::run;
use std::env;
use words::chosen;

const USAGE: &str =
    "usage: rehearse queue | slots | delay N queue | delay N slots | delay N delay M queue, with N and M from 0 to 255";

fn main(rt: HostRuntime) -> anyhow::Result<()> {
    let heap = rt.alloc();
    let args: Vec<String> = env::args(&rt)?.skip(1).collect(heap)?;
    let words: Vec<&str> = args.iter().map(|word| word.as_str()).collect(heap)?;
    let Some(choice) = chosen(&words) else {
        println!(rt; "{USAGE}")?;
        return Ok(());
    };
    run(heap, choice, rt.stdin(), &mut rt.stdout())?;
    Ok(())
}
