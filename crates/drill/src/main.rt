//! The program drill: a sheet on standard input, run over a queue of 1,024 messages, and its listing printed.
#![tactic(auto)]

use console::run::run;
use runner::choice::Choice;

fn main(rt: HostRuntime) -> anyhow::Result<()> {
    run(rt.alloc(), Choice::Queue, rt.stdin(), &mut rt.stdout())?;
    Ok(())
}
