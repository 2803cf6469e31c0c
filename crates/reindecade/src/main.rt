#![tactic(auto)]

mod help;
mod json;
mod report;
mod session;
mod tally;

use anyhow::ensure;
use session::Session;
use std::env;
use std::io::{BufRead, BufReader};

fn run(rt: &HostRuntime) -> anyhow::Result<()> {
    let mut session = Session::new(rt);
    for line in BufReader::new(rt.alloc(), rt.stdin())?.lines(rt.alloc()) {
        session.step(line?.as_str())?;
    }
    rt.println(session.tally())?;
    ensure!(session.all_calls(), "a line of the script is no call");
    Ok(())
}

fn main(rt: HostRuntime) -> anyhow::Result<()> {
    if env::args(&rt)?.any(|word| word.as_str() == "--help") {
        rt.println(help::TEXT)?;
        return Ok(());
    }
    run(&rt)
}
