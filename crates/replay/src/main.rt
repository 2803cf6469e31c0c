// Replays what a JavaScript engine answered, and stops at the first row that is answered otherwise.
#![tactic(auto)]

mod checks;
mod fault;
mod hex;
mod rows;

use anyhow::anyhow;
use checks::{check_literal, check_raw_part, check_word};
use fault::Fault;
use rows::fields;
use std::alloc::Global;
use std::fs;

// One type for all three, so that the loop over the rows is compiled once: thrice it is slower.
type Check = fn(Global, &[&str]) -> Result<(), Fault>;

fn main(rt: HostRuntime) -> anyhow::Result<()> {
    replay(&rt, "raw.txt", "raw parts", check_raw_part as Check)?;
    replay(&rt, "words.txt", "words", check_word as Check)?;
    replay(
        &rt,
        "strings.txt",
        "string literals",
        check_literal as Check,
    )
}

// Checks the rows of one file, whose comments begin with `#`.
fn replay<F: Fn(Global, &[&str]) -> Result<(), Fault>>(
    rt: &HostRuntime,
    file: &str,
    subject: &str,
    check: F,
) -> anyhow::Result<()>
    requires { F.IsAlwaysCallable check }
{
    let heap = rt.alloc();
    let text = fs::read_to_string(rt, file)?;
    let rows = text
        .as_str()
        .lines()
        .enumerate()
        .filter(|(_, line)| !line.starts_with('#'));
    // counted as they are checked: a list of them would take more memory than the file
    let mut count = 0usize;
    for (above, row) in rows {
        if let Err(fault) = check_row(heap, row, &check) {
            let number = above + 1;
            eprintln!(rt; "{file}, line {number}: {fault}")?;
            return Err(anyhow!("not replayed to the end"));
        }
        count = count.saturating_add(1);
    }
    if count == 0 {
        return Err(anyhow!(format!(in heap; "{file}: no rows")?));
    }
    println!(rt; "{subject}: {count} rows, all as recorded")?;
    Ok(())
}

fn check_row<F: Fn(Global, &[&str]) -> Result<(), Fault>>(
    heap: Global,
    row: &str,
    check: &F,
) -> Result<(), Fault>
    requires { F.IsAlwaysCallable check.now }
{
    let fields = fields(heap, row)?;
    check(heap, &fields)
}
