//! Reports on a transformed glyf table.
#![tactic(auto)]

use anyhow::{Context, anyhow};
use report::Report;
use std::{env, fs};

fn run(rt: &HostRuntime) -> anyhow::Result<()> {
    let path = env::args(rt)?.nth(1).context("usage: unwoff2 FILE")?;
    let table = fs::read(rt, path.as_str())?;
    let report = Report::new(table.as_slice()).map_err(|error| {
        anyhow!(
            "refused {}: the table has more than 4294967295 bytes",
            error.number()
        )
    })?;
    print!(rt; "{report}")?;
    report.streams.map_err(|_| anyhow!("the table is refused"))
}

fn main(rt: HostRuntime) -> anyhow::Result<()> {
    run(&rt)
}
