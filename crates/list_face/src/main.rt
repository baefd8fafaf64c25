//! Reports on a transformed glyf table, and lists its glyphs.
#![tactic(auto)]

use anyhow::{Context, anyhow, bail};
use forme::Forme;
use listing::{Face, RefusalText};
use report::Report;
use room::Room;
use std::{env, fs};
use woff2::GlyfHeader;

// A component has at least this many bytes.
const LEAST_COMPONENT: u32 = 6;

// Room for all that the streams could hold. A stream that passes the table's end holds no more than the table.
fn room_for(header: &GlyfHeader, table_len: usize) -> Room {
    Room {
        records: usize::from(header.num_glyphs),
        ends: table_len.min(header.n_points_size as usize),
        points: table_len.min(header.flag_size as usize),
        components: table_len.min((header.composite_size / LEAST_COMPONENT) as usize),
        instructions: table_len.min(header.instruction_size as usize),
        // No metrics are read.
        full: 0,
        tail: 0,
    }
}

fn list_glyphs(rt: &HostRuntime, header: &GlyfHeader, table: &[u8]) -> anyhow::Result<()> {
    let mut forme = Forme::new();
    let mut lists = room_for(header, table.len())
        .lists(rt.alloc())
        .map_err(|_| anyhow!("there is no memory for the glyphs"))?;
    if let Err(refusal) = forme.unpack(table, &mut lists) {
        println!(rt; "{}", RefusalText(refusal))?;
        bail!("the table is refused");
    }
    let face = Face {
        forme: &forme,
        lists: &lists,
    };
    print!(rt; "{face}")?;
    Ok(())
}

// It begins as `unwoff2` does. They are two programs, and a crate for these lines would be no plainer.
fn run(rt: &HostRuntime) -> anyhow::Result<()> {
    let path = env::args(rt)?.nth(1).context("usage: list_face FILE")?;
    let table = fs::read(rt, path.as_str())?;
    let report = Report::new(table.as_slice()).map_err(|error| {
        anyhow!(
            "refused {}: the table has more than 4294967295 bytes",
            error.number()
        )
    })?;
    print!(rt; "{report}")?;
    let (Ok(header), Ok(())) = (report.header, report.streams) else {
        bail!("the table is refused");
    };
    list_glyphs(rt, &header, table.as_slice())
}

fn main(rt: HostRuntime) -> anyhow::Result<()> {
    run(&rt)
}
