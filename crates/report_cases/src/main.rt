//! Reports on a small table, cut short at every length, and on headers that contradict themselves.
#![tactic(auto)]

use report::Report;
use std::io;

// Two glyphs: an empty one, and one of three points.
const TABLE: [u8; 52] = [
    0, 0, 0, 0, 0, 2, 0, 0, 0, 0, 0, 4, 0, 0, 0, 1, 0, 0, 0, 3, 0, 0, 0, 4, 0, 0, 0, 0, 0, 0, 0, 4,
    0, 0, 0, 0, 0, 0, 0, 1, 3, 0x14, 0x8b, 0x17, 3, 3, 0x25, 0, 0, 0, 0, 0,
];

// A table that begins with a header for `glyphs` glyphs and the given size of boxes.
fn with_boxes(glyphs: u8, format: u8, bbox_size: u8) -> [u8; 52] {
    let mut table = TABLE;
    table[5] = glyphs;
    table[7] = format;
    table[31] = bbox_size;
    table
}

fn show(rt: &impl Print, name: &str, table: &[u8]) -> io::Result<()> {
    println!(rt; "# {name}")?;
    match Report::new(table) {
        Ok(report) => print!(rt; "{report}"),
        Err(error) => println!(rt; "refused         {}", error.number()),
    }
}

fn main(rt: HostRuntime) -> io::Result<()> {
    show(&rt, "nothing", &[])?;
    for len in 1..53 {
        println!(rt; "# the first {len} bytes")?;
        if let Ok(report) = Report::new(&TABLE[0..len]) {
            match report.streams {
                Ok(()) => println!(rt; "accepted")?,
                Err(error) => println!(rt; "refused {}", error.number())?,
            }
        }
    }
    show(&rt, "one byte of the header missing", &TABLE[0..35])?;
    show(&rt, "the header alone", &TABLE[0..36])?;
    show(&rt, "one byte missing", &TABLE[0..51])?;
    show(&rt, "boxes shorter than their bitmap", &with_boxes(2, 1, 3))?;
    show(&rt, "a bitmap that passes the end", &with_boxes(33, 2, 4))
}
