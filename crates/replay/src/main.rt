//! Replays commands on a forme: reads one from each line of standard input, and writes the answers to standard output.
#![tactic(auto)]

mod answer;
mod command;
mod mistake;
mod session;

use answer::Answer;
use mistake::Mistake;
use session::Session;
use std::io;
use std::io::{BufRead, BufReader, BufWriter, ErrorKind, Write};

fn is_passed_over(line: &str) -> bool {
    line.trim().is_empty() || line.starts_with('#')
}

fn show(out: &mut impl Write, answer: Result<Answer<'_>, Mistake>) -> io::Result<()> {
    match answer {
        Ok(answer) => writeln!(out, "{answer}"),
        Err(mistake) => writeln!(out, "error {mistake}"),
    }
}

// A line that is not in UTF-8 is a mistake in the line. Any other error is one of the input.
fn run(rt: &HostRuntime) -> io::Result<()> {
    let heap = rt.alloc();
    let mut session = Session::new(heap);
    let mut out = BufWriter::new(heap, rt.stdout())?;
    for line in BufReader::new(heap, rt.stdin())?.lines(heap) {
        match line {
            Ok(line) if is_passed_over(line.as_str()) => {}
            Ok(line) => show(&mut out, session.answer(line.as_str()))?,
            Err(error) if error.kind() == ErrorKind::InvalidData => {
                show(&mut out, Err(Mistake::Text))?
            }
            Err(error) => return Err(error),
        }
    }
    out.flush()
}

fn main(rt: HostRuntime) -> io::Result<()> {
    run(&rt)
}
