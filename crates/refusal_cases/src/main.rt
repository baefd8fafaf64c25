//! Refusals in words.
#![tactic(auto)]

use glyph::{Cause, NO_GLYPH, Refusal};
use listing::RefusalText;
use read::error::ParseError;
use std::io;

fn show_refusal(rt: &impl Print, cause: Cause, glyph: u16) -> io::Result<()> {
    let refusal = RefusalText(Refusal { cause, glyph });
    println!(rt; "{refusal}")
}

fn main(rt: HostRuntime) -> io::Result<()> {
    println!(&rt; "# refusals")?;
    show_refusal(&rt, Cause::Parse(ParseError::BadEof), NO_GLYPH)?;
    show_refusal(&rt, Cause::Parse(ParseError::BadEof), 0)?;
    show_refusal(&rt, Cause::Parse(ParseError::BadValue), 1)?;
    show_refusal(&rt, Cause::Parse(ParseError::BadIndex), 65534)?;
    show_refusal(&rt, Cause::Lists, NO_GLYPH)
}
