//! The answers to commands.
use forme::{Forme, GlyphView};
use glyph::{Lists, Refusal};
use glyph_text::{GlyphText, Hex, Listed};
use std::fmt;

#[derive(Drop)]
pub enum Answer<'a> {
    Done,
    Counted(usize),
    /// All glyphs of a forme in its lists. `show_glyphs` alone takes the two apart, so a struct of them would be no plainer.
    Glyphs(&'a Forme, &'a Lists),
    Glyph(Option<GlyphView<'a>>),
    Lists(&'a Lists),
    /// A call that was refused has been answered: nothing was wrong with the line.
    Refused(Refusal),
}

// Without the end of the last line.
impl fmt::Display for Answer<'_> {
    fn fmt<W: fmt::Write>(&self, f: &mut fmt::Formatter<W>) -> fmt::Result {
        match self {
            Answer::Done => f.write_str("ok"),
            Answer::Counted(count) => write!(f, "ok {count}"),
            Answer::Glyphs(forme, lists) => show_glyphs(forme, lists, f),
            Answer::Glyph(Some(view)) => write!(f, "ok 1\n{}", GlyphText(*view)),
            Answer::Glyph(None) => f.write_str("absent"),
            Answer::Lists(lists) => show_lists(lists, f),
            Answer::Refused(refusal) => {
                write!(f, "refused {} {}", refusal.cause.number(), refusal.glyph)
            }
        }
    }
}

fn show_glyphs<W: fmt::Write>(
    forme: &Forme,
    lists: &Lists,
    f: &mut fmt::Formatter<W>,
) -> fmt::Result {
    let count = forme.num_glyphs();
    write!(f, "ok {count}")?;
    // By number, which the forme is asked for.
    for i in 0..count {
        match forme.glyph(i, lists) {
            Some(view) => write!(f, "\n{}", GlyphText(view))?,
            None => f.write_str("\nabsent")?,
        }
    }
    Ok(())
}

fn show_lists<W: fmt::Write>(lists: &Lists, f: &mut fmt::Formatter<W>) -> fmt::Result {
    writeln!(f, "ok 6")?;
    writeln!(f, "ends {}", Listed(lists.ends.as_slice()))?;
    writeln!(f, "points {}", Listed(lists.points.as_slice()))?;
    writeln!(f, "components {}", Listed(lists.components.as_slice()))?;
    writeln!(f, "instructions {}", Hex(lists.instructions.as_slice()))?;
    writeln!(f, "full {}", Listed(lists.full.as_slice()))?;
    write!(f, "tail {}", Listed(lists.tail.as_slice()))
}
