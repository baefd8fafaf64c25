//! The glyphs of a face as text.
use crate::summary::{Kinds, Summary};
use forme::Forme;
use glyph::Lists;
use glyph_text::GlyphText;
use std::fmt;

/// A face: a line for each glyph, and a summary.
#[derive(Drop)]
pub struct Face<'a> {
    pub forme: &'a Forme,
    pub lists: &'a Lists,
}

impl fmt::Display for Face<'_> {
    fn fmt<W: fmt::Write>(&self, f: &mut fmt::Formatter<W>) -> fmt::Result {
        // By number, which is shown, and which the forme is asked for.
        for i in 0..self.forme.num_glyphs() {
            match self.forme.glyph(i, self.lists) {
                Some(view) => writeln!(f, "glyph {i}: {}", GlyphText(view))?,
                None => writeln!(f, "glyph {i}: absent")?,
            }
        }
        show_summary(Summary::new(self.forme, self.lists), f)
    }
}

// Glyphs lie in the lists without gaps, so the least lists have just as many places as the glyphs take.
fn show_summary<W: fmt::Write>(summary: Summary, f: &mut fmt::Formatter<W>) -> fmt::Result {
    let Summary {
        kinds: Kinds {
            empty,
            simple,
            composite,
        },
        ends,
        points,
        components,
        instructions,
    } = summary;
    let records = u128::from(empty) + u128::from(simple) + u128::from(composite);
    writeln!(
        f,
        "kinds           {empty} empty, {simple} simple, {composite} composite"
    )?;
    writeln!(
        f,
        "contents        {points} points, {components} components, {instructions} instruction bytes"
    )?;
    writeln!(
        f,
        "least lists     {records} records, {ends} ends, {points} points, {components} components, {instructions} instruction bytes"
    )
}
