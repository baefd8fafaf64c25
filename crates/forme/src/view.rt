//! Questions about a glyph.
ghost use Rattle.std.specs.Prelude.{◌≡◌, List};
ghost use Rattle.forme.specs.Held.{Holds, ShowsGlyph};
ghost use Rattle.forme.specs.Views.{Asked};
ghost use Rattle.glyph.specs.Glyphs.{Glyph};

use crate::forme::Forme;
use glyph::{GlyphView, Lists};

// Apart from `Forme::glyph`: tried as one function, and the proof did not close.
fn look_up<'a>(forme: &Forme, index: usize, lists: &'a Lists) -> Option<GlyphView<'a>>
    ensures { Asked forme.now lists.now index result }
{
    if index >= forme.glyphs as usize {
        return None;
    }
    lists.records.get(index)?.view(lists)
}

impl Forme {
    /// Glyph `index`, or `None` when it is absent: the forme has no such glyph, or its places lie outside the lists.
    #[tactic(auto, using(crate::proofs::Showing::shows_glyph))]
    pub fn glyph<'a>(&self, index: usize, lists: &'a Lists) -> Option<GlyphView<'a>>
        ensures answer { Asked self.now lists.now index result }
        ensures shows { (gs : List Glyph) → Holds self.now lists.now gs → ShowsGlyph gs index result }
    {
        look_up(self, index, lists)
    }
}
