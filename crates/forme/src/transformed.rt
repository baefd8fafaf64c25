//! A transformed glyf table becomes a forme.
ghost use Rattle.forme.specs.Formes.{unfitted};
ghost use Rattle.forme.specs.Unpacks.{AcceptsTheSpelled, Unpacked};
ghost use Rattle.std.specs.Prelude.{◌≡◌};

use crate::forme::Forme;
use glyph::{Lists, Refusal};
use unpack::read_table;

impl Forme {
    /// Unpacks a transformed glyf table. Accepted, the forme holds the glyphs that the table spells, unfitted. Refused,
    /// forme and lists are as found.
    pub fn unpack(&mut self, table: &[u8], lists: &mut Lists) -> Result<(), Refusal>
        ensures answer { Unpacked table.now self.old lists.old result self.new lists.new }
        ensures spelled { AcceptsTheSpelled table.now self.old lists.old result self.new lists.new }
    {
        unpack_into(self, table, lists)
    }
}

// Apart from `unpack`, since its proof needs answers: an edit of that one is then refused at its own place.
fn unpack_into(forme: &mut Forme, table: &[u8], lists: &mut Lists) -> Result<(), Refusal>
    ensures answer { Unpacked table.now forme.old lists.old result forme.new lists.new }
    ensures spelled { AcceptsTheSpelled table.now forme.old lists.old result forme.new lists.new }
{
    let glyphs = read_table(table, lists)?;
    *forme = Forme {
        glyphs: u32::from(glyphs),
        metrics: None,
    };
    Ok(())
}
