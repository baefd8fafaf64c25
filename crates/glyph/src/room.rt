//! Whether the lists have room.
ghost use Rattle.std.specs.Prelude.{◌≡◌};
ghost use Rattle.glyph.specs.Records.{places, room_for};

use crate::lists::Lists;
use crate::places::Places;

/// At most this many places of a list are used, however long it is.
pub const MOST_PLACES: usize = 16_777_216;

/// How many places of a list are used.
pub fn places_of<T>(list: &[T]) -> usize
    ensures { result ≡ places list.now }
{
    MOST_PLACES.min(list.len())
}

impl Lists {
    /// Whether the lists have places for so many glyphs and all that they need.
    pub fn have_room(&self, glyphs: u16, needed: Places) -> bool
        ensures { result ≡ room_for glyphs needed self.now }
    {
        usize::from(glyphs) <= places_of(&self.records)
            && needed.ends as usize <= places_of(&self.ends)
            && needed.points as usize <= places_of(&self.points)
            && needed.components as usize <= places_of(&self.components)
            && needed.instructions as usize <= places_of(&self.instructions)
    }
}
