//! Parts of a list.
ghost use Rattle.glyph.specs.Parts.{end, held, inside};
ghost use Rattle.std.specs.Prelude.{◌≡◌, None, MatchBool, MatchOption};

use crate::lists::Part;

impl Part {
    /// The first place behind this part.
    pub fn end(self) -> usize
        ensures { result ≡ end self }
    {
        self.start as usize + self.len as usize
    }

    /// This part of a list, if it lies inside.
    pub fn of<'a, T>(self, list: &'a [T]) -> Option<&'a [T]>
        ensures { MatchBool (inside self list.now) (MatchOption result ⊥ (λ s. s.now ≡ held self list.now)) (result ≡ None) }
    {
        list.get(self.start as usize..self.end())
    }
}
