//! A forme and its lists, under commands.
use crate::answer::Answer;
use crate::command::Command;
use crate::mistake::Mistake;
use forme::Forme;
use glyph::Lists;
use std::alloc::Global;

#[derive(Drop)]
pub struct Session {
    heap: Global,
    forme: Forme,
    lists: Lists,
}

impl Session {
    /// A new forme over lists without places.
    pub(crate) fn new(heap: Global) -> Session {
        Session {
            heap,
            forme: Forme::new(),
            // Made one by one, which cannot fail.
            lists: Lists {
                records: Vec::new(heap),
                ends: Vec::new(heap),
                points: Vec::new(heap),
                components: Vec::new(heap),
                instructions: Vec::new(heap),
                full: Vec::new(heap),
                tail: Vec::new(heap),
            },
        }
    }

    /// Follows the command in a line. A line with a mistake changes nothing.
    pub(crate) fn answer<'a>(&'a mut self, line: &str) -> Result<Answer<'a>, Mistake> {
        match Command::read(self.heap, line)? {
            Command::Room(room) => {
                self.lists = room.lists(self.heap)?;
                self.forme = Forme::new();
                Ok(Answer::Done)
            }
            Command::Unpack(table) => Ok(self.unpack(table.as_slice())),
            Command::Strike => {
                self.forme.strike();
                Ok(Answer::Done)
            }
            Command::Glyphs => Ok(Answer::Glyphs(&self.forme, &self.lists)),
            Command::Glyph(index) => Ok(Answer::Glyph(self.forme.glyph(index, &self.lists))),
            Command::Lists => Ok(Answer::Lists(&self.lists)),
        }
    }

    fn unpack<'a>(&'a mut self, table: &[u8]) -> Answer<'a> {
        match self.forme.unpack(table, &mut self.lists) {
            Ok(()) => Answer::Counted(self.forme.num_glyphs()),
            Err(refusal) => Answer::Refused(refusal),
        }
    }
}
