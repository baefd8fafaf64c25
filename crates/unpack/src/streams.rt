//! The streams of a table as they are read.
ghost use Rattle.std.specs.Prelude.{◌≡◌, ◌^◌, ◌<◌, length};
ghost use Rattle.unpack.specs.Runs.{table_streams};

use crate::sound::SoundTable;
use read::ReadCtxt;

/// What is left to read of each stream.
// A cursor beside each scope of the table, which stays whole: both walks begin from it.
#[derive(Clone, Copy)]
pub(crate) struct Streams<'a> {
    pub(crate) contours: ReadCtxt<'a>,
    pub(crate) points: ReadCtxt<'a>,
    pub(crate) flags: ReadCtxt<'a>,
    pub(crate) glyphs: ReadCtxt<'a>,
    pub(crate) composites: ReadCtxt<'a>,
    pub(crate) boxes: ReadCtxt<'a>,
    pub(crate) instructions: ReadCtxt<'a>,
    ghost composites_fit: { length composites.rest.now < 2 ^ 32 },
}

impl<'a> Streams<'a> {
    // Not at the top: a struct with a ghost field imports each `ghost use` from there, and `Cursors` names this struct.
    ghost use Rattle.unpack.specs.Cursors.{left};

    /// The streams of a table, before anything is read.
    pub(crate) fn new(sound: &SoundTable<'a>) -> Streams<'a>
        ensures { left result ≡ table_streams sound.now.table }
    {
        Streams {
            contours: sound.table.n_contour.ctxt(),
            points: sound.table.n_points.ctxt(),
            flags: sound.table.flags.ctxt(),
            glyphs: sound.table.glyphs.ctxt(),
            composites: sound.table.composites.ctxt(),
            boxes: sound.table.bboxes.ctxt(),
            instructions: sound.table.instructions.ctxt(),
        }
    }
}
