//! A transformed glyf table, taken apart into its streams.
ghost use Rattle.std.specs.Prelude.{◌≡◌, ◌+◌, ◌≤◌, length};
ghost use Rattle.woff2.specs.Transformed.{bitmap_size, cut, streams_end, Streams, TakenApart};

use crate::header::{GlyfHeader, Span};
use read::ReadScope;
use read::error::ParseError;

/// The streams of a transformed glyf table.
#[derive(Clone, Copy)]
pub struct TransformedGlyphTable<'a> {
    pub header: GlyfHeader,
    /// How many contours each glyph has.
    pub n_contour: ReadScope<'a>,
    /// How many points each contour has.
    pub n_points: ReadScope<'a>,
    /// A flag for each point.
    pub flags: ReadScope<'a>,
    /// Steps from point to point, and lengths of instructions.
    pub glyphs: ReadScope<'a>,
    pub composites: ReadScope<'a>,
    /// Which glyphs have a box of their own.
    pub bbox_bitmap: ReadScope<'a>,
    pub bboxes: ReadScope<'a>,
    pub instructions: ReadScope<'a>,
}

impl<'a> TransformedGlyphTable<'a> {
    /// Takes a table apart. What lies behind the last stream is ignored.
    pub fn read(data: &'a [u8]) -> Result<TransformedGlyphTable<'a>, ParseError>
        ensures { TakenApart «data».now result }
    {
        let header = GlyfHeader::read(data)?;
        header.check_streams(data.len())?;
        Ok(TransformedGlyphTable::cut(header, data))
    }

    #[tactic(auto, using(crate::proofs::Streams::cut_front, crate::proofs::Streams::cut_back))]
    fn cut(header: GlyfHeader, data: &'a [u8]) -> TransformedGlyphTable<'a>
        requires { (streams_end header ≤ length «data».now) × (bitmap_size header.num_glyphs ≤ header.bbox_size) }
        ensures { Streams header «data».now result }
    {
        let [
            contours,
            points,
            flags,
            glyphs,
            composites,
            boxes,
            instructions,
        ] = header.spans();
        let (bbox_bitmap, bboxes) = stream(data, boxes).split_at(header.bitmap_size());
        TransformedGlyphTable {
            header,
            n_contour: ReadScope::new(stream(data, contours)),
            n_points: ReadScope::new(stream(data, points)),
            flags: ReadScope::new(stream(data, flags)),
            glyphs: ReadScope::new(stream(data, glyphs)),
            composites: ReadScope::new(stream(data, composites)),
            bbox_bitmap: ReadScope::new(bbox_bitmap),
            bboxes: ReadScope::new(bboxes),
            instructions: ReadScope::new(stream(data, instructions)),
        }
    }
}

fn stream<'a>(data: &'a [u8], span: Span) -> &'a [u8]
    requires { span.place + span.size ≤ length «data».now }
    ensures { result.now ≡ cut span.place span.size «data».now }
{
    let place = span.place as usize;
    &data[place..place + span.size as usize]
}
