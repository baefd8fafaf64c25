//! The header of a transformed glyf table.
ghost use Rattle.std.specs.Prelude.{◌≡◌, ◌^◌, ◌<◌, length, Some, None, Ok, Err, MatchBool, MatchResult, nat_le};
ghost use Rattle.read.specs.declared.error.ParseError.TheVariants.{BadEof};
ghost use Rattle.woff2.specs.Transformed.{bitmap_size, boxes_at, header_said, spans_of, streams_fault, WorkedBitmaps};

use binary::{U16Be, U32Be};
use read::error::ParseError;
use read::{ReadCtxt, ReadScope};

/// How many glyphs there are, the format of loca, and the size of each stream in bytes.
#[derive(Clone, Copy)]
pub struct GlyfHeader {
    pub num_glyphs: u16,
    /// 0 for short and 1 for long. Any other number may stand here and is told as it is, so this is no enum.
    pub index_format: u16,
    pub n_contour_size: u32,
    pub n_points_size: u32,
    pub flag_size: u32,
    pub glyph_size: u32,
    pub composite_size: u32,
    pub bbox_size: u32,
    pub instruction_size: u32,
}

/// Where a stream begins in its table, and how many bytes it has.
// Not glyph's Part: its place has 64 bits, since the sizes in a header may add up to more than any list has.
#[derive(Clone, Copy)]
pub struct Span {
    pub place: u64,
    pub size: u32,
}

impl GlyfHeader {
    /// The header of the table that `data` holds.
    pub fn read(data: &[u8]) -> Result<GlyfHeader, ParseError>
        ensures { MatchBool (nat_le 36 (length «data».now)) (result ≡ Ok (header_said «data».now)) (result ≡ Err BadEof) }
    {
        // Tested at once, so that the compiler can leave out the tests of the reads below.
        if data.len() < 36 {
            return Err(ParseError::BadEof);
        }
        GlyfHeader::read_fields(&mut ReadScope::new(data).ctxt())
    }

    // Apart from `read`: its contract speaks of the cursor.
    fn read_fields(ctxt: &mut ReadCtxt<'_>) -> Result<GlyfHeader, ParseError>
        ensures { MatchBool (nat_le 36 (length ctxt.old.rest.now)) (result ≡ Ok (header_said ctxt.old.rest.now)) (result ≡ Err BadEof) }
    {
        let _reserved = ctxt.read::<U32Be>()?;
        Ok(GlyfHeader {
            num_glyphs: ctxt.read::<U16Be>()?,
            index_format: ctxt.read::<U16Be>()?,
            n_contour_size: ctxt.read::<U32Be>()?,
            n_points_size: ctxt.read::<U32Be>()?,
            flag_size: ctxt.read::<U32Be>()?,
            glyph_size: ctxt.read::<U32Be>()?,
            composite_size: ctxt.read::<U32Be>()?,
            bbox_size: ctxt.read::<U32Be>()?,
            instruction_size: ctxt.read::<U32Be>()?,
        })
    }

    /// The size of the bitmap with which the stream of boxes begins.
    pub fn bitmap_size(&self) -> usize
        ensures size { result ≡ bitmap_size self.now.num_glyphs }
        ensures worked { WorkedBitmaps }
    {
        4 * ((usize::from(self.num_glyphs) + 31) / 32)
    }

    // Where the stream of boxes begins.
    fn boxes_at(&self) -> u64
        ensures { (result ≡ boxes_at self.now) × (result < 2 ^ 35) }
    {
        36 + u64::from(self.n_contour_size)
            + u64::from(self.n_points_size)
            + u64::from(self.flag_size)
            + u64::from(self.glyph_size)
            + u64::from(self.composite_size)
    }

    /// Whether the streams lie inside a table of `len` bytes, and the bitmap inside the boxes.
    pub fn check_streams(&self, len: usize) -> Result<(), ParseError>
        ensures { MatchResult result (λ _. streams_fault self.now len ≡ None) (λ e. streams_fault self.now len ≡ Some e) }
    {
        let boxes = self.boxes_at();
        let bitmap_size = self.bitmap_size();
        let len = len as u64;
        if len < boxes + bitmap_size as u64 {
            return Err(ParseError::BadEof);
        }
        if (self.bbox_size as usize) < bitmap_size {
            return Err(ParseError::BadValue);
        }
        if len < boxes + u64::from(self.bbox_size) + u64::from(self.instruction_size) {
            return Err(ParseError::BadEof);
        }
        Ok(())
    }

    /// The seven streams, in their order: contours, point counts, flags, glyph data, components,
    /// boxes, instructions.
    pub fn spans(&self) -> [Span; 7]
        ensures { result ≡ spans_of self.now }
    {
        // Written out: a closure over the sizes that adds them up would leave its contract to be stated.
        let points = 36 + u64::from(self.n_contour_size);
        let flags = points + u64::from(self.n_points_size);
        let glyphs = flags + u64::from(self.flag_size);
        let composites = glyphs + u64::from(self.glyph_size);
        let boxes = self.boxes_at();
        let instructions = boxes + u64::from(self.bbox_size);
        [
            Span {
                place: 36,
                size: self.n_contour_size,
            },
            Span {
                place: points,
                size: self.n_points_size,
            },
            Span {
                place: flags,
                size: self.flag_size,
            },
            Span {
                place: glyphs,
                size: self.glyph_size,
            },
            Span {
                place: composites,
                size: self.composite_size,
            },
            Span {
                place: boxes,
                size: self.bbox_size,
            },
            Span {
                place: instructions,
                size: self.instruction_size,
            },
        ]
    }
}
