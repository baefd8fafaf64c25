//! A report as text.
use crate::report::Report;
use read::error::ParseError;
use std::fmt;
use woff2::GlyfHeader;

// In the order of `GlyfHeader::spans`.
const STREAMS: [&str; 7] = [
    "contours",
    "point counts",
    "flags",
    "glyph data",
    "components",
    "boxes",
    "instructions",
];

impl fmt::Display for Report {
    fn fmt<W: fmt::Write>(&self, f: &mut fmt::Formatter<W>) -> fmt::Result {
        writeln!(f, "bytes           {}", self.bytes)?;
        writeln!(f, "checksum        {:08x}", self.checksum)?;
        match &self.header {
            Ok(header) => {
                show_header(header, f)?;
                show_verdict(self, header, f)
            }
            Err(error) => {
                writeln!(
                    f,
                    "refused         {}: the header has 36 bytes, and the table has only {}",
                    error.number(),
                    self.bytes
                )
            }
        }
    }
}

fn show_header<W: fmt::Write>(header: &GlyfHeader, f: &mut fmt::Formatter<W>) -> fmt::Result {
    writeln!(f, "glyphs          {}", header.num_glyphs)?;
    show_format(header.index_format, f)?;
    for (name, span) in STREAMS.iter().zip(header.spans()) {
        writeln!(f, "{name:<15} place {} size {}", span.place, span.size)?;
    }
    writeln!(f, "box bitmap      size {}", header.bitmap_size())
}

fn show_format<W: fmt::Write>(format: u16, f: &mut fmt::Formatter<W>) -> fmt::Result {
    match format {
        0 => writeln!(f, "index format    0 (short)"),
        1 => writeln!(f, "index format    1 (long)"),
        other => writeln!(f, "index format    {other} (neither short nor long)"),
    }
}

fn show_verdict<W: fmt::Write>(
    report: &Report,
    header: &GlyfHeader,
    f: &mut fmt::Formatter<W>,
) -> fmt::Result {
    match report.streams {
        Ok(()) => writeln!(f, "streams         all inside the table"),
        Err(error) => {
            write!(f, "refused         {}: ", error.number())?;
            show_fault(error, report.bytes, header, f)
        }
    }
}

fn show_fault<W: fmt::Write>(
    error: ParseError,
    bytes: usize,
    header: &GlyfHeader,
    f: &mut fmt::Formatter<W>,
) -> fmt::Result {
    match error {
        ParseError::BadValue => {
            writeln!(
                f,
                "the boxes have {} bytes, and their bitmap alone needs {}",
                header.bbox_size,
                header.bitmap_size()
            )
        }
        _ => {
            writeln!(
                f,
                "the streams end at {}, and the table has only {bytes} bytes: it was cut short, or a size in its header is wrong",
                streams_end(header)
            )
        }
    }
}

// Behind the last stream, or behind the bitmap where the boxes are shorter than that.
fn streams_end(header: &GlyfHeader) -> u64 {
    let [.., boxes, last] = header.spans();
    let behind_bitmap = boxes.place.saturating_add(header.bitmap_size() as u64);
    last.place
        .saturating_add(u64::from(last.size))
        .max(behind_bitmap)
}
