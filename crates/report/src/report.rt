//! The facts of a report.
ghost use Rattle.std.specs.Prelude.{◌≡◌, ◌<◌, length, MatchResult};
ghost use Rattle.write.specs.declared.error.WriteError.TheVariants.{NoSpace};
ghost use Rattle.report.specs.Reports.{Reported};

use read::error::ParseError;
use woff2::GlyfHeader;
use write::error::WriteError;
use write::{WriteChecksum, WriteContext, WriteCounter};

/// What can be told of a table before its glyphs are read.
#[derive(Drop)]
pub struct Report {
    /// How many bytes the table has.
    pub bytes: usize,
    pub checksum: u32,
    pub header: Result<GlyfHeader, ParseError>,
    /// Whether the streams lie inside the table. Those of a table whose header cannot be read share its fault.
    pub streams: Result<(), ParseError>,
}

impl Report {
    /// Reports on a table, or refuses one of more than 4294967295 bytes.
    pub fn new(data: &[u8]) -> Result<Report, WriteError>
        ensures { MatchResult result (λ t. Reported «data».now t) (λ e. (e ≡ NoSpace) × (4294967295 < length «data».now)) }
    {
        let mut counter = WriteCounter::new();
        counter.write_bytes(data)?;
        let mut summed = WriteChecksum::new();
        summed.write_bytes(data)?;
        let header = GlyfHeader::read(data);
        Ok(Report {
            bytes: counter.bytes_written(),
            checksum: summed.sum(),
            header,
            streams: header.and_then(|header| header.check_streams(data.len())),
        })
    }
}
