//! Steps from point to point, as a flag and the bytes behind it say them.
#![tactic(auto)]

ghost use Rattle.std.specs.Prelude.{◌≡◌, ◌%◌, ◌<◌, IsTrue, length};
ghost use Rattle.lut.specs.Rows.{row_of};
ghost use Rattle.lut.specs.Tested.{ruled};
ghost use Rattle.lut.specs.Triplets.{Triplet, WorkedRows};

use read::ReadCtxt;
use read::error::ParseError;

mod steps;
mod table;

use steps::steps;
pub use table::{COORD_LUT, XYTriplet};

/// The row of a flag. Its highest bit is not part of the row.
pub fn row(flag: u8) -> XYTriplet
    ensures { result ≡ row_of (flag % 128) }
{
    ruled_row(&COORD_LUT, usize::from(flag % 128))
}

// A row of a table that passes the test of the rule.
#[tactic(auto, using(crate::proofs::Rule::by_rule))]
fn ruled_row(table: &[XYTriplet], index: usize) -> XYTriplet
    requires { (index < length table.now) × (IsTrue (ruled 0 table.now)) }
    ensures { result ≡ row_of index }
{
    table[index]
}

/// Reads a pair of steps: as many bytes as the flag's row has.
pub fn read_steps(flag: u8, glyphs: &mut ReadCtxt<'_>) -> Result<(i16, i16), ParseError>
    ensures { Triplet (flag % 128) glyphs.old.rest.now result glyphs.new.rest.now }
{
    let row = row(flag);
    let bytes = glyphs.read_slice(usize::from(row.byte_count))?;
    steps(flag, row, bytes)
}

/// How many rows there are. Of four of them it is stated what they say: row 0 with 04, row 119 with FF FF, and the rows
/// 126 and 127 with 80 00 00 00.
pub fn worked_rows() -> u8
    ensures { (result ≡ 128) × (WorkedRows) }
{
    COORD_LUT.len() as u8
}
