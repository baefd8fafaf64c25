//! The steps that a row and its bytes say.
ghost use Rattle.std.specs.Prelude.{◌≡◌, ◌≤◌, ◌%◌, length, Ok, Err, MatchBool};
ghost use Rattle.lut.specs.Rows.{number, row_of};
ghost use Rattle.lut.specs.Triplets.{bytes_in, group_of, step, step_fits, steps_said};
ghost use Rattle.read.specs.declared.error.ParseError.TheVariants.{BadValue};

use crate::table::XYTriplet;
use read::error::ParseError;

// A size with its sign, which a row has as a flag. The negation of 0 is 0, and 32768 is in range only as -32768.
fn signed(falls: bool, size: u32) -> Result<i16, ParseError>
    ensures { MatchBool (step_fits falls size) (result ≡ Ok (step falls size)) (result ≡ Err BadValue) }
{
    let size = i64::from(size);
    let step = if falls { -size } else { size };
    i16::try_from(step).map_err(|_| ParseError::BadValue)
}

// One to four bytes as one number, the highest first. With a fold in place of the match, `read_steps` took up to 1.8 times as long.
fn number_of(bytes: &[u8]) -> u32
    requires { (1 ≤ length bytes.now) × (length bytes.now ≤ 4) }
    ensures { result ≡ number bytes.now }
{
    match bytes.len() {
        1 => u32::from(bytes[0]),
        2 => u32::from_be_bytes([0, 0, bytes[0], bytes[1]]),
        3 => u32::from_be_bytes([0, bytes[0], bytes[1], bytes[2]]),
        _ => u32::from_be_bytes([bytes[0], bytes[1], bytes[2], bytes[3]]),
    }
}

// The steps that the bytes behind a flag say, by the flag's row.
pub(crate) fn steps(flag: u8, row: XYTriplet, bytes: &[u8]) -> Result<(i16, i16), ParseError>
    requires { (row ≡ row_of (flag % 128)) × (length bytes.now ≡ bytes_in (group_of (flag % 128))) }
    ensures { result ≡ steps_said (flag % 128) bytes.now }
{
    let data = number_of(bytes);
    let x = (data >> row.y_bits) % (1 << row.x_bits) + u32::from(row.delta_x);
    let y = data % (1 << row.y_bits) + u32::from(row.delta_y);
    let dx = signed(row.x_is_negative, x)?;
    let dy = signed(row.y_is_negative, y)?;
    Ok((dx, dy))
}
