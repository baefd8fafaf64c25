//! The commands.
use crate::mistake::Mistake;
use glyph_text::read_hex;
use room::Room;
use std::alloc::Global;

/// Lists longer than this are not made. It is twice as many places as a forme uses of a list.
const MOST_ROOM: u32 = 33_554_432;

#[derive(Drop)]
pub enum Command {
    Room(Room),
    Unpack(Vec<u8>),
    Strike,
    Glyphs,
    Glyph(usize),
    Lists,
}

impl Command {
    pub(crate) fn read(heap: Global, line: &str) -> Result<Command, Mistake> {
        let words = line.split_ascii_whitespace().collect::<Vec<&str>>(heap)?;
        Command::from_words(heap, words.as_slice())
    }

    fn from_words(heap: Global, words: &[&str]) -> Result<Command, Mistake> {
        match words {
            ["room", lengths @ ..] => Ok(Command::Room(room(lengths)?)),
            ["unpack", table] => Ok(Command::Unpack(read_hex(heap, table.as_bytes())?)),
            ["strike"] => Ok(Command::Strike),
            ["glyphs"] => Ok(Command::Glyphs),
            ["glyph", index] => Ok(Command::Glyph(number(index)? as usize)),
            ["lists"] => Ok(Command::Lists),
            [name, ..] => Err(misuse(name)),
            [] => Err(Mistake::Command),
        }
    }
}

// What is wrong with a command that none of the forms above fits.
fn misuse(name: &str) -> Mistake {
    match name {
        "unpack" | "strike" | "glyphs" | "glyph" | "lists" => Mistake::Arguments,
        "reread" | "fit" | "metrics" | "sink" | "put" | "zeros" | "issue" | "told" => {
            Mistake::Unsupported
        }
        _ => Mistake::Command,
    }
}

fn room(lengths: &[&str]) -> Result<Room, Mistake> {
    let [records, ends, points, components, instructions, full, tail] = lengths else {
        return Err(Mistake::Arguments);
    };
    Ok(Room {
        records: length(records)?,
        ends: length(ends)?,
        points: length(points)?,
        components: length(components)?,
        instructions: length(instructions)?,
        full: length(full)?,
        tail: length(tail)?,
    })
}

fn length(word: &str) -> Result<usize, Mistake> {
    let length = number(word)?;
    if length > MOST_ROOM {
        return Err(Mistake::Room);
    }
    Ok(length as usize)
}

// Digits alone: `parse` would take a sign too.
fn number(word: &str) -> Result<u32, Mistake> {
    if word.starts_with('+') {
        return Err(Mistake::Number);
    }
    word.parse::<u32>().map_err(|_| Mistake::Number)
}
