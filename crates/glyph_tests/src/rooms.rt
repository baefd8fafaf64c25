//! Room in the lists.
use glyph::Places;
use room::Room;
use std::alloc::Global;
use std::test::Fail;

fn needed(instructions: u32) -> Places {
    Places {
        ends: 1,
        points: 2,
        components: 3,
        instructions,
    }
}

fn room(instructions: usize) -> Room {
    Room {
        records: 1,
        ends: 1,
        points: 2,
        components: 3,
        instructions,
        full: 0,
        tail: 0,
    }
}

fn has_room(heap: Global, room: Room, glyphs: u16, instructions: u32) -> Result<bool, Fail> {
    let lists = room.lists(heap)?;
    Ok(lists.have_room(glyphs, needed(instructions)))
}

#[test]
fn lists_that_just_suffice(rt: HostRuntime) -> Result<(), Fail> {
    assert!(rt; has_room(rt.alloc(), room(4), 1, 4)?);
    assert!(rt; !has_room(rt.alloc(), room(4), 2, 4)?);
    assert!(rt; !has_room(rt.alloc(), room(3), 1, 4)?);
    Ok(())
}

#[test]
fn more_places_than_count_are_no_room(rt: HostRuntime) -> Result<(), Fail> {
    assert!(rt; has_room(rt.alloc(), room(16_777_217), 1, 16_777_216)?);
    assert!(rt; !has_room(rt.alloc(), room(16_777_217), 1, 16_777_217)?);
    Ok(())
}
