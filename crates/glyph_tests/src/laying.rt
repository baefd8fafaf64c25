//! Values laid into lists.
use glyph::{lay, lay_all};

#[test]
fn a_value_past_the_end_is_left_out(rt: HostRuntime) {
    let mut list = [1u8, 2, 3];
    lay(&mut list, 2, 9);
    lay(&mut list, 3, 7);
    assert!(rt; list[0] == 1 && list[1] == 2 && list[2] == 9);
}

#[test]
fn values_are_cut_at_the_end(rt: HostRuntime) {
    let mut list = [1u8, 2, 3];
    lay_all(&mut list, 1, &[7, 8, 9]);
    assert!(rt; list[0] == 1 && list[1] == 7 && list[2] == 8);
    lay_all(&mut list, usize::MAX, &[5, 5]);
    assert!(rt; list[0] == 1 && list[1] == 7 && list[2] == 8);
}
