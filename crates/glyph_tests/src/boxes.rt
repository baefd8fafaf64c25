//! Boxes around points.
use glyph::{Point, bounding_box};

fn point(x: i16, y: i16, on_curve: bool) -> Point {
    Point { x, y, on_curve }
}

#[test]
fn a_box_counts_points_off_the_curve(rt: HostRuntime) {
    let bbox = bounding_box(&[point(-1, -4, true), point(9, -7, false), point(5, 2, true)]);
    assert!(rt; bbox.x_min == -1 && bbox.y_min == -7 && bbox.x_max == 9 && bbox.y_max == 2);
}

#[test]
fn a_box_reaches_the_limits(rt: HostRuntime) {
    let bbox = bounding_box(&[point(-32768, 32767, true), point(32767, -32768, false)]);
    assert!(rt;
        bbox.x_min == -32768 && bbox.y_min == -32768 && bbox.x_max == 32767 && bbox.y_max == 32767
    );
}

#[test]
fn one_point_is_its_own_box(rt: HostRuntime) {
    let bbox = bounding_box(&[point(3, -4, false)]);
    assert!(rt; bbox.x_min == 3 && bbox.y_min == -4 && bbox.x_max == 3 && bbox.y_max == -4);
    let none = bounding_box(&[]);
    assert!(rt; none.x_min == 0 && none.y_min == 0 && none.x_max == 0 && none.y_max == 0);
}
