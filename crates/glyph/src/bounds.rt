//! The box around points.
ghost use Rattle.glyph.specs.Bounds.{bounds, box_at, grown};
ghost use Rattle.std.specs.Prelude.{◌≡◌, fold};

use crate::lists::Point;
use binary::BoundingBox;

/// The least and greatest x and y over all points, on curve or off.
pub fn bounding_box(points: &[Point]) -> BoundingBox
    ensures { result ≡ bounds points.now }
{
    let [first, ..] = points else {
        return BoundingBox::default();
    };
    around(points, *first)
}

fn around(points: &[Point], first: Point) -> BoundingBox
    ensures { result ≡ fold grown (box_at first) points.now }
{
    let mut bbox = BoundingBox {
        x_min: first.x,
        y_min: first.y,
        x_max: first.x,
        y_max: first.y,
    };
    // A loop, beside which the definition can be read step by step: a rule of the project.
    for point in points {
        bbox = grow(bbox, *point);
    }
    bbox
}

fn grow(bbox: BoundingBox, point: Point) -> BoundingBox
    ensures { result ≡ grown bbox point }
{
    BoundingBox {
        x_min: bbox.x_min.min(point.x),
        y_min: bbox.y_min.min(point.y),
        x_max: bbox.x_max.max(point.x),
        y_max: bbox.y_max.max(point.y),
    }
}
