// The operations on rectangles for callers that have tested the limits: each takes what `Bounds`
// allows, which is more than the limits do, so that a stroke area passes too. After
// embedded-graphics 0.8.2 `rectangle/mod.rs` (`OffsetOutline`); the sums are in `extent`.
ghost use Rattle.std.specs.Prelude.{◌≡◌, ◌*◌};
ghost use Rattle.signed.specs.Signed.{Near};
ghost use Rattle.geometry.specs.Bounds.{wide_side, wide_point, PointNear, SizeUpTo};
ghost use Rattle.rectangle.specs.Bounds.{Bounded};
ghost use Rattle.rectangle.specs.Rectangle.{center as rectangle_center, with_center, rows as rectangle_rows, columns as rectangle_columns, offset as rectangle_offset};

use crate::Rectangle;
use geometry::{Point, Size};
use geometry_range::Range;
use rectangle_side::offset_side;

pub fn center(rectangle: Rectangle) -> Point
    requires { Bounded rectangle }
    ensures { result ≡ rectangle_center rectangle }
{
    rectangle_extent::center(rectangle.top_left, rectangle.size)
}

pub fn with_center(center: Point, size: Size) -> Rectangle
    requires point_near { PointNear (2 * wide_point) center }
    requires size_up_to { SizeUpTo (4 * wide_side) size }
    ensures { result ≡ with_center center size }
{
    Rectangle {
        top_left: rectangle_extent::top_left_about(center, size),
        size: size,
    }
}

pub fn rows(rectangle: Rectangle) -> Range
    requires { Bounded rectangle }
    ensures { result ≡ rectangle_rows rectangle }
{
    rectangle_extent::rows(rectangle.top_left, rectangle.size)
}

pub fn columns(rectangle: Rectangle) -> Range
    requires { Bounded rectangle }
    ensures { result ≡ rectangle_columns rectangle }
{
    rectangle_extent::columns(rectangle.top_left, rectangle.size)
}

pub fn offset(rectangle: Rectangle, k: i32) -> Rectangle
    requires bounded { Bounded rectangle }
    requires near { Near wide_side k }
    ensures { result ≡ rectangle_offset rectangle k }
{
    let size = rectangle.size;
    let grown = Size {
        width: offset_side(size.width, k),
        height: offset_side(size.height, k),
    };
    with_center(center(rectangle), grown)
}
