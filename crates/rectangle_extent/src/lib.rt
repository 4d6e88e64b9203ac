// Where a size lies that stands at a point: its centre, its rows and its columns, and the point that
// it stands at about a centre, after embedded-graphics 0.8.2 `rectangle/mod.rs`. `rectangle` keeps point
// and size together. Each promise says both axes, or both ends.
#![tactic(auto)]

ghost use Rattle.std.specs.Prelude.{◌≡◌, ◌*◌, pos, ◌+ℤ◌, ◌-ℤ◌};
ghost use Rattle.rectangle_side.specs.Side.{center_term};
ghost use Rattle.geometry.specs.Bounds.{wide_side, wide_point, PointNear, SizeUpTo};

use geometry::{Point, Size};
use geometry_range::Range;
use rectangle_side::center_term;

// The centre.
pub fn center(top_left: Point, size: Size) -> Point
    requires point_near { PointNear wide_point top_left }
    requires size_up_to { SizeUpTo wide_side size }
    ensures x_value { result.x ≡ top_left.x +ℤ pos (center_term size.width) }
    ensures y_value { result.y ≡ top_left.y +ℤ pos (center_term size.height) }
{
    Point {
        x: signed::add(top_left.x, signed::from_u32(center_term(size.width))),
        y: signed::add(top_left.y, signed::from_u32(center_term(size.height))),
    }
}

// The top-left point of a size about a centre.
pub fn top_left_about(center: Point, size: Size) -> Point
    requires point_near { PointNear (2 * wide_point) center }
    requires size_up_to { SizeUpTo (4 * wide_side) size }
    ensures x_value { result.x ≡ center.x -ℤ pos (center_term size.width) }
    ensures y_value { result.y ≡ center.y -ℤ pos (center_term size.height) }
{
    Point {
        x: signed::sub(center.x, signed::from_u32(center_term(size.width))),
        y: signed::sub(center.y, signed::from_u32(center_term(size.height))),
    }
}

// The rows, from the first to the one after the last.
pub fn rows(top_left: Point, size: Size) -> Range
    requires point_near { PointNear wide_point top_left }
    requires size_up_to { SizeUpTo wide_side size }
    ensures start_value { result.start ≡ top_left.y }
    ensures end_value { result.end ≡ top_left.y +ℤ pos size.height }
{
    Range {
        start: top_left.y,
        end: signed::add(top_left.y, signed::from_u32(size.height)),
    }
}

// The columns, from the first to the one after the last.
pub fn columns(top_left: Point, size: Size) -> Range
    requires point_near { PointNear wide_point top_left }
    requires size_up_to { SizeUpTo wide_side size }
    ensures start_value { result.start ≡ top_left.x }
    ensures end_value { result.end ≡ top_left.x +ℤ pos size.width }
{
    Range {
        start: top_left.x,
        end: signed::add(top_left.x, signed::from_u32(size.width)),
    }
}
