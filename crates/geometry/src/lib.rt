// Points and sizes on signed coordinates, and the checks of them and of an offset against the limits
// of the library, after embedded-graphics 0.8.2 `geometry`. The Rust's bodies of `Point` and `Size`
// are in another crate.
#![tactic(auto)]

ghost use Rattle.std.specs.Prelude.{◌≡◌};
ghost use Rattle.geometry.specs.Checks.{size_check, position_check, center_check, asked_check, point_check, offset_check};

use refusal::{Checked, Refusal, refuse_above, refuse_beyond};

#[derive(Clone, Copy)]
pub struct Point {
    pub x: i32,
    pub y: i32,
}

impl Point {
    // The largest distance from 0 of a coordinate that is asked for (refusal 4).
    pub const MAX_ASKED: u32 = 8192;
    // The largest distance of a rectangle's x and y from 0 (refusal 3).
    pub const MAX_POSITION: u32 = 4096;
}

#[derive(Clone, Copy)]
pub struct Size {
    pub width: u32,
    pub height: u32,
}

impl Size {
    // The furthest offset of sides, on either side of 0 (refusal 5).
    pub const MAX_OFFSET: u32 = 256;

    // The largest side of a rectangle (refusal 1).
    pub const MAX_SIDE: u32 = 1024;
}

// Refusal 1 of a size.
#[tactic(auto, unfolding(crate::specs::Checks::size_check))]
pub fn check_size(size: Size) -> Checked
    ensures { result ≡ size_check size }
{
    refuse_above(Size::MAX_SIDE, size.width, Refusal::Side)?;
    refuse_above(Size::MAX_SIDE, size.height, Refusal::Side)
}

// Refusal 3 of a rectangle's position.
#[tactic(auto, unfolding(crate::specs::Checks::position_check))]
pub fn check_position(top_left: Point) -> Checked
    ensures { result ≡ position_check top_left }
{
    refuse_beyond(Point::MAX_POSITION, top_left.x, Refusal::Position)?;
    refuse_beyond(Point::MAX_POSITION, top_left.y, Refusal::Position)
}

// Refusal 4 of an asked row, and of an asked point.
pub fn check_row(y: i32) -> Checked
    ensures { result ≡ asked_check y }
{
    refuse_beyond(Point::MAX_ASKED, y, Refusal::Asked)
}

#[tactic(auto, unfolding(crate::specs::Checks::point_check))]
pub fn check_point(point: Point) -> Checked
    ensures { result ≡ point_check point }
{
    check_row(point.x)?;
    check_row(point.y)
}

// Refusal 5 of an offset.
pub fn check_offset(k: i32) -> Checked
    ensures { result ≡ offset_check k }
{
    refuse_beyond(Size::MAX_OFFSET, k, Refusal::Offset)
}

// Refusal 3 of a centre so far out that it is the centre of no rectangle within limits.
#[tactic(auto, unfolding(crate::specs::Checks::center_check))]
pub fn check_center(center: Point) -> Checked
    ensures { result ≡ center_check center }
{
    let furthest = Point::MAX_POSITION + Size::MAX_SIDE;
    refuse_beyond(furthest, center.x, Refusal::Position)?;
    refuse_beyond(furthest, center.y, Refusal::Position)
}
