// The rectangle on signed coordinates and the calls that a host makes on it, after embedded-graphics
// 0.8.2 `rectangle/mod.rs`; the Rust's bodies of `center`, `with_center`, `rows` and `columns` are in
// another crate. No call has a `requires`: out of limits it refuses by the lowest number.
#![tactic(auto)]

use geometry::{Point, Size, check_center, check_offset, check_position, check_size};
use geometry_range::Range;
use refusal::{Checked, Refusal};

pub mod bounded;

ghost use Rattle.std.specs.Prelude.{◌≡◌};
ghost use Rattle.refusal.specs.Refusal.{unless};
ghost use Rattle.geometry.specs.Checks.{position_check};
ghost use Rattle.rectangle.specs.Calls.{rectangle_check, rectangle_values, point_outcome, range_outcome, rectangle_outcome, center_call, rows_call, columns_call, with_center_call, offset_call};

#[derive(Clone, Copy)]
pub struct Rectangle {
    pub top_left: Point,
    pub size: Size,
}

// The rectangle, or refusal 3 of its position.
fn within_limits(rectangle: Rectangle) -> Result<Rectangle, Refusal>
    ensures { rectangle_outcome result ≡ unless (position_check rectangle.top_left) (rectangle_values rectangle) }
{
    check_position(rectangle.top_left)?;
    Ok(rectangle)
}

impl Rectangle {
    // Refusals 1 and 3.
    #[tactic(auto, unfolding(crate::specs::Calls::rectangle_check))]
    pub fn check(self) -> Checked
        ensures { result ≡ rectangle_check self }
    {
        check_size(self.size)?;
        check_position(self.top_left)
    }

    // Refused by 1 and 3.
    #[tactic(auto, using(crate::proofs::Checks::rectangle_bounded))]
    pub fn center(self) -> Result<Point, Refusal>
        ensures { point_outcome result ≡ center_call self }
    {
        self.check()?;
        Ok(bounded::center(self))
    }

    // Refused by 1, and by 3 for the rectangle that it makes.
    #[tactic(auto, using(crate::proofs::Checks::center_refused, geometry::proofs::Checks::size_passed, geometry::proofs::Checks::center_passed))]
    pub fn with_center(center: Point, size: Size) -> Result<Rectangle, Refusal>
        ensures { rectangle_outcome result ≡ with_center_call center size }
    {
        check_size(size)?;
        check_center(center)?;
        within_limits(bounded::with_center(center, size))
    }

    // Refused by 1 and 3.
    #[tactic(auto, using(crate::proofs::Checks::rectangle_bounded))]
    pub fn rows(self) -> Result<Range, Refusal>
        ensures { range_outcome result ≡ rows_call self }
    {
        self.check()?;
        Ok(bounded::rows(self))
    }

    // Refused by 1 and 3.
    #[tactic(auto, using(crate::proofs::Checks::rectangle_bounded))]
    pub fn columns(self) -> Result<Range, Refusal>
        ensures { range_outcome result ≡ columns_call self }
    {
        self.check()?;
        Ok(bounded::columns(self))
    }

    // Refused by 1, 3 and 5.
    #[tactic(auto, using(crate::proofs::Checks::rectangle_bounded, geometry::proofs::Checks::offset_passed, signed::proofs::Laws::int))]
    pub fn offset(self, k: i32) -> Result<Rectangle, Refusal>
        ensures { rectangle_outcome result ≡ offset_call self k }
    {
        self.check()?;
        check_offset(k)?;
        Ok(bounded::offset(self, k))
    }
}
