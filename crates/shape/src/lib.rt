// The shape of a figure: an ellipse, or a box whose radii are confined. Its rectangle, its test and its
// rows; where the Rust has traits and generics there is a match on the shape. After embedded-graphics
// 0.8.2 `ellipse/mod.rs`, `rounded_rectangle/mod.rs`. The functions are for callers that have made the
// checks; those that a host calls are in `figure`.
#![tactic(auto)]

use geometry::Point;
use geometry_range::Range;
use rectangle::Rectangle;
use rounded_rectangle::ConfinedBox;

pub mod box_rules;

ghost use Rattle.std.specs.Prelude.{◌≡◌};
ghost use Rattle.signed.specs.Signed.{Near};
ghost use Rattle.geometry.specs.Bounds.{wide_point, PointNear};
ghost use Rattle.scanline.specs.Points.{RowWithin};
ghost use Rattle.shape.specs.Bounds.{BoundedShape};
ghost use Rattle.shape.specs.Shape.{rectangle as shape_rectangle, contains_shape, row_of_shape};

// A figure whose radii are confined: what rows and tests go by.
#[derive(Clone, Copy)]
pub enum Shape {
    Ellipse(Rectangle),
    RoundedBox(ConfinedBox),
}

impl Shape {
    pub fn rectangle(self) -> Rectangle
        ensures { result ≡ shape_rectangle self }
    {
        match self {
            Shape::Ellipse(rectangle) => rectangle,
            Shape::RoundedBox(b) => b.rectangle,
        }
    }

    #[tactic(auto, using(crate::proofs::Within::area_bounded, crate::proofs::Within::area_box_bounded))]
    pub fn contains(self, point: Point) -> bool
        requires bounded_shape { BoundedShape self }
        requires point_near { PointNear wide_point point }
        ensures { result ≡ contains_shape self point }
    {
        match self {
            Shape::Ellipse(rectangle) => ellipse::contains(rectangle, point),
            Shape::RoundedBox(b) => b.contains(point),
        }
    }

    // The row at y.
    #[tactic(auto, using(crate::proofs::Within::area_bounded, crate::proofs::Within::area_box_bounded))]
    pub fn row(self, y: i32) -> Option<Range>
        requires bounded_shape { BoundedShape self }
        requires near { Near wide_point y }
        ensures { (result ≡ row_of_shape self y) × RowWithin (shape_rectangle self).top_left.x (shape_rectangle self).size.width result }
    {
        match self {
            Shape::Ellipse(rectangle) => ellipse_rows::row(rectangle, y),
            Shape::RoundedBox(b) => b.row(y),
        }
    }
}
