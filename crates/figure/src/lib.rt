// Figures: an ellipse, a crate box or a W3C box. Where the Rust has traits and generics there is a
// match on the figure. After embedded-graphics 0.8.2 `ellipse/mod.rs`, `rounded_rectangle/mod.rs`
// (`OffsetOutline`, `confine_radii`); the W3C box is not in the source. The functions of this file
// are for callers that have made the checks; those that a host calls are in calls.rt. The shape that
// rows and tests go by is in `shape`.
#![tactic(auto)]

use geometry::{check_position, check_size};
use rectangle::Rectangle;
use refusal::Checked;
use rounded_rectangle::RoundedRectangle;
pub use shape::Shape;
use shape::box_rules::{confined, confined_w3c, offset_box, offset_w3c_box};

pub mod calls;

ghost use Rattle.std.specs.Prelude.{◌≡◌};
ghost use Rattle.signed.specs.Signed.{Near};
ghost use Rattle.figure.specs.Bounds.{wide_offset, OwnFigure, BoundedFigure, BoundedShape};
ghost use Rattle.figure.specs.Figure.{own_rectangle, offset as figure_offset, shape as figure_shape};
ghost use Rattle.figure.specs.Calls.{corners_check, figure_check};

#[derive(Clone, Copy)]
pub enum Figure {
    Ellipse(Rectangle),
    CrateBox(RoundedRectangle),
    W3cBox(RoundedRectangle),
}

impl Figure {
    // The rectangle of the figure as it is given.
    pub fn own_rectangle(self) -> Rectangle
        ensures { result ≡ own_rectangle self }
    {
        match self {
            Figure::Ellipse(rectangle) => rectangle,
            Figure::CrateBox(b) => b.rectangle,
            Figure::W3cBox(b) => b.rectangle,
        }
    }

    // Refusal 2. An ellipse has no radii.
    fn check_corners(self) -> Checked
        ensures { result ≡ corners_check self }
    {
        match self {
            Figure::Ellipse(_) => Ok(()),
            Figure::CrateBox(b) => b.corners.check(),
            Figure::W3cBox(b) => b.corners.check(),
        }
    }

    // Refusals 1, 2 and 3: sides, radii, position.
    pub fn check(self) -> Checked
        ensures { result ≡ figure_check self }
    {
        let rectangle = self.own_rectangle();
        check_size(rectangle.size)?;
        self.check_corners()?;
        check_position(rectangle.top_left)
    }

    // The figure offset by k. A W3C box is confined before and after.
    pub fn offset_by(self, k: i32) -> Figure
        requires own_figure { OwnFigure self }
        requires near { Near wide_offset k }
        ensures { (result ≡ figure_offset self k) × BoundedFigure result }
    {
        match self {
            Figure::Ellipse(rectangle) => Figure::Ellipse(rectangle::bounded::offset(rectangle, k)),
            Figure::CrateBox(b) => Figure::CrateBox(offset_box(b, k)),
            Figure::W3cBox(b) => Figure::W3cBox(offset_w3c_box(b, k).plain()),
        }
    }

    // The shape of the figure: each kind of box confines its radii by its own rule.
    pub fn shape(self) -> Shape
        requires { BoundedFigure self }
        ensures { (result ≡ figure_shape self) × BoundedShape result }
    {
        match self {
            Figure::Ellipse(rectangle) => Shape::Ellipse(rectangle),
            Figure::CrateBox(b) => Shape::RoundedBox(confined(b)),
            Figure::W3cBox(b) => Shape::RoundedBox(confined_w3c(b)),
        }
    }
}
