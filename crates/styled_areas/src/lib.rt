// The stroke area and the fill area of a figure with its style, after embedded-graphics 0.8.2 both
// `styled.rs`, for callers that have made the checks.
#![tactic(auto)]

ghost use Rattle.std.specs.Prelude.{◌≡◌, ◌≤◌};
ghost use Rattle.signed.specs.Signed.{Near};
ghost use Rattle.figure.specs.Bounds.{wide_offset, OwnFigure, BoundedShape};
ghost use Rattle.styled_areas.specs.Areas.{area as areas_area, stroke_area, fill_area};

use figure::{Figure, Shape};
use shape::box_rules::{confined, offset_box, offset_w3c_box};
use style::Style;

// The area of a figure offset by k. What confines a box hands its record on.
fn area(figure: Figure, k: i32) -> Shape
    requires own_figure { OwnFigure figure }
    requires near { Near wide_offset k }
    ensures { (result ≡ areas_area figure k) × BoundedShape result }
{
    match figure {
        Figure::Ellipse(rectangle) => Shape::Ellipse(rectangle::bounded::offset(rectangle, k)),
        Figure::CrateBox(b) => Shape::RoundedBox(confined(offset_box(b, k))),
        Figure::W3cBox(b) => Shape::RoundedBox(offset_w3c_box(b, k)),
    }
}

// The shape of the stroke area.
#[tactic(auto, using(style::proofs::StrokeWidths::outside_within_stroke))]
pub fn stroke_shape(figure: Figure, style: Style) -> Shape
    requires own_figure { OwnFigure figure }
    requires stroke_width_bound { style.stroke_width ≤ wide_offset }
    ensures { (result ≡ stroke_area figure style) × BoundedShape result }
{
    area(figure, signed::from_u32(style.outside_stroke_width()))
}

// The shape of the fill area.
#[tactic(auto, using(style::proofs::StrokeWidths::inside_within_stroke))]
pub fn fill_shape(figure: Figure, style: Style) -> Shape
    requires own_figure { OwnFigure figure }
    requires stroke_width_bound { style.stroke_width ≤ wide_offset }
    ensures { (result ≡ fill_area figure style) × BoundedShape result }
{
    let inside = signed::from_u32(style.inside_stroke_width());
    area(figure, signed::sub(0, inside))
}
