// Styled figures: their bounding box and rows, after embedded-graphics 0.8.2 both `styled.rs` and
// `common/styled_scanline.rs`. A figure's stroke area and fill area are shapes of one kind.
#![tactic(auto)]

ghost use Rattle.std.specs.Prelude.{◌≡◌, ◌≤◌};
ghost use Rattle.signed.specs.Signed.{Near};
ghost use Rattle.geometry.specs.Bounds.{wide_point};
ghost use Rattle.rectangle.specs.Calls.{rectangle_outcome};
ghost use Rattle.figure.specs.Bounds.{wide_offset, OwnFigure};
ghost use Rattle.styled_straight.specs.StraightRow.{Told};
ghost use Rattle.styled.specs.Styled.{styled_row};
ghost use Rattle.styled.specs.Calls.{styled_row_outcome, styled_row_call, styled_bounding_box_call};

use figure::Figure;
use geometry::check_row;
use rectangle::Rectangle;
use refusal::Refusal;
use scanline::{StyledRuns, StyledScanline};
use style::Style;
use styled_row::{crate_row_at, ellipse_row_at, w3c_row_at};
use styled_straight::straight_row;

// The styled row at y of a box where no corner touches it; nothing is told of an ellipse.
fn straight_row_of(figure: Figure, style: Style, y: i32) -> Option<StyledRuns>
    requires own_figure { OwnFigure figure }
    requires stroke_width_bound { style.stroke_width ≤ wide_offset }
    requires near { Near wide_point y }
    ensures { Told result (styled_row figure style y) }
{
    let outside = style.outside_stroke_width();
    let inside = style.inside_stroke_width();
    let b = match figure {
        Figure::Ellipse(_) => {
            return None;
        }
        Figure::CrateBox(b) => b,
        Figure::W3cBox(b) => b,
    };
    straight_row(b, outside, inside, y)
}

// The styled row at y by both areas.
fn row_by_areas(figure: Figure, style: Style, y: i32) -> Option<StyledRuns>
    requires own_figure { OwnFigure figure }
    requires stroke_width_bound { style.stroke_width ≤ wide_offset }
    requires near { Near wide_point y }
    ensures { result ≡ styled_row figure style y }
{
    let outside = style.outside_stroke_width();
    let outward = signed::from_u32(outside);
    let inside = style.inside_stroke_width();
    let inward = signed::sub(0, signed::from_u32(inside));
    match figure {
        Figure::Ellipse(rectangle) => ellipse_row_at(rectangle, outside, inside, y),
        Figure::CrateBox(b) => crate_row_at(b, outward, inward, y),
        Figure::W3cBox(b) => w3c_row_at(b, outward, inward, y),
    }
}

// The runs of the styled row at y, asked for alone: a box's without its corners where none touches the
// row. Every row that is asked for alone is found here.
pub fn row_at(figure: Figure, style: Style, y: i32) -> Option<StyledRuns>
    requires own_figure { OwnFigure figure }
    requires stroke_width_bound { style.stroke_width ≤ wide_offset }
    requires near { Near wide_point y }
    ensures { result ≡ styled_row figure style y }
{
    straight_row_of(figure, style, y).or_else(|| row_by_areas(figure, style, y))
}

// The styled row at y. Refused by 1, 2, 3, 4 and 5.
#[tactic(auto, using(figure::proofs::Within::figure_passed, geometry::proofs::Checks::asked_passed, style::proofs::StrokeWidths::style_passed))]
pub fn styled_row(figure: Figure, style: Style, y: i32) -> Result<Option<StyledScanline>, Refusal>
    ensures { styled_row_outcome result ≡ styled_row_call figure style y }
{
    figure.check()?;
    check_row(y)?;
    style.check()?;
    Ok(row_at(figure, style, y).map(|runs| StyledScanline {
        y: y,
        stroke_left: runs.stroke_left,
        fill: runs.fill,
        stroke_right: runs.stroke_right,
    }))
}

// The rectangle that a styled figure keeps to. Refused by 1, 2, 3 and 5.
#[tactic(auto, using(figure::proofs::Within::figure_passed, figure::proofs::Within::own_rectangle_bounded, style::proofs::StrokeWidths::outside_passed))]
pub fn styled_bounding_box(figure: Figure, style: Style) -> Result<Rectangle, Refusal>
    ensures { rectangle_outcome result ≡ styled_bounding_box_call figure style }
{
    figure.check()?;
    style.check()?;
    let outside = signed::from_u32(style.outside_stroke_width());
    let rectangle = figure.own_rectangle();
    Ok(rectangle::bounded::offset(rectangle, outside))
}
