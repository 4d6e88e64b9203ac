// A styled figure made ready for all its rows: both areas with their tests, after embedded-graphics
// 0.8.2 `StyledScanlines` of both `styled.rs`.
#![tactic(auto)]

ghost use Rattle.std.specs.Prelude.{◌≡◌, ℤ};
ghost use Rattle.figure.specs.Bounds.{BoundedShape};
ghost use Rattle.styled_row.specs.StyledRow.{styled_row_of_shapes};
ghost use Rattle.styled_scan.specs.Ready.{row_of, Ready};

use ellipse_styled::StyledEllipse;
use figure::Shape;
use styled_box::StyledBox;

// A styled figure made ready. Areas of two kinds, which no figure has, have no rows.
#[derive(Clone, Copy)]
pub enum StyledShape {
    Ellipse(StyledEllipse),
    RoundedBox(StyledBox),
}

impl StyledShape {
    // Made of the shapes of both areas.
    #[tactic(auto, using(figure::proofs::Within::area_bounded), unfolding(styled_row::specs::StyledRow::styled_row_of_shapes))]
    pub fn new(stroke: Shape, fill: Shape) -> Option<StyledShape>
        requires bounded_shape { BoundedShape stroke }
        requires bounded_shape_2 { BoundedShape fill }
        ensures { Ready result × ((y : ℤ) → row_of result y ≡ styled_row_of_shapes stroke fill y) }
    {
        match (stroke, fill) {
            (Shape::Ellipse(area), Shape::Ellipse(inner)) => {
                Some(StyledShape::Ellipse(StyledEllipse::new(area, inner.size)))
            }
            (Shape::RoundedBox(area), Shape::RoundedBox(inner)) => {
                Some(StyledShape::RoundedBox(StyledBox::new(area, inner)))
            }
            _ => None,
        }
    }
}
