// The calls on figures that a host makes: none has a `requires`, each refuses by the lowest number
// that applies.
ghost use Rattle.std.specs.Prelude.{◌≡◌};
ghost use Rattle.figure.specs.Calls.{contains_outcome, row_outcome, figure_outcome, radii_outcome, contains_call, row_call, figure_offset_call, confined_radii_call, ellipse_with_center_call};

use crate::{Figure, Shape};
use corner_radii::ConfinedRadii;
use geometry::{Point, Size, check_offset, check_point, check_row};
use rectangle::Rectangle;
use refusal::Refusal;
use scanline::Scanline;

impl Figure {
    // Whether a point is inside. Refused by 1, 2, 3 and 4.
    #[tactic(auto, using(crate::proofs::Within::figure_passed, crate::proofs::Within::own_figure_bounded, geometry::proofs::Checks::point_passed))]
    pub fn contains(self, point: Point) -> Result<bool, Refusal>
        ensures { contains_outcome result ≡ contains_call self point }
    {
        self.check()?;
        check_point(point)?;
        Ok(self.shape().contains(point))
    }

    // The row at y, or that there is none. Refused by 1, 2, 3 and 4.
    #[tactic(auto, using(crate::proofs::Within::figure_passed, crate::proofs::Within::own_figure_bounded, geometry::proofs::Checks::asked_passed))]
    pub fn row(self, y: i32) -> Result<Option<Scanline>, Refusal>
        ensures { row_outcome result ≡ row_call self y }
    {
        self.check()?;
        check_row(y)?;
        Ok(self.shape().row(y).map(|run| Scanline { y: y, x: run }))
    }

    // The figure offset by k. Refused by 1, 2, 3 and 5.
    #[tactic(auto, using(crate::proofs::Within::figure_passed, geometry::proofs::Checks::offset_passed))]
    pub fn offset(self, k: i32) -> Result<Figure, Refusal>
        ensures { figure_outcome result ≡ figure_offset_call self k }
    {
        self.check()?;
        check_offset(k)?;
        Ok(self.offset_by(k))
    }

    // The radii as they are confined to the box, with L and S. Refused by 1, 2 and 3.
    #[tactic(auto, using(crate::proofs::Within::figure_passed, crate::proofs::Within::own_figure_bounded))]
    pub fn confined_radii(self) -> Result<Option<ConfinedRadii>, Refusal>
        ensures { radii_outcome result ≡ confined_radii_call self }
    {
        self.check()?;
        let Shape::RoundedBox(b) = self.shape() else {
            return Ok(None);
        };
        Ok(Some(b.corners))
    }

    // The ellipse of a size about a centre. Refused by 1, and by 3 for the rectangle that it makes.
    #[tactic(auto)]
    pub fn ellipse_with_center(center: Point, size: Size) -> Result<Figure, Refusal>
        ensures { figure_outcome result ≡ ellipse_with_center_call center size }
    {
        let rectangle = Rectangle::with_center(center, size)?;
        Ok(Figure::Ellipse(rectangle))
    }
}
