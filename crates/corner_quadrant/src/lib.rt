// A corner of a box: the test of the whole ellipse of twice its radii, by columns and rows counted
// from the corner inward, after embedded-graphics 0.8.2 `rounded_rectangle/ellipse_quadrant.rs`; and
// the inset on a side of the box by its two corners. `rounded_rectangle` has all four.
#![tactic(auto)]

ghost use Rattle.std.specs.Prelude.{◌≡◌, true, ◌<◌, ◌≤◌};
ghost use Rattle.geometry.specs.Bounds.{wide_side, SizeUpTo};
ghost use Rattle.scanline.specs.Places.{find_from};
ghost use Rattle.corner.specs.Bounds.{wide_radius};
ghost use Rattle.corner_quadrant.specs.Quadrant.{Ready, inside_corner, in_quadrant, inset as quadrant_inset, side_inset};

use ellipse::EllipseContains;
use geometry::Size;

#[derive(Clone, Copy)]
pub struct EllipseQuadrant {
    pub radius: Size,
    pub test: EllipseContains,
}

// Whether column d and row e are within the quadrant.
pub fn in_quadrant(radius: Size, d: u32, e: u32) -> bool
    ensures { result ≡ in_quadrant radius d e }
{
    e < radius.height && d < radius.width
}

impl EllipseQuadrant {
    pub fn new(radius: Size) -> EllipseQuadrant
        requires { SizeUpTo wide_radius radius }
        ensures { (result.radius ≡ radius) × Ready result }
    {
        let sides = Size {
            width: 2 * radius.width,
            height: 2 * radius.height,
        };
        EllipseQuadrant {
            radius: radius,
            test: EllipseContains::new(sides),
        }
    }

    // The test at a column and a row of the quadrant.
    pub fn contains(self, d: u32, e: u32) -> bool
        requires ready { Ready self }
        requires e_value { in_quadrant self.radius d e ≡ true }
        ensures { result ≡ inside_corner self.radius d e }
    {
        let radius = self.radius;
        let test = self.test;
        test.contains(
            ellipse::gap(2 * radius.width, d),
            ellipse::gap(2 * radius.height, e),
        )
    }

    // The first of n columns from the corner on that is inside on its row e. The radius may be larger
    // than n: the ellipse's middle then lies beyond them.
    pub fn first_inside(self, e: u32, n: u32, hint: u32) -> Option<u32>
        requires ready { Ready self }
        requires e_lt_height { (e < self.radius.height) × (0 < self.radius.width) × (n ≤ wide_side) }
        ensures { result ≡ find_from (λ d. inside_corner self.radius d e) n 0 }
    {
        let radius = self.radius;
        let test = self.test;
        let y = ellipse::gap(2 * radius.height, e);
        ellipse_search::find_inside(test, 2 * radius.width, y, 0, n, hint)
    }

    // How many of n columns from the corner on come before the first inside one on its row e, 0 if
    // none is inside.
    fn inset(self, e: u32, n: u32, hint: u32) -> u32
        requires ready { Ready self }
        requires e_lt_height { (e < self.radius.height) × (n ≤ wide_side) }
        ensures { (result ≡ quadrant_inset self.radius e n) × (result ≤ n) }
    {
        let radius = self.radius;
        if radius.width == 0 {
            return 0;
        }
        self.first_inside(e, n, hint).unwrap_or(0)
    }
}

// The inset on one side of the box, on its row dy of h, of n columns: by the upper corner, else by
// the lower, else 0.
pub fn side_inset(
    upper: EllipseQuadrant,
    lower: EllipseQuadrant,
    h: u32,
    n: u32,
    dy: u32,
    hint: u32,
) -> u32
    requires ready { Ready upper }
    requires ready_2 { Ready lower }
    requires dy_lt_h { (dy < h) × (n ≤ wide_side) }
    ensures { (result ≡ side_inset upper.radius lower.radius h n dy) × (result ≤ n) }
{
    let above = upper.radius;
    if dy < above.height {
        return upper.inset(dy, n, hint);
    }
    let below = lower.radius;
    if h - 1 - dy < below.height {
        return lower.inset(h - 1 - dy, n, hint);
    }
    0
}
