// The rounded box, and its test and its rows once its radii are confined, after embedded-graphics 0.8.2
// `rounded_rectangle/mod.rs` (`RoundedRectangleContains`) and `points.rs` (`Scanlines`). Columns and
// rows are counted from the box's corners, unsigned; signed numbers come in with the asked point or
// row, and go out with the run.
#![tactic(auto)]

ghost use Rattle.std.specs.Prelude.{◌≡◌, ◌<◌, ◌≤◌};
ghost use Rattle.signed.specs.Signed.{Near};
ghost use Rattle.geometry.specs.Bounds.{wide_point, wide_side, PointNear, SizeUpTo};
ghost use Rattle.scanline.specs.Points.{RowWithin};
ghost use Rattle.corner.specs.Bounds.{wide_radius, wide_stroke_side};
ghost use Rattle.corner_radii.specs.Bounds.{RadiiUpTo};
ghost use Rattle.rounded_rectangle.specs.ConfinedBox.{plain_box, contains as confined_box_contains, row as confined_box_row};
ghost use Rattle.rounded_rectangle.specs.Relative.{BoundedBox, ReadyBox, radii, contains_at, row_insets, run_between};

use corner_quadrant::{EllipseQuadrant, in_quadrant, side_inset};
use corner_radii::{ConfinedRadii, CornerRadii};
use ellipse_search::ANYWHERE;
use geometry::{Point, Size};
use geometry_range::Range;
use rectangle::Rectangle;

#[derive(Clone, Copy)]
pub struct RoundedRectangle {
    pub rectangle: Rectangle,
    pub corners: CornerRadii,
}

// A box whose radii are confined to its size, with their fraction.
#[derive(Clone, Copy)]
pub struct ConfinedBox {
    pub rectangle: Rectangle,
    pub corners: ConfinedRadii,
}

// A box made ready for many tests: its size and its quadrants.
#[derive(Clone, Copy)]
pub struct RoundedRectangleContains {
    pub size: Size,
    pub top_left: EllipseQuadrant,
    pub top_right: EllipseQuadrant,
    pub bottom_right: EllipseQuadrant,
    pub bottom_left: EllipseQuadrant,
}

// How far a row's run stays within the box's columns, on the left and on the right.
#[derive(Clone, Copy)]
pub struct Insets {
    pub left: u32,
    pub right: u32,
}

impl RoundedRectangleContains {
    // The quadrants go by the radii alone.
    pub fn new(size: Size, corners: ConfinedRadii) -> RoundedRectangleContains
        requires size_up_to { SizeUpTo wide_stroke_side size }
        requires radii_up_to { RadiiUpTo wide_radius corners.radii }
        ensures { (result.size ≡ size) × (radii result ≡ corners.radii) × ReadyBox result }
    {
        let radii = corners.radii;
        RoundedRectangleContains {
            size: size,
            top_left: EllipseQuadrant::new(radii.top_left),
            top_right: EllipseQuadrant::new(radii.top_right),
            bottom_right: EllipseQuadrant::new(radii.bottom_right),
            bottom_left: EllipseQuadrant::new(radii.bottom_left),
        }
    }

    // Whether the box contains its column dx on its row dy.
    pub fn contains(self, dx: u32, dy: u32) -> bool
        requires ready_box { ReadyBox self }
        requires dx_lt_width { (dx < self.size.width) × (dy < self.size.height) }
        ensures { result ≡ contains_at (radii self) self.size.width self.size.height dx dy }
    {
        let size = self.size;
        let beside = size.width - 1 - dx;
        let below = size.height - 1 - dy;
        let top_left = self.top_left;
        if in_quadrant(top_left.radius, dx, dy) {
            return top_left.contains(dx, dy);
        }
        let top_right = self.top_right;
        if in_quadrant(top_right.radius, beside, dy) {
            return top_right.contains(beside, dy);
        }
        let bottom_left = self.bottom_left;
        if in_quadrant(bottom_left.radius, dx, below) {
            return bottom_left.contains(dx, below);
        }
        let bottom_right = self.bottom_right;
        if in_quadrant(bottom_right.radius, beside, below) {
            return bottom_right.contains(beside, below);
        }
        true
    }

    // The insets of the box's row dy. The hints are the insets of a row nearby.
    pub fn insets(self, dy: u32, left_hint: u32, right_hint: u32) -> Insets
        requires ready_box { ReadyBox self }
        requires dy_lt_height { dy < self.size.height }
        ensures { (result ≡ row_insets (radii self) self.size.width self.size.height dy) × (result.left ≤ self.size.width)
            × (result.right ≤ self.size.width) }
    {
        let size = self.size;
        let top_left = self.top_left;
        let top_right = self.top_right;
        let bottom_right = self.bottom_right;
        let bottom_left = self.bottom_left;
        Insets {
            left: side_inset(
                top_left,
                bottom_left,
                size.height,
                size.width,
                dy,
                left_hint,
            ),
            right: side_inset(
                top_right,
                bottom_right,
                size.height,
                size.width,
                dy,
                right_hint,
            ),
        }
    }
}

// The run between two insets of `width` columns from `left` on.
pub fn run_between(left: i32, width: u32, insets: Insets) -> Range
    requires near { Near wide_point left }
    requires width_le_wide_side { width ≤ wide_side }
    requires left_le_width { (insets.left ≤ width) × (insets.right ≤ width) }
    ensures { result ≡ run_between left width insets }
{
    Range {
        start: scanline::from_first(left, insets.left),
        end: scanline::before_end(left, width, insets.right),
    }
}

impl ConfinedBox {
    // The box with these radii for its own, without their fraction.
    pub fn plain(self) -> RoundedRectangle
        ensures { result ≡ plain_box self }
    {
        let rectangle = self.rectangle;
        let corners = self.corners;
        let radii = corners.radii;
        RoundedRectangle {
            rectangle: rectangle,
            corners: radii,
        }
    }

    // `RoundedRectangleContains::contains`, at any point.
    pub fn contains(self, point: Point) -> bool
        requires bounded_box { BoundedBox (plain_box self) }
        requires point_near { PointNear wide_point point }
        ensures { result ≡ confined_box_contains self point.x point.y }
    {
        let rectangle = self.rectangle;
        let top_left = rectangle.top_left;
        let size = rectangle.size;
        let Some(dx) = scanline::place_of(top_left.x, size.width, point.x) else {
            return false;
        };
        let Some(dy) = scanline::place_of(top_left.y, size.height, point.y) else {
            return false;
        };
        let corners = self.corners;
        RoundedRectangleContains::new(size, corners).contains(dx, dy)
    }

    // The row at y.
    pub fn row(self, y: i32) -> Option<Range>
        requires bounded_box { BoundedBox (plain_box self) }
        requires near { Near wide_point y }
        ensures { (result ≡ confined_box_row self y) × RowWithin self.rectangle.top_left.x self.rectangle.size.width result }
    {
        let rectangle = self.rectangle;
        let top_left = rectangle.top_left;
        let size = rectangle.size;
        let Some(dy) = scanline::place_of(top_left.y, size.height, y) else {
            return None;
        };
        let corners = self.corners;
        let insets = RoundedRectangleContains::new(size, corners).insets(dy, ANYWHERE, ANYWHERE);
        Some(run_between(top_left.x, size.width, insets))
    }
}
