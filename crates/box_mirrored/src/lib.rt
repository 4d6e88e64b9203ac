// Rows of a box whose two sides are alike, where one search serves both, and rows with straight sides,
// which need none: what a scan of a styled box's rows is spared. The Rust has none of it: in
// embedded-graphics 0.8.2 `rounded_rectangle/styled.rs` every row is searched from both ends.
#![tactic(auto)]

ghost use Rattle.std.specs.Prelude.{◌≡◌, true, ◌<◌, ◌≤◌};
ghost use Rattle.rounded_rectangle.specs.Relative.{ReadyBox, radii, row_insets};
ghost use Rattle.box_mirrored.specs.Sides.{alike, MirroredSides, StraightFor};

use box_columns::{covered, difference, left_out};
use corner_quadrant::side_inset;
use geometry::Size;
use rounded_rectangle::{Insets, RoundedRectangleContains};

// Whether two corners are alike.
pub fn are_alike(a: Size, b: Size) -> bool
    ensures { result ≡ alike a b }
{
    if a.width != b.width {
        return false;
    }
    if a.height != b.height {
        return false;
    }
    true
}

// How many columns row dy leaves out on either side, where its two sides are alike: only the upper
// corners have the row, or only the lower ones, those two are alike, and they do not overlap. Then
// all columns between are contained, and one search serves both sides.
pub fn mirrored_skip(b: RoundedRectangleContains, dy: u32, hint: u32) -> Option<u32>
    requires ready_box { ReadyBox b }
    requires dy_lt_height { dy < b.size.height }
    ensures { MirroredSides (radii b) b.size dy result }
{
    let size = b.size;
    let below = size.height - 1 - dy;
    let top_left = b.top_left;
    let top_right = b.top_right;
    let bottom_left = b.bottom_left;
    let bottom_right = b.bottom_right;
    let by_top_left = covered(top_left.radius, dy);
    let by_bottom_left = covered(bottom_left.radius, below);
    let by_top = signed::most(by_top_left, covered(top_right.radius, dy));
    let by_bottom = signed::most(by_bottom_left, covered(bottom_right.radius, below));
    if by_bottom == 0 {
        if are_alike(top_left.radius, top_right.radius) {
            if 2 * by_top_left <= size.width {
                return Some(left_out(top_left, dy, by_top_left, hint));
            }
        }
        return None;
    }
    if by_top == 0 {
        if are_alike(bottom_left.radius, bottom_right.radius) {
            if 2 * by_bottom_left <= size.width {
                return Some(left_out(bottom_left, below, by_bottom_left, hint));
            }
        }
    }
    None
}

// The insets of the box's row dy, as `RoundedRectangleContains::insets` has them: where the corners on
// both sides are alike, one search serves both.
pub fn row_insets(b: RoundedRectangleContains, dy: u32, left_hint: u32, right_hint: u32) -> Insets
    requires ready_box { ReadyBox b }
    requires dy_lt_height { dy < b.size.height }
    ensures { (result ≡ row_insets (radii b) b.size.width b.size.height dy) × (result.left ≤ b.size.width)
        × (result.right ≤ b.size.width) }
{
    let top_left = b.top_left;
    let top_right = b.top_right;
    let bottom_left = b.bottom_left;
    let bottom_right = b.bottom_right;
    if are_alike(top_left.radius, top_right.radius) {
        if are_alike(bottom_left.radius, bottom_right.radius) {
            let size = b.size;
            let inset = side_inset(
                top_left,
                bottom_left,
                size.height,
                size.width,
                dy,
                left_hint,
            );
            return Insets {
                left: inset,
                right: inset,
            };
        }
    }
    b.insets(dy, left_hint, right_hint)
}

// So many rows from row dy on have straight sides; 1 where row dy has not.
pub fn straight_rows(b: RoundedRectangleContains, dy: u32) -> u32
    requires ready_box { ReadyBox b }
    requires dy_lt_height { dy < b.size.height }
    ensures { (0 < result) × StraightFor (radii b) b.size dy result }
{
    let top_left = b.top_left;
    let top_right = b.top_right;
    let upper_left = top_left.radius;
    let upper_right = top_right.radius;
    if dy < signed::most(upper_left.height, upper_right.height) {
        return 1;
    }
    let bottom_left = b.bottom_left;
    let bottom_right = b.bottom_right;
    let lower_left = bottom_left.radius;
    let lower_right = bottom_right.radius;
    let lower = signed::most(lower_left.height, lower_right.height);
    let size = b.size;
    signed::most(1, difference(size.height - dy, lower))
}
