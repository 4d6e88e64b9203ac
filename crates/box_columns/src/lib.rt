// The contained columns of a box's row, from both ends, for the fill of a styled box row, after
// embedded-graphics 0.8.2 `rounded_rectangle/styled.rs` (`StyledScanlines`). The Rust tests column
// after column from both ends of the stroke area's run; here the columns that a corner's ellipse
// leaves out are skipped first, and the test begins where the ellipse does. That column is contained
// but where corners overlap; there the walk goes on. Columns are counted from the left edge, and for
// the last one from the right edge.
#![tactic(auto)]

ghost use Rattle.std.specs.Prelude.{◌≡◌, true, ◌+◌, ◌-◌, ◌<◌, ◌≤◌, Some};
ghost use Rattle.rounded_rectangle.specs.Relative.{Ready, ReadyBox, radii};
ghost use Rattle.box_columns.specs.Columns.{covered as columns_covered, left_out, NoneBefore, contained_from_left, contained_from_right, first_contained, last_contained};

use corner_quadrant::EllipseQuadrant;
use geometry::Size;
use rounded_rectangle::RoundedRectangleContains;

// a − b, never below 0.
pub fn difference(a: u32, b: u32) -> u32
    ensures { result ≡ a - b }
{
    if b < a { a - b } else { 0 }
}

// How many columns a quadrant covers on its row e.
pub fn covered(radius: Size, e: u32) -> u32
    ensures { result ≡ columns_covered radius e }
{
    if e < radius.height { radius.width } else { 0 }
}

// How many of the n columns from a corner on its ellipse leaves out before the first inside one on
// its row e, all n if none is inside.
#[tactic(auto, unfolding(crate::specs::Columns::left_out))]
pub fn left_out(corner: EllipseQuadrant, e: u32, n: u32, hint: u32) -> u32
    requires ready { Ready corner }
    requires n_bound { n ≤ columns_covered corner.radius e }
    ensures { result ≡ left_out corner.radius e n }
{
    if n == 0 {
        return 0;
    }
    corner.first_inside(e, n, hint).unwrap_or(n)
}

// So many columns from the left edge on are surely not contained on row dy: the top-left corner
// leaves them out, or the bottom-left one where the top-left has no column on that row. The
// top-right corner comes before the bottom-left one.
pub fn left_skip(b: RoundedRectangleContains, dy: u32, hint: u32) -> u32
    requires ready_box { ReadyBox b }
    requires dy_lt_height { dy < b.size.height }
    ensures { NoneBefore (contained_from_left (radii b) b.size dy) result }
{
    let top_left = b.top_left;
    let by_top_left = covered(top_left.radius, dy);
    if 0 < by_top_left {
        return left_out(top_left, dy, by_top_left, hint);
    }
    let size = b.size;
    let below = size.height - 1 - dy;
    let top_right = b.top_right;
    let bottom_left = b.bottom_left;
    let free = difference(size.width, covered(top_right.radius, dy));
    let by_bottom_left = covered(bottom_left.radius, below);
    left_out(
        bottom_left,
        below,
        signed::least(by_bottom_left, free),
        hint,
    )
}

// The same from the right edge on. Both left corners come before the bottom-right one, the top-left
// one before the top-right one.
pub fn right_skip(b: RoundedRectangleContains, dy: u32, hint: u32) -> u32
    requires ready_box { ReadyBox b }
    requires dy_lt_height { dy < b.size.height }
    ensures { NoneBefore (contained_from_right (radii b) b.size dy) result }
{
    let size = b.size;
    let top_left = b.top_left;
    let top_right = b.top_right;
    let by_top_left = covered(top_left.radius, dy);
    let by_top_right = covered(top_right.radius, dy);
    if 0 < by_top_right {
        let free = difference(size.width, by_top_left);
        return left_out(top_right, dy, signed::least(by_top_right, free), hint);
    }
    let below = size.height - 1 - dy;
    let bottom_left = b.bottom_left;
    let bottom_right = b.bottom_right;
    let by_left = signed::most(by_top_left, covered(bottom_left.radius, below));
    let by_bottom_right = covered(bottom_right.radius, below);
    let free = difference(size.width, by_left);
    left_out(
        bottom_right,
        below,
        signed::least(by_bottom_right, free),
        hint,
    )
}

// The first contained column of from..to on row dy.
#[tactic(auto, using(crate::proofs::Searches::find_here, crate::proofs::Searches::find_next, crate::proofs::Searches::find_end))]
pub fn first_contained(b: RoundedRectangleContains, dy: u32, from: u32, to: u32) -> Option<u32>
    requires ready_box { ReadyBox b }
    requires dy_lt_height { (dy < b.size.height) × (to ≤ b.size.width) }
    ensures { result ≡ first_contained (radii b) b.size dy from to }
{
    for dx in from..to {
        if b.contains(dx, dy) {
            return Some(dx);
        }
    }
    None
}

// The last contained column of row dy, counted from the right edge from `from` on: there is one, at
// the place `to` at the latest.
#[tactic(auto, using(crate::proofs::Searches::find_here, crate::proofs::Searches::find_next))]
pub fn last_contained(b: RoundedRectangleContains, dy: u32, from: u32, to: u32) -> u32
    requires ready_box { ReadyBox b }
    requires dy_lt_height { (dy < b.size.height) × (to < b.size.width) × (from ≤ to) }
    requires to_value { contained_from_right (radii b) b.size dy to ≡ true }
    ensures { (Some result ≡ last_contained (radii b) b.size dy from (to + 1)) × (result ≤ to) }
{
    let size = b.size;
    for k in from..to {
        if b.contains(size.width - 1 - k, dy) {
            return k;
        }
    }
    to
}
