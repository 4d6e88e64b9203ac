// Rows of a styled box that no corner of either area touches, for a row that is asked for alone: they
// need no confined radii, no test made ready and no search. The Rust has none of it: in
// embedded-graphics 0.8.2 `rounded_rectangle/styled.rs` every row is searched from both ends.
#![tactic(auto)]

ghost use Rattle.std.specs.Prelude.{◌≡◌, true, ◌-◌, ◌<◌, ◌≤◌, pos, neg_ℤ};
ghost use Rattle.signed.specs.Signed.{Near};
ghost use Rattle.geometry.specs.Bounds.{wide_point};
ghost use Rattle.corner_radii.specs.declared.CornerRadii.{CornerRadii};
ghost use Rattle.shape.specs.BoxBounds.{wide_offset, OwnBox, AreaRectangle};
ghost use Rattle.shape.specs.BoxRules.{crate_area, w3c_area};
ghost use Rattle.styled_row.specs.StyledRow.{box_styled_row};
ghost use Rattle.styled_straight.specs.StraightRow.{box_with, Reach, Told};

use box_columns::difference;
use box_mirrored_fill::filled_between;
use rectangle::Rectangle;
use rounded_rectangle::{Insets, RoundedRectangle, run_between};
use scanline::StyledRuns;
use styled_row::around_fill;

// How many rows from its top down, and from its bottom up, the corners of a box have at most.
#[derive(Clone, Copy)]
pub struct Reaches {
    pub upper: u32,
    pub lower: u32,
}

// Whether row dy of `height` rows is past the upper corners and before the lower ones.
fn is_past(height: u32, dy: u32, reaches: Reaches) -> bool
    requires { dy < height }
    ensures { result ≡ true → (reaches.upper ≤ dy) × (reaches.lower ≤ height - 1 - dy) }
{
    if dy < reaches.upper {
        return false;
    }
    if height - 1 - dy < reaches.lower {
        return false;
    }
    true
}

// The styled row at y of a box with these areas, if no corner touches it.
fn row_past(
    area: Rectangle,
    stroke: Reaches,
    inner: Rectangle,
    fill: Reaches,
    y: i32,
) -> Option<StyledRuns>
    requires area_rectangle { AreaRectangle area }
    requires area_rectangle_2 { AreaRectangle inner }
    requires near { Near wide_point y }
    ensures { (c d : CornerRadii) → Reach c stroke → Reach d fill → Told result (box_styled_row (box_with area c) (box_with inner d) y) }
{
    let top_left = area.top_left;
    let size = area.size;
    let dy = scanline::place_of(top_left.y, size.height, y)?;
    let inner_top_left = inner.top_left;
    let inner_size = inner.size;
    let inner_dy = scanline::place_of(inner_top_left.y, inner_size.height, y)?;
    if !is_past(size.height, dy, stroke) {
        return None;
    }
    if !is_past(inner_size.height, inner_dy, fill) {
        return None;
    }
    let run = run_between(top_left.x, size.width, Insets { left: 0, right: 0 });
    Some(around_fill(
        run,
        filled_between(inner_top_left.x, inner_size.width, run, 0),
    ))
}

// The styled row at y of a box with strokes so wide outside and inside its outline, if no corner
// touches it. Confined radii are no larger than they were, and a W3C box's grow by no more than a
// crate box's, so the row is that of either box.
pub fn straight_row(b: RoundedRectangle, outside: u32, inside: u32, y: i32) -> Option<StyledRuns>
    requires own_box { OwnBox b }
    requires outside_le_wide_offset { (outside ≤ wide_offset) × (inside ≤ wide_offset) }
    requires near { Near wide_point y }
    ensures told { Told result (box_styled_row (crate_area b (pos outside)) (crate_area b (neg_ℤ (pos inside))) y) }
    ensures told_2 { Told result (box_styled_row (w3c_area b (pos outside)) (w3c_area b (neg_ℤ (pos inside))) y) }
{
    let rectangle = b.rectangle;
    let corners = b.corners;
    let top_left = corners.top_left;
    let top_right = corners.top_right;
    let bottom_left = corners.bottom_left;
    let bottom_right = corners.bottom_right;
    let upper = signed::most(top_left.height, top_right.height);
    let lower = signed::most(bottom_left.height, bottom_right.height);
    let area = rectangle::bounded::offset(rectangle, signed::from_u32(outside));
    let inner = rectangle::bounded::offset(rectangle, signed::sub(0, signed::from_u32(inside)));
    row_past(
        area,
        Reaches {
            upper: upper + outside,
            lower: lower + outside,
        },
        inner,
        Reaches {
            upper: difference(upper, inside),
            lower: difference(lower, inside),
        },
        y,
    )
}
