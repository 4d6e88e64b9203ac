// The fill of a styled box row, after embedded-graphics 0.8.2 `rounded_rectangle/styled.rs`
// (`StyledScanlines`). Columns are counted from the fill area's left edge, and for the last one from
// its right edge.
#![tactic(auto)]

ghost use Rattle.std.specs.Prelude.{◌≡◌, ◌*◌, ◌<◌, ◌≤◌};
ghost use Rattle.signed.specs.Signed.{Near};
ghost use Rattle.geometry.specs.Bounds.{wide_point};
ghost use Rattle.corner.specs.Bounds.{wide_stroke_side};
ghost use Rattle.rounded_rectangle.specs.Relative.{ReadyBox, radii};
ghost use Rattle.box_fill.specs.Relative.{NearRun, place_in, row_fill};

use box_columns::{first_contained, last_contained, left_skip, right_skip};
use geometry_range::Range;
use rounded_rectangle::RoundedRectangleContains;

// Where the searches of a row begin, on the left and on the right: nothing depends on it but time.
#[derive(Clone, Copy)]
pub struct Hints {
    pub left: u32,
    pub right: u32,
}

// The fill of a row, and the hints for the row after it.
#[derive(Clone, Copy)]
pub struct FillRun {
    pub run: Range,
    pub hints: Hints,
}

// v as a place among the n columns from `first` on: 0 before them, n after them.
pub fn place_in(first: i32, n: u32, v: i32) -> u32
    requires near { Near wide_point first }
    requires n_le_wide_stroke_side { n ≤ wide_stroke_side }
    requires near_2 { Near (2 * wide_point) v }
    ensures { (result ≡ place_in first n v) × (result ≤ n) }
{
    signed::least(signed::floor0(signed::sub(v, first)), n)
}

// The fill of row dy of a fill area whose first column is `left`. Where no column of the run is
// contained, the whole run is fill.
pub fn row_fill(
    left: i32,
    b: RoundedRectangleContains,
    dy: u32,
    run: Range,
    hints: Hints,
) -> FillRun
    requires near { Near wide_point left }
    requires ready_box { ReadyBox b }
    requires dy_lt_height { dy < b.size.height }
    requires near_run { NearRun run }
    ensures { result.run ≡ row_fill (radii b) b.size left dy run }
{
    let size = b.size;
    let from = place_in(left, size.width, run.start);
    let to = place_in(left, size.width, run.end);
    let left_hint = hints.left;
    let from_left = left_skip(b, dy, left_hint);
    let Some(first) = first_contained(b, dy, signed::most(from, from_left), to) else {
        return FillRun {
            run: Range {
                start: run.start,
                end: run.end,
            },
            hints: hints,
        };
    };
    let right_hint = hints.right;
    let from_right = right_skip(b, dy, right_hint);
    let last = last_contained(
        b,
        dy,
        signed::most(size.width - to, from_right),
        size.width - 1 - first,
    );
    FillRun {
        run: Range {
            start: scanline::from_first(left, first),
            end: scanline::before_end(left, size.width, last),
        },
        hints: Hints {
            left: from_left,
            right: from_right,
        },
    }
}
