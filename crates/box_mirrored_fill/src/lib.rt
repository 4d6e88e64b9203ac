// The fill of a styled box row in a scan of rows, after embedded-graphics 0.8.2
// `rounded_rectangle/styled.rs` (`StyledScanlines`): where the two sides of the row are alike, one search
// serves both, and no column is tested again.
#![tactic(auto)]

ghost use Rattle.std.specs.Prelude.{◌≡◌, ◌*◌, ◌≤◌};
ghost use Rattle.signed.specs.Signed.{Near};
ghost use Rattle.geometry.specs.Bounds.{wide_point};
ghost use Rattle.corner.specs.Bounds.{wide_stroke_side};
ghost use Rattle.box_fill.specs.BoxFill.{fill_run};
ghost use Rattle.box_fill.specs.Relative.{ReadyFill, NearRun, box_of};
ghost use Rattle.box_mirrored_fill.specs.MirroredFill.{fill_between};

use box_fill::{FillRun, Hints, place_in, row_fill};
use box_mirrored::mirrored_skip;
use geometry_range::Range;
use rectangle::Rectangle;
use rounded_rectangle::RoundedRectangleContains;

// The fill of a row that leaves out k columns of `width` on either side and contains those between.
// Where none of these is in the run, the whole run is fill.
pub fn filled_between(left: i32, width: u32, run: Range, k: u32) -> Range
    requires near { Near wide_point left }
    requires width_le_wide_stroke_side { (width ≤ wide_stroke_side) × (2 * k ≤ width) }
    requires near_run { NearRun run }
    ensures { result ≡ fill_between left width run k }
{
    let begin = signed::most(place_in(left, width, run.start), k);
    let end = signed::least(place_in(left, width, run.end), width - k);
    if begin < end {
        return Range {
            start: scanline::from_first(left, begin),
            end: scanline::from_first(left, end),
        };
    }
    run
}

// The fill of the row at y, where `run` is the stroke area's. Off the fill area's rows there is
// none, and the hints stay.
pub fn fill_run(
    rectangle: Rectangle,
    b: RoundedRectangleContains,
    y: i32,
    run: Range,
    hints: Hints,
) -> FillRun
    requires ready_fill { ReadyFill rectangle b }
    requires near { Near wide_point y }
    requires near_run { NearRun run }
    ensures { result.run ≡ fill_run (box_of rectangle b) y run }
{
    let top_left = rectangle.top_left;
    let size = b.size;
    let Some(dy) = scanline::place_of(top_left.y, size.height, y) else {
        return FillRun {
            run: Range {
                start: run.end,
                end: run.end,
            },
            hints: hints,
        };
    };
    let left_hint = hints.left;
    let right_hint = hints.right;
    let Some(k) = mirrored_skip(b, dy, left_hint) else {
        return row_fill(top_left.x, b, dy, run, hints);
    };
    FillRun {
        run: filled_between(top_left.x, size.width, run, k),
        hints: Hints {
            left: k,
            right: right_hint,
        },
    }
}
