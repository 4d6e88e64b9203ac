// Styled rows painted onto the rows of a canvas, after the order in which the pixel iterators of
// embedded-graphics 0.8.2 `ellipse/styled.rs` and `rounded_rectangle/styled.rs` give pixels: left
// stroke, fill, right stroke. A canvas is lent bytes, so there is no `DrawTarget`.
#![tactic(auto)]

ghost use Rattle.std.specs.Prelude.{◌≡◌, true, List, ℕ, ◌+◌, ◌*◌, ◌≤◌, length};
ghost use Rattle.geometry.specs.Bounds.{wide_side};
ghost use Rattle.canvas.specs.Canvas.{overpaint_runs, overpaint_at};
ghost use Rattle.canvas.specs.Nested.{Nested};

use canvas_run::{clip, paint_run};
use geometry_range::Range;
use scanline::StyledRuns;
use style::Style;

// Up to so many bytes it takes less time to paint the whole run and the fill over it than to begin a
// third run.
const SHORT: u32 = 256;

// Whether a row of this width is painted by the whole run and the fill over it: where that comes to
// the same, and the run is short.
#[tactic(auto, using(crate::proofs::Nested::columns_in_order))]
fn is_nested(runs: StyledRuns, fill: Option<u8>, width: u32) -> bool
    ensures { result ≡ true → Nested runs fill }
{
    let Some(_) = fill else {
        return false;
    };
    let left = runs.stroke_left;
    let inner = runs.fill;
    let right = runs.stroke_right;
    if left.end < inner.start {
        return false;
    }
    if inner.end < right.start {
        return false;
    }
    if right.start < inner.end {
        return false;
    }
    if right.end < left.end {
        return false;
    }
    if right.start < left.start {
        return false;
    }
    let columns = clip(
        Range {
            start: left.start,
            end: right.end,
        },
        width,
    );
    columns.to - columns.from <= SHORT
}

// Runs that paint the same: where the fill may be painted over the whole run, that and no right run.
fn merged(runs: StyledRuns, style: Style, width: u32) -> StyledRuns
    ensures { (row : List ℕ) → overpaint_runs style result row ≡ overpaint_runs style runs row }
{
    let paint = style.fill;
    if !is_nested(runs, paint, width) {
        return runs;
    }
    let left = runs.stroke_left;
    let inner = runs.fill;
    let right = runs.stroke_right;
    StyledRuns {
        stroke_left: Range {
            start: left.start,
            end: right.end,
        },
        fill: inner,
        stroke_right: Range {
            start: right.end,
            end: right.end,
        },
    }
}

// Overpaints a row by a styled row.
#[tactic(auto, unfolding(crate::specs::Canvas::overpaint_runs))]
fn paint_row(row: &mut [u8], scanline: StyledRuns, style: Style)
    requires { length row.old ≤ wide_side }
    ensures { row.new ≡ overpaint_runs style scanline row.old }
{
    let stroke = style.stroke;
    let fill = style.fill;
    let runs = merged(scanline, style, row.len() as u32);
    paint_run(row, runs.stroke_left, stroke);
    paint_run(row, runs.fill, fill);
    paint_run(row, runs.stroke_right, stroke);
}

// Overpaints row y of a canvas of this width by a styled row: the row's part of the canvas is lent
// onward, and every byte outside it stays.
#[tactic(auto, using(canvas_run::proofs::LentPart::lent_row_length, canvas_run::proofs::LentPart::lent_row_put))]
pub fn paint_row_at(canvas: &mut [u8], width: u32, y: u32, scanline: StyledRuns, style: Style)
    requires width_le_wide_side { width ≤ wide_side }
    requires width_in_bounds { y * width + width ≤ length canvas.old }
    ensures { canvas.new ≡ overpaint_at width y style scanline canvas.old }
{
    let start = (y as usize) * (width as usize);
    let end = start + (width as usize);
    paint_row(&mut canvas[start..end], scanline, style);
}
