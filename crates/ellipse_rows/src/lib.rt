// The rows of an ellipse, after embedded-graphics 0.8.2 `ellipse/points.rs` (`Scanlines`).
#![tactic(auto)]

ghost use Rattle.std.specs.Prelude.{◌≡◌, ◌≤◌};
ghost use Rattle.signed.specs.Signed.{Near};
ghost use Rattle.geometry.specs.Bounds.{wide_side, wide_point, SizeUpTo};
ghost use Rattle.rectangle.specs.Bounds.{Bounded};
ghost use Rattle.scanline.specs.Points.{RowWithin};
ghost use Rattle.ellipse.specs.Relative.{contains_of, SmallWeights};
ghost use Rattle.ellipse_rows.specs.EllipsePoints.{row as ellipse_points_row, row_count};
ghost use Rattle.ellipse_rows.specs.Relative.{first_row_inside, mirrored_run};

use ellipse::{EllipseContains, gap};
use ellipse_search::first_inside;
use geometry::Size;
use geometry_range::Range;
use rectangle::Rectangle;

// All the rows or none: one test, at the middle of the first row. The Rust finds out by looking
// through the first row.
pub fn has_rows(test: EllipseContains, size: Size) -> bool
    requires size_up_to { SizeUpTo wide_side size }
    requires test_value { (test ≡ contains_of size.width size.height) × SmallWeights test }
    ensures { result ≡ first_row_inside size.width size.height }
{
    if size.width == 0 {
        return false;
    }
    if size.height == 0 {
        return false;
    }
    test.contains(gap(size.width, (size.width - 1) / 2), gap(size.height, 0))
}

// The number of rows.
pub fn row_count(ellipse: Rectangle) -> u32
    requires { Bounded ellipse }
    ensures { result ≡ row_count ellipse }
{
    let size = ellipse.size;
    if has_rows(EllipseContains::new(size), size) {
        size.height
    } else {
        0
    }
}

// The run from place k of `width` columns to its mirror image.
fn mirrored(left: i32, width: u32, k: u32) -> Range
    requires near { Near wide_point left }
    requires width_le_wide_side { (width ≤ wide_side) × (k ≤ width) }
    ensures { result ≡ mirrored_run left width k }
{
    Range {
        start: scanline::from_first(left, k),
        end: scanline::before_end(left, width, k),
    }
}

// The row at y.
pub fn row(ellipse: Rectangle, y: i32) -> Option<Range>
    requires bounded { Bounded ellipse }
    requires near { Near wide_point y }
    ensures { (result ≡ ellipse_points_row ellipse y) × RowWithin ellipse.top_left.x ellipse.size.width result }
{
    let top_left = ellipse.top_left;
    let size = ellipse.size;
    let dy = scanline::place_of(top_left.y, size.height, y)?;
    let test = EllipseContains::new(size);
    if !has_rows(test, size) {
        return None;
    }
    let k = first_inside(test, size.width, gap(size.height, dy), 0, size.width)?;
    Some(mirrored(top_left.x, size.width, k))
}
