// A styled box whose corners are all alike in both areas, and whose fill area lies in the middle of its
// stroke area's rows. Such a box is known by one corner of each area: its upper rows need one search
// for both sides and no test of the corners, and its lower rows mirror the upper ones. The Rust has
// none of it: embedded-graphics 0.8.2 `rounded_rectangle/styled.rs` searches every row from both ends.
#![tactic(auto)]

ghost use Rattle.std.specs.Prelude.{◌≡◌, true, ◌+◌, ◌<◌, ◌≤◌, pos, ◌+ℤ◌};
ghost use Rattle.geometry.specs.Bounds.{wide_side};
ghost use Rattle.scanline.specs.Places.{find_from};
ghost use Rattle.rounded_rectangle.specs.Relative.{Ready, inside_corner, radii};
ghost use Rattle.box_columns.specs.Columns.{covered as columns_covered, left_out};
ghost use Rattle.box_fill.specs.BoxFill.{fill_run};
ghost use Rattle.box_fill.specs.Relative.{NearRun};
ghost use Rattle.styled_row.specs.StyledRow.{box_styled_row};
ghost use Rattle.styled_box.specs.ReadyBox.{ReadyStyledBox};
ghost use Rattle.styled_symmetric.specs.SymmetricBox.{four_corners, symmetric_stroke, symmetric_fill, ReadySymmetric, SymmetricOf, UpperInset};

use box_columns::covered;
use box_mirrored::are_alike;
use box_mirrored_fill::filled_between;
use corner_quadrant::EllipseQuadrant;
use ellipse_search::scan_inside;
use ellipse_styled::{EllipseHints, EllipseRow};
use geometry_range::Range;
use rectangle::Rectangle;
use rounded_rectangle::{Insets, RoundedRectangleContains, run_between};
use styled_box::StyledBox;
use styled_row::around_fill;

// A box whose corners are all alike: each area with one of its corners, how many rows the fill area begins below
// the stroke area, and how many rows at the top, and as many at the bottom, a corner or the border has.
#[derive(Clone, Copy)]
pub struct SymmetricBox {
    pub area: Rectangle,
    pub corner: EllipseQuadrant,
    pub inner: Rectangle,
    pub inner_corner: EllipseQuadrant,
    pub border: u32,
    pub corner_rows: u32,
}

// A fill, and where the next row's is looked for.
#[derive(Clone, Copy)]
struct Filled {
    run: Range,
    hint: u32,
}

// Whether all four corners of a box are alike.
fn corners_alike(b: RoundedRectangleContains) -> bool
    ensures { result ≡ true → radii b ≡ four_corners b.top_left.radius }
{
    let top_left = b.top_left;
    let top_right = b.top_right;
    let bottom_right = b.bottom_right;
    let bottom_left = b.bottom_left;
    let radius = top_left.radius;
    if are_alike(radius, top_right.radius) {
        if are_alike(radius, bottom_right.radius) {
            return are_alike(radius, bottom_left.radius);
        }
    }
    false
}

// The first of n columns from a corner on that is inside on its row e, in a scan of rows from the corner
// on.
fn first_in_corner(corner: EllipseQuadrant, e: u32, n: u32, hint: u32) -> Option<u32>
    requires ready { Ready corner }
    requires e_lt_height { (e < corner.radius.height) × (0 < corner.radius.width) × (n ≤ wide_side) }
    ensures { result ≡ find_from (λ d. inside_corner corner.radius d e) n 0 }
{
    let radius = corner.radius;
    let test = corner.test;
    let y = ellipse::gap(2 * radius.height, e);
    scan_inside(test, 2 * radius.width, y, 0, n, hint)
}

// The inset of a side of n columns on row dy by its upper corner, 0 below that.
fn upper_inset(corner: EllipseQuadrant, dy: u32, n: u32, hint: u32) -> u32
    requires ready { Ready corner }
    requires n_le_wide_side { n ≤ wide_side }
    ensures { UpperInset corner.radius dy n result }
{
    let radius = corner.radius;
    if radius.height <= dy {
        return 0;
    }
    if radius.width == 0 {
        return 0;
    }
    first_in_corner(corner, dy, n, hint).unwrap_or(0)
}

// How many columns a corner leaves out on its row e.
fn corner_left_out(corner: EllipseQuadrant, e: u32, hint: u32) -> u32
    requires { Ready corner }
    ensures { result ≡ left_out corner.radius e (columns_covered corner.radius e) }
{
    let radius = corner.radius;
    let n = covered(radius, e);
    if n == 0 {
        return 0;
    }
    first_in_corner(corner, e, n, hint).unwrap_or(n)
}

impl SymmetricBox {
    // The symmetric box, if it is one: the corners in each area are alike, those on one row of the
    // fill area do not overlap, and the rows that corners or the border have at the top and at the bottom
    // do not meet.
    pub fn new(b: StyledBox) -> Option<SymmetricBox>
        requires { ReadyStyledBox b }
        ensures { SymmetricOf b result }
    {
        let stroke = b.stroke;
        let fill = b.fill;
        if !corners_alike(stroke) {
            return None;
        }
        if !corners_alike(fill) {
            return None;
        }
        let area = b.area;
        let top_left = area.top_left;
        let size = area.size;
        let inner = b.inner;
        let inner_top_left = inner.top_left;
        let inner_size = inner.size;
        let border = scanline::place_of(top_left.y, size.height, inner_top_left.y)?;
        if inner_size.height + 2 * border != size.height {
            return None;
        }
        let corner = stroke.top_left;
        let inner_corner = fill.top_left;
        let radius = corner.radius;
        let inner_radius = inner_corner.radius;
        if inner_size.width < 2 * inner_radius.width {
            return None;
        }
        let corner_rows = signed::most(radius.height, border + inner_radius.height);
        if size.height < 2 * corner_rows {
            return None;
        }
        Some(SymmetricBox {
            area: area,
            corner: corner,
            inner: inner,
            inner_corner: inner_corner,
            border: border,
            corner_rows: corner_rows,
        })
    }

    // The fill of the row dy of the stroke area, none of the lower corners', where `run` is the stroke
    // area's; and where the next row's is looked for.
    fn fill(self, dy: u32, run: Range, hint: u32) -> Filled
        requires ready_symmetric { ReadySymmetric self }
        requires corner_rows_bound { dy + self.corner_rows < self.area.size.height }
        requires near_run { NearRun run }
        ensures { result.run ≡ fill_run (symmetric_fill self) (self.area.top_left.y +ℤ pos dy) run }
    {
        let border = self.border;
        if dy < border {
            return Filled {
                run: Range {
                    start: run.end,
                    end: run.end,
                },
                hint: hint,
            };
        }
        let corner = self.inner_corner;
        let e = dy - border;
        let k = corner_left_out(corner, e, hint);
        let inner = self.inner;
        let top_left = inner.top_left;
        let size = inner.size;
        Filled {
            run: filled_between(top_left.x, size.width, run, k),
            hint: k,
        }
    }

    // The styled row dy of the stroke area, if it is none that the lower corners have.
    pub fn row(self, dy: u32, hints: EllipseHints) -> EllipseRow
        requires ready_symmetric { ReadySymmetric self }
        requires corner_rows_bound { dy + self.corner_rows < self.area.size.height }
        ensures { result.row ≡ box_styled_row (symmetric_stroke self) (symmetric_fill self) (self.area.top_left.y +ℤ pos dy) }
    {
        let area = self.area;
        let top_left = area.top_left;
        let size = area.size;
        let corner = self.corner;
        let stroke_hint = hints.stroke;
        let inset = upper_inset(corner, dy, size.width, stroke_hint);
        let run = run_between(
            top_left.x,
            size.width,
            Insets {
                left: inset,
                right: inset,
            },
        );
        let filled = self.fill(dy, run, hints.fill);
        let fill = filled.run;
        EllipseRow {
            row: Some(around_fill(run, fill)),
            hints: EllipseHints {
                stroke: inset,
                fill: filled.hint,
            },
        }
    }
}
