// The rows of a figure made ready, painted one after another. Tests are made once for the figure, and
// each row hands its hints to the next; rows that are alike, and rows that mirror each other, are found
// once. For callers that have made the checks.
#![tactic(auto)]

ghost use Rattle.std.specs.Prelude.{◌≡◌, ◌*◌, ◌≤◌, length};
ghost use Rattle.signed.specs.Signed.{Near};
ghost use Rattle.geometry.specs.Bounds.{wide_side};
ghost use Rattle.corner.specs.Bounds.{wide_stroke_side};
ghost use Rattle.figure.specs.Bounds.{wide_area_position};
ghost use Rattle.ellipse_styled.specs.EllipseStyled.{ellipse_styled_row};
ghost use Rattle.ellipse_styled.specs.Relative.{ReadyEllipse};
ghost use Rattle.styled_row.specs.StyledRow.{box_styled_row};
ghost use Rattle.styled_box.specs.ReadyBox.{stroke_box, fill_box, ReadyStyledBox};
ghost use Rattle.paint_rows.specs.Rows.{wide_painted, twice_by, rows_by, Mirrored};

use canvas_size::CanvasSize;
use ellipse_search::ANYWHERE;
use ellipse_styled::{EllipseHints, StyledEllipse};
use scanline::StyledRuns;
use style::Style;
use styled_box::{RowHints, StyledBox};

// How many pairs of rows mirror each other: half of an ellipse's rows where all of them are to be
// painted, else none.
fn mirrored_pairs(ellipse: StyledEllipse, y: i32, count: u32) -> u32
    ensures { Mirrored ellipse.area y count result }
{
    let area = ellipse.area;
    let top_left = area.top_left;
    let sides = area.size;
    if y < top_left.y {
        return 0;
    }
    if top_left.y < y {
        return 0;
    }
    if count != sides.height {
        return 0;
    }
    count / 2
}

// Paints one styled row at row y, and if it is to be painted twice at another row too.
fn paint_twice(
    canvas: &mut [u8],
    size: CanvasSize,
    row: Option<StyledRuns>,
    style: Style,
    y: i32,
    other: i32,
    twice: bool,
)
    requires canvas_len { length canvas.old ≡ size.width * size.height }
    requires width_le_wide_side { size.width ≤ wide_side }
    requires near { Near wide_painted y × Near wide_painted other }
    ensures { canvas.new ≡ twice_by row style size.width size.height y other twice canvas.old }
{
    drawing::paint_row_on(canvas, size, row, style, y);
    if !twice {
        return;
    }
    drawing::paint_row_on(canvas, size, row, style, other);
}

// Paints so many rows of an ellipse made ready, from row y on. The lower half of the rows mirrors the
// upper half, so that two are painted by one; a row in the middle, and all of them where some are not on
// the canvas, are painted by themselves.
pub fn paint_ellipse(
    canvas: &mut [u8],
    size: CanvasSize,
    ellipse: StyledEllipse,
    style: Style,
    y: i32,
    count: u32,
)
    requires canvas_len { length canvas.old ≡ size.width * size.height }
    requires width_le_wide_side { size.width ≤ wide_side }
    requires ready_ellipse { ReadyEllipse ellipse }
    requires near { Near wide_area_position y × (count ≤ wide_stroke_side) }
    ensures { canvas.new ≡ rows_by (ellipse_styled_row ellipse.area ellipse.sides) style size.width
        size.height y count canvas.old }
{
    let pairs = mirrored_pairs(ellipse, y, count);
    let mut hints = EllipseHints {
        stroke: ANYWHERE,
        fill: ANYWHERE,
    };
    let turns = count - pairs;
    for dy in 0..turns {
        let row_y = signed::add(y, signed::from_u32(dy));
        let mirrored_y = signed::add(y, signed::from_u32(count - 1 - dy));
        let found = ellipse.row(row_y, hints);
        let row = found.row;
        let twice = dy < pairs;
        paint_twice(canvas, size, row, style, row_y, mirrored_y, twice);
        hints = found.hints;
    }
}

// Paints one styled row on so many canvas rows, from row y on.
fn paint_alike_rows(
    canvas: &mut [u8],
    size: CanvasSize,
    row: Option<StyledRuns>,
    style: Style,
    y: i32,
    count: u32,
)
    requires canvas_len { length canvas.old ≡ size.width * size.height }
    requires width_le_wide_side { size.width ≤ wide_side }
    requires near { Near wide_painted y × (count ≤ wide_stroke_side) }
    ensures { canvas.new ≡ rows_by (λ _. row) style size.width size.height y count canvas.old }
{
    for dy in 0..count {
        let row_y = signed::add(y, signed::from_u32(dy));
        drawing::paint_row_on(canvas, size, row, style, row_y);
    }
}

// Paints so many rows of a box made ready, from row y on. Rows that are alike are looked for once.
pub fn paint_box_rows(
    canvas: &mut [u8],
    size: CanvasSize,
    b: StyledBox,
    style: Style,
    y: i32,
    count: u32,
)
    requires canvas_len { length canvas.old ≡ size.width * size.height }
    requires width_le_wide_side { size.width ≤ wide_side }
    requires ready_styled_box { ReadyStyledBox b }
    requires near { Near wide_area_position y × (count ≤ wide_stroke_side) }
    ensures { canvas.new ≡ rows_by (box_styled_row (stroke_box b) (fill_box b)) style size.width size.height y count
        canvas.old }
{
    let mut hints = RowHints::none();
    let mut dy: u32 = 0;
    // A while: a turn paints as many rows as are alike.
    while dy < count {
        let row_y = signed::add(y, signed::from_u32(dy));
        let found = b.row(row_y, hints);
        let row = found.row;
        let alike = signed::least(b.rows_alike(row_y), count - dy);
        paint_alike_rows(canvas, size, row, style, row_y, alike);
        hints = found.hints;
        dy += alike;
    }
}
