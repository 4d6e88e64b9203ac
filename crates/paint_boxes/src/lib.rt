// The rows of a box made ready, painted. Where all rows of a symmetric box are asked for it is painted from
// both ends inward, two rows by one search, and then the rows between by one row; any other box goes row by
// row (crate paint_rows). For callers that have made the checks.
#![tactic(auto)]

ghost use Rattle.std.specs.Prelude.{◌≡◌, ◌-◌, ◌*◌, ◌<◌, ◌≤◌, length};
ghost use Rattle.signed.specs.Signed.{Near};
ghost use Rattle.geometry.specs.Bounds.{wide_side};
ghost use Rattle.corner.specs.Bounds.{wide_stroke_side};
ghost use Rattle.figure.specs.Bounds.{wide_area_position};
ghost use Rattle.styled_row.specs.StyledRow.{box_styled_row};
ghost use Rattle.styled_box.specs.ReadyBox.{stroke_box, fill_box, ReadyStyledBox};
ghost use Rattle.styled_symmetric.specs.SymmetricBox.{symmetric_stroke, symmetric_fill, ReadySymmetric};
ghost use Rattle.paint_rows.specs.Rows.{wide_painted, rows_by};
ghost use Rattle.paint_boxes.specs.Spaced.{spaced_by, SpacedNear, TurnAt};
ghost use Rattle.paint_boxes.specs.Whole.{WholeSymmetric};

use canvas_size::CanvasSize;
use ellipse_search::ANYWHERE;
use ellipse_styled::EllipseHints;
use scanline::StyledRuns;
use style::Style;
use styled_box::StyledBox;
use styled_symmetric::SymmetricBox;

// The rows that a turn paints: how far from one to the next, how many, and the row of the next turn.
#[derive(Clone, Copy)]
struct Turn {
    step: u32,
    count: u32,
    next: u32,
}

// The rows that are painted like row dy: while there are pairs of rows that mirror each other those
// two, and then all rows between the pairs.
fn turn_at(height: u32, pairs: u32, dy: u32) -> Turn
    requires { (2 * pairs ≤ height) × (dy < height - pairs) }
    ensures { TurnAt height pairs dy result }
{
    if dy < pairs {
        return Turn {
            step: height - 1 - 2 * dy,
            count: 2,
            next: dy + 1,
        };
    }
    Turn {
        step: 1,
        count: height - pairs - dy,
        next: height - pairs,
    }
}

// Paints one styled row on so many canvas rows, from row y on and each a step below the one before.
fn paint_spaced_rows(
    canvas: &mut [u8],
    size: CanvasSize,
    row: Option<StyledRuns>,
    style: Style,
    y: i32,
    step: u32,
    count: u32,
)
    requires canvas_len { length canvas.old ≡ size.width * size.height }
    requires width_le_wide_side { size.width ≤ wide_side }
    requires near { Near wide_painted y × (step ≤ wide_stroke_side) × SpacedNear y step count }
    ensures { canvas.new ≡ spaced_by row style size.width size.height y step count canvas.old }
{
    let mut row_y = y;
    for _ in 0..count {
        drawing::paint_row_on(canvas, size, row, style, row_y);
        row_y = signed::add(row_y, signed::from_u32(step));
    }
}

// Paints all rows of a symmetric box.
fn paint_symmetric_box(canvas: &mut [u8], size: CanvasSize, b: SymmetricBox, style: Style)
    requires canvas_len { length canvas.old ≡ size.width * size.height }
    requires width_le_wide_side { size.width ≤ wide_side }
    requires ready_symmetric { ReadySymmetric b }
    ensures { canvas.new ≡ rows_by (box_styled_row (symmetric_stroke b) (symmetric_fill b)) style size.width size.height
        b.area.top_left.y b.area.size.height canvas.old }
{
    let area = b.area;
    let top_left = area.top_left;
    let sides = area.size;
    let mut hints = EllipseHints {
        stroke: ANYWHERE,
        fill: ANYWHERE,
    };
    let turns = sides.height - b.corner_rows;
    let mut dy: u32 = 0;
    // A while: the turn says which row is next.
    while dy < turns {
        let row_y = signed::add(top_left.y, signed::from_u32(dy));
        let found = b.row(dy, hints);
        let row = found.row;
        let turn = turn_at(sides.height, b.corner_rows, dy);
        paint_spaced_rows(canvas, size, row, style, row_y, turn.step, turn.count);
        hints = found.hints;
        dy = turn.next;
    }
}

// The symmetric box, if it is one and the rows are all of its rows.
fn whole_symmetric_box(b: StyledBox, y: i32, count: u32) -> Option<SymmetricBox>
    requires { ReadyStyledBox b }
    ensures { WholeSymmetric b y count result }
{
    let area = b.area;
    let top_left = area.top_left;
    let sides = area.size;
    if y < top_left.y {
        return None;
    }
    if top_left.y < y {
        return None;
    }
    if count != sides.height {
        return None;
    }
    SymmetricBox::new(b)
}

// Paints so many rows of a box made ready, from row y on.
pub fn paint_box(
    canvas: &mut [u8],
    size: CanvasSize,
    b: StyledBox,
    style: Style,
    y: i32,
    count: u32,
)
    requires canvas_len { length canvas.old ≡ size.width * size.height }
    requires width_le_wide_side { size.width ≤ wide_side }
    requires ready_styled_box { ReadyStyledBox b }
    requires near { Near wide_area_position y × (count ≤ wide_stroke_side) }
    ensures { canvas.new ≡ rows_by (box_styled_row (stroke_box b) (fill_box b)) style size.width size.height y count
        canvas.old }
{
    let Some(symmetric) = whole_symmetric_box(b, y, count) else {
        paint_rows::paint_box_rows(canvas, size, b, style, y, count);
        return;
    };
    paint_symmetric_box(canvas, size, symmetric, style);
}
