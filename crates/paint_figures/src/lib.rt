// All rows of a figure with its style that a canvas has, painted. Areas and tests are made once for the
// figure, and its rows painted by crates paint_rows and paint_boxes. For callers that have made the checks.
#![tactic(auto)]

ghost use Rattle.std.specs.Prelude.{◌≡◌, ◌*◌, ◌≤◌, length};
ghost use Rattle.signed.specs.Signed.{Near};
ghost use Rattle.geometry.specs.Bounds.{wide_side};
ghost use Rattle.corner.specs.Bounds.{wide_stroke_side};
ghost use Rattle.figure.specs.Bounds.{wide_offset, wide_area_position, OwnFigure, BoundedShape};
ghost use Rattle.book.specs.Whole.{paint_whole};
ghost use Rattle.drawing.specs.Rows.{rows_of_shape};
ghost use Rattle.drawing.specs.Drawing.{styled_figure, drawing};
ghost use Rattle.paint_figures.specs.Rows.{visible_rows};

use canvas_size::CanvasSize;
use drawing::StrokeRows;
use figure::{Figure, Shape};
use style::Style;
use styled_scan::StyledShape;

// The rows of a stroke area, by its shape: those that `drawing::stroke_rows` finds from the figure.
// The shape is at hand here; to offset the figure for its rows alone takes longer (docs/SPEED.md).
fn shape_rows(shape: Shape) -> StrokeRows
    requires { BoundedShape shape }
    ensures value { result ≡ rows_of_shape shape }
    ensures near { Near wide_area_position result.first × (result.count ≤ wide_stroke_side) }
{
    match shape {
        Shape::Ellipse(area) => {
            let top_left = area.top_left;
            StrokeRows {
                first: top_left.y,
                count: ellipse_rows::row_count(area),
            }
        }
        Shape::RoundedBox(b) => {
            let area = b.rectangle;
            let top_left = area.top_left;
            let size = area.size;
            StrokeRows {
                first: top_left.y,
                count: size.height,
            }
        }
    }
}

// The rows of a figure that a canvas of this height has.
fn visible(rows: StrokeRows, height: u32) -> StrokeRows
    requires { Near wide_area_position rows.first × (rows.count ≤ wide_stroke_side) × (height ≤ wide_side) }
    ensures value { result ≡ visible_rows rows height }
    ensures near { Near wide_area_position result.first × (result.count ≤ wide_stroke_side) }
{
    let above = signed::least(signed::floor0(signed::sub(0, rows.first)), rows.count);
    let first = signed::add(rows.first, signed::from_u32(above));
    let room = signed::floor0(signed::sub(signed::from_u32(height), first));
    StrokeRows {
        first: first,
        count: signed::least(rows.count - above, room),
    }
}

// Paints every row of the figure that the canvas has. Rows above the canvas and below it are left out
// at once.
pub fn paint_whole(canvas: &mut [u8], size: CanvasSize, figure: Figure, style: Style)
    requires canvas_len { length canvas.old ≡ size.width * size.height }
    requires width_le_wide_side { (size.width ≤ wide_side) × (size.height ≤ wide_side) }
    requires own_figure { OwnFigure figure }
    requires stroke_width_bound { style.stroke_width ≤ wide_offset }
    ensures { canvas.new ≡ paint_whole drawing size.width size.height (styled_figure figure style)
        canvas.old }
{
    let stroke = styled_areas::stroke_shape(figure, style);
    let fill = styled_areas::fill_shape(figure, style);
    let seen = visible(shape_rows(stroke), size.height);
    match StyledShape::new(stroke, fill) {
        Some(StyledShape::Ellipse(ellipse)) => {
            paint_rows::paint_ellipse(canvas, size, ellipse, style, seen.first, seen.count)
        }
        Some(StyledShape::RoundedBox(b)) => {
            paint_boxes::paint_box(canvas, size, b, style, seen.first, seen.count)
        }
        None => {}
    }
}
