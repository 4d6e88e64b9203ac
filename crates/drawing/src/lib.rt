// What a canvas call has to know of a figure with its style: whether the two are within limits, which
// rows it has, and one of its rows painted on a canvas. The one-call painting and the sheet stand on
// this; `specs/Drawing.antt` puts it into the book of demand 3.
#![tactic(auto)]

ghost use Rattle.std.specs.Prelude.{◌≡◌, ◌*◌, ◌≤◌, length};
ghost use Rattle.signed.specs.Signed.{Near};
ghost use Rattle.geometry.specs.Bounds.{wide_point, wide_side};
ghost use Rattle.rectangle.specs.Rectangle.{offset as rectangle_offset};
ghost use Rattle.corner.specs.Bounds.{wide_stroke_side};
ghost use Rattle.figure.specs.Bounds.{wide_offset, wide_area_position, OwnRectangle, OwnFigure};
ghost use Rattle.book.specs.Sheet.{paint_row as sheet_paint_row};
ghost use Rattle.drawing.specs.Rows.{box_rows, ellipse_rows, stroke_rows};
ghost use Rattle.drawing.specs.Drawing.{styled_check, styled_figure, drawing};

pub use canvas_row::paint_row_on;
use canvas_size::CanvasSize;
use figure::Figure;
use rectangle::Rectangle;
use refusal::Checked;
use style::Style;

// The rows of a stroke area: the first, or its top if it has none, and how many there are.
#[derive(Clone, Copy)]
pub struct StrokeRows {
    pub first: i32,
    pub count: u32,
}

// Refusals 1, 2, 3 and 5.
#[tactic(auto, unfolding(crate::specs::Drawing::styled_check))]
pub fn check(figure: Figure, style: Style) -> Checked
    ensures { result ≡ styled_check figure style }
{
    figure.check()?;
    style.check()
}

// The rows of a box that is offset by k: each row of its rectangle.
#[tactic(auto, using(figure::proofs::Within::own_area, figure::proofs::Within::area_bounded, figure::proofs::Within::offset_area))]
fn box_rows(rectangle: Rectangle, k: i32) -> StrokeRows
    requires own_rectangle { OwnRectangle rectangle }
    requires near { Near wide_offset k }
    ensures { result ≡ box_rows (rectangle_offset rectangle k) }
{
    let area = rectangle::bounded::offset(rectangle, k);
    let top_left = area.top_left;
    let size = area.size;
    StrokeRows {
        first: top_left.y,
        count: size.height,
    }
}

// The rows of an ellipse that is offset by k: all of its rectangle's, or none.
#[tactic(auto, using(figure::proofs::Within::own_area, figure::proofs::Within::area_bounded, figure::proofs::Within::offset_area))]
fn ellipse_rows(rectangle: Rectangle, k: i32) -> StrokeRows
    requires own_rectangle { OwnRectangle rectangle }
    requires near { Near wide_offset k }
    ensures { result ≡ ellipse_rows (rectangle_offset rectangle k) }
{
    let area = rectangle::bounded::offset(rectangle, k);
    let top_left = area.top_left;
    StrokeRows {
        first: top_left.y,
        count: ellipse_rows::row_count(area),
    }
}

// The rows of a figure's stroke area. Radii play no part, so none are confined.
#[tactic(auto, using(figure::proofs::Within::offset_area, style::proofs::StrokeWidths::outside_within_stroke, crate::proofs::Rows::rows_of_ellipse, crate::proofs::Rows::rows_of_crate_box, crate::proofs::Rows::rows_of_w3c_box, crate::proofs::Rows::box_rows_within, crate::proofs::Rows::ellipse_rows_within))]
pub fn stroke_rows(figure: Figure, style: Style) -> StrokeRows
    requires own_figure { OwnFigure figure }
    requires stroke_width_bound { style.stroke_width ≤ wide_offset }
    ensures value { result ≡ stroke_rows figure style }
    ensures near { Near wide_area_position result.first × (result.count ≤ wide_stroke_side) }
{
    let outside = signed::from_u32(style.outside_stroke_width());
    match figure {
        Figure::Ellipse(rectangle) => ellipse_rows(rectangle, outside),
        Figure::CrateBox(b) => box_rows(b.rectangle, outside),
        Figure::W3cBox(b) => box_rows(b.rectangle, outside),
    }
}

// Paints the figure's row at y, if the canvas has that row.
pub fn paint_row(canvas: &mut [u8], size: CanvasSize, figure: Figure, style: Style, y: i32)
    requires canvas_len { length canvas.old ≡ size.width * size.height }
    requires width_le_wide_side { size.width ≤ wide_side }
    requires own_figure { OwnFigure figure }
    requires stroke_width_bound { style.stroke_width ≤ wide_offset }
    requires near { Near wide_point y }
    ensures { canvas.new ≡ sheet_paint_row drawing size.width size.height (styled_figure figure style) y
        canvas.old }
{
    paint_row_on(canvas, size, styled::row_at(figure, style, y), style, y);
}
