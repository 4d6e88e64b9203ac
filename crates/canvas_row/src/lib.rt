// One styled row painted on a canvas, whatever figure it is of. The paper adds it; the Rust draws
// through `DrawTarget`.
#![tactic(auto)]

ghost use Rattle.std.specs.Prelude.{◌≡◌, ◌*◌, ◌≤◌, length};
ghost use Rattle.signed.specs.Signed.{Near};
ghost use Rattle.geometry.specs.Bounds.{wide_point, wide_side};
ghost use Rattle.canvas_row.specs.CanvasRow.{paint_by};

use canvas_size::CanvasSize;
use scanline::StyledRuns;
use style::Style;

// Paints a styled row at y, if the canvas has that row.
pub fn paint_row_on(
    canvas: &mut [u8],
    size: CanvasSize,
    row: Option<StyledRuns>,
    style: Style,
    y: i32,
)
    requires canvas_len { length canvas.old ≡ size.width * size.height }
    requires width_le_wide_side { size.width ≤ wide_side }
    requires near { Near wide_point y }
    ensures { canvas.new ≡ paint_by (λ _. row) style size.width size.height y canvas.old }
{
    if y < 0 {
        return;
    }
    let place = signed::floor0(y);
    if size.height <= place {
        return;
    }
    let Some(runs) = row else {
        return;
    };
    canvas::paint_row_at(canvas, size.width, place, runs, style);
}
