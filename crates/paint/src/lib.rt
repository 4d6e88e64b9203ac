// A figure with its style painted in one call, without a sheet, on a canvas given with its width and
// height. Document 01 adds it; in the Rust it is `pixels` drawn to a target. Its checks
// stand here, its rows are painted by crate paint_figures.
#![tactic(auto)]

ghost use Rattle.std.specs.Prelude.{◌≡◌};
ghost use Rattle.paint.specs.Paint.{paint_outcome, paint_call, canvas_after};

use canvas_size::CanvasSize;
use figure::Figure;
use paint_figures::paint_whole;
use refusal::Checked;
use style::Style;

// Paints the figure on the canvas, width by height pixels. Refused by 1, 2, 3, 5, 6 and 8.
#[tactic(auto, unfolding(crate::specs::Paint::paint_check))]
pub fn paint_figure(
    figure: Figure,
    style: Style,
    width: u32,
    height: u32,
    canvas: &mut [u8],
) -> Checked
    ensures result_value { paint_outcome result ≡ paint_call figure style width height canvas.old }
    ensures canvas_after { canvas.new ≡ canvas_after figure style width height canvas.old }
{
    let size = CanvasSize {
        width: width,
        height: height,
    };
    drawing::check(figure, style)?;
    size.check()?;
    size.check_length(canvas.len())?;
    paint_whole(canvas, size, figure, style);
    Ok(())
}
