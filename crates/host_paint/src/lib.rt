// A figure painted on a canvas in one call, for a host that gives numbers. The answer is one number; only
// where it is 0 has anything been written.
#![tactic(auto)]

ghost use Rattle.std.specs.Prelude.{◌≡◌};
ghost use Rattle.host_answers.specs.HostAnswers.{outcome_number};
ghost use Rattle.host_paint.specs.Paint.{paint_said, painted_after};

use host_answers::{DONE, NO_RECORD};
use host_records::{figure_of, is_figure, is_style, style_of};

// The figure painted on the canvas. Refused by 1, 2, 3, 5, 6 and 8.
#[tactic(auto, using(host_records::proofs::Records::figure_length_lem, host_records::proofs::Records::style_length_lem))]
pub fn paint_figure(
    figure: &[i32],
    style: &[i32],
    width: u32,
    height: u32,
    canvas: &mut [u8],
) -> u32
    ensures value { result ≡ outcome_number (paint_said figure.now style.now width height canvas.old) }
    ensures canvas_after { canvas.new ≡ painted_after figure.now style.now width height canvas.old }
{
    if !is_figure(figure) {
        return NO_RECORD;
    }
    if !is_style(style) {
        return NO_RECORD;
    }
    match paint::paint_figure(figure_of(figure), style_of(style), width, height, canvas) {
        Err(refusal) => refusal.number(),
        Ok(()) => DONE,
    }
}
