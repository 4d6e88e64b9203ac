// The calls on styled figures for a host that gives numbers: figure and style are read from them, the
// call made, and its answer told as one number, with the values in a lent list.
#![tactic(auto)]

ghost use Rattle.host_answers.specs.HostAnswers.{Tells};
ghost use Rattle.host_styled.specs.Styled.{styled_row_said, styled_bounding_box_said};

use host_answers::{NO_RECORD, NOTHING};
use host_records::{figure_of, is_figure, is_style, style_of};
use host_values::{put_rectangle, put_styled_row};

// A styled row's y and its three runs. Refused by 1, 2, 3, 4, 5 and 13.
#[tactic(auto, using(host_records::proofs::Records::figure_length_lem, host_records::proofs::Records::style_length_lem, host_answers::proofs::Telling::tells_as))]
pub fn styled_row(figure: &[i32], style: &[i32], y: i32, out: &mut [i32]) -> u32
    ensures { Tells (styled_row_said figure.now style.now y) out.old result out.new }
{
    if !is_figure(figure) {
        return NO_RECORD;
    }
    if !is_style(style) {
        return NO_RECORD;
    }
    match styled::styled_row(figure_of(figure), style_of(style), y) {
        Err(refusal) => refusal.number(),
        Ok(None) => NOTHING,
        Ok(Some(row)) => put_styled_row(row, out),
    }
}

// The rectangle that a styled figure keeps to. Refused by 1, 2, 3, 5 and 13.
#[tactic(auto, using(host_records::proofs::Records::figure_length_lem, host_records::proofs::Records::style_length_lem, host_answers::proofs::Telling::tells_as))]
pub fn styled_bounding_box(figure: &[i32], style: &[i32], out: &mut [i32]) -> u32
    ensures { Tells (styled_bounding_box_said figure.now style.now) out.old result out.new }
{
    if !is_figure(figure) {
        return NO_RECORD;
    }
    if !is_style(style) {
        return NO_RECORD;
    }
    match styled::styled_bounding_box(figure_of(figure), style_of(style)) {
        Err(refusal) => refusal.number(),
        Ok(rectangle) => put_rectangle(rectangle, out),
    }
}
