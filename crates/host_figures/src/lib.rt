// The calls on figures for a host that gives numbers: the figure is read from them, the call made, and
// its answer told as one number, with the values in a lent list. Only where the answer is 0 has
// anything been written.
#![tactic(auto)]

ghost use Rattle.host_answers.specs.HostAnswers.{Tells};
ghost use Rattle.host_figures.specs.Figures.{contains_said, row_said, offset_said, confined_radii_said, ellipse_with_center_said};

use figure::Figure;
use geometry::{Point, Size};
use host_answers::{NO_RECORD, NOTHING};
use host_records::{figure_of, is_figure};
use host_values::{put_confined_radii, put_figure, put_flag, put_row};

// Whether a point is inside, as 1 or 0. Refused by 1, 2, 3, 4 and 13.
#[tactic(auto, using(host_records::proofs::Records::figure_length_lem, host_answers::proofs::Telling::tells_as))]
pub fn contains(figure: &[i32], x: i32, y: i32, out: &mut [i32]) -> u32
    ensures { Tells (contains_said figure.now x y) out.old result out.new }
{
    if !is_figure(figure) {
        return NO_RECORD;
    }
    match figure_of(figure).contains(Point { x: x, y: y }) {
        Err(refusal) => refusal.number(),
        Ok(inside) => put_flag(inside, out),
    }
}

// A row's y and its run. Refused by 1, 2, 3, 4 and 13.
#[tactic(auto, using(host_records::proofs::Records::figure_length_lem, host_answers::proofs::Telling::tells_as))]
pub fn row(figure: &[i32], y: i32, out: &mut [i32]) -> u32
    ensures { Tells (row_said figure.now y) out.old result out.new }
{
    if !is_figure(figure) {
        return NO_RECORD;
    }
    match figure_of(figure).row(y) {
        Err(refusal) => refusal.number(),
        Ok(None) => NOTHING,
        Ok(Some(row)) => put_row(row, out),
    }
}

// The figure offset by k. Refused by 1, 2, 3, 5 and 13.
#[tactic(auto, using(host_records::proofs::Records::figure_length_lem, host_answers::proofs::Telling::tells_as))]
pub fn offset(figure: &[i32], k: i32, out: &mut [i32]) -> u32
    ensures { Tells (offset_said figure.now k) out.old result out.new }
{
    if !is_figure(figure) {
        return NO_RECORD;
    }
    match figure_of(figure).offset(k) {
        Err(refusal) => refusal.number(),
        Ok(moved) => put_figure(moved, out),
    }
}

// The radii as confined to the box, with L and S. Refused by 1, 2, 3 and 13.
#[tactic(auto, using(host_records::proofs::Records::figure_length_lem, host_answers::proofs::Telling::tells_as))]
pub fn confined_radii(figure: &[i32], out: &mut [i32]) -> u32
    ensures { Tells (confined_radii_said figure.now) out.old result out.new }
{
    if !is_figure(figure) {
        return NO_RECORD;
    }
    match figure_of(figure).confined_radii() {
        Err(refusal) => refusal.number(),
        Ok(None) => NOTHING,
        Ok(Some(confined)) => put_confined_radii(confined, out),
    }
}

// The ellipse of a size about a centre. Refused by 1, 3 and 13.
#[tactic(auto, using(host_answers::proofs::Telling::tells_as))]
pub fn ellipse_with_center(x: i32, y: i32, width: u32, height: u32, out: &mut [i32]) -> u32
    ensures { Tells (ellipse_with_center_said x y width height) out.old result out.new }
{
    let size = Size {
        width: width,
        height: height,
    };
    match Figure::ellipse_with_center(Point { x: x, y: y }, size) {
        Err(refusal) => refusal.number(),
        Ok(made) => put_figure(made, out),
    }
}
