// The call that lists a figure's points, for a host that gives numbers: the figure is read from them, and
// the answer told as one number, with the number of points in a lent list. Only where the answer is 0 has
// anything been written.
#![tactic(auto)]

ghost use Rattle.std.specs.Prelude.{◌≡◌, length};
ghost use Rattle.host_answers.specs.HostAnswers.{Tells};
ghost use Rattle.host_points.specs.Points.{points_said, pairs_after};

use host_answers::NO_RECORD;
use host_records::{figure_of, is_figure};
use host_values::put_count;
use refusal::check_room;

// The points into a list, and their number. Refused by 1, 2, 3 and 13.
#[tactic(auto, using(refusal::proofs::Checks::and_or_else, host_records::proofs::Records::figure_length_lem, host_answers::proofs::Telling::tells_as))]
pub fn points(figure: &[i32], list: &mut [i32], out: &mut [i32]) -> u32
    ensures tells { Tells (points_said figure.now list.old (length out.old)) out.old result
        out.new }
    ensures list_after { list.new ≡ pairs_after figure.now list.old (length out.old) }
{
    if !is_figure(figure) {
        return NO_RECORD;
    }
    let given = figure_of(figure);
    if let Err(refusal) = given.check().and(check_room(1, out.len())) {
        return refusal.number();
    }
    match figure_points::points(given, list) {
        Err(refusal) => refusal.number(),
        Ok(n) => put_count(n, out),
    }
}
