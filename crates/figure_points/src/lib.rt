// The points of a figure as x, y pairs, after embedded-graphics 0.8.2 both `points.rs` (`Points`): a
// pass that counts, so that a list too short is refused before anything is written, and one that
// writes. Both walk the rows by the same tests: a walk for both would ask in each row which of the two
// it is, and a function for the tests alone would leave both walks as they are.
#![tactic(auto)]

ghost use Rattle.std.specs.Prelude.{◌≡◌, ◌*◌, ◌≤◌, length};
ghost use Rattle.std.proofs.lemmas.List.Edits.{sets};
ghost use Rattle.signed.specs.Signed.{Near};
ghost use Rattle.geometry.specs.Bounds.{wide_side, wide_point};
ghost use Rattle.scanline.specs.Points.{run_length, entries};
ghost use Rattle.figure.specs.Bounds.{BoundedShape};
ghost use Rattle.figure.specs.Figure.{points_of_shape};
ghost use Rattle.figure_points.specs.Points.{points_outcome, points_call, list_after};

use figure::{Figure, Shape};
use geometry_range::Range;
use refusal::{Refusal, check_room};

// The number of columns in a run.
fn run_length(run: Range) -> u32
    requires near { Near (2 * wide_point) run.start }
    requires near_2 { Near (2 * wide_point) run.end }
    ensures { result ≡ run_length run }
{
    signed::floor0(signed::sub(run.end, run.start))
}

// The number of points.
fn count_points(shape: Shape) -> u32
    requires { BoundedShape shape }
    ensures { (result ≡ length (points_of_shape shape)) × (result ≤ wide_side * wide_side) }
{
    let rectangle = shape.rectangle();
    let top_left = rectangle.top_left;
    let size = rectangle.size;
    let top = top_left.y;
    let height = size.height;
    let mut n: u32 = 0;
    for dy in 0..height {
        let Some(run) = shape.row(scanline::from_first(top, dy)) else {
            return n;
        };
        if run.is_empty() {
            return n;
        }
        n += run_length(run);
    }
    n
}

// Writes the points from the list's start on.
fn put_points(shape: Shape, list: &mut [i32])
    requires bounded_shape { BoundedShape shape }
    requires shape_in_bounds { 2 * length (points_of_shape shape) ≤ length list.old }
    ensures { list.new ≡ sets list.old 0 (entries (points_of_shape shape)) }
{
    let rectangle = shape.rectangle();
    let top_left = rectangle.top_left;
    let size = rectangle.size;
    let top = top_left.y;
    let height = size.height;
    let mut at: usize = 0;
    for dy in 0..height {
        let y = scanline::from_first(top, dy);
        let Some(run) = shape.row(y) else {
            return;
        };
        if run.is_empty() {
            return;
        }
        at = scanline::put_run(list, at, y, run.start, run_length(run));
    }
}

// Lists the points as x, y pairs from the list's start on, and answers their number. Refused by 1, 2, 3 and 13; then the list stays as it is.
#[tactic(auto, using(figure::proofs::Within::figure_passed, figure::proofs::Within::own_figure_bounded, crate::proofs::Listed::room_passed), unfolding(crate::specs::Points::points_check))]
pub fn points(figure: Figure, list: &mut [i32]) -> Result<u32, Refusal>
    ensures result_value { points_outcome result ≡ points_call figure list.old }
    ensures list_after { list.new ≡ list_after figure list.old }
{
    figure.check()?;
    let shape = figure.shape();
    let count = count_points(shape);
    check_room(2 * (count as usize), list.len())?;
    put_points(shape, list);
    Ok(count)
}
