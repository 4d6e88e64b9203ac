// One run painted onto a row of a canvas, as far as the row goes: what the pixel iterators of
// embedded-graphics 0.8.2 `ellipse/styled.rs` and `rounded_rectangle/styled.rs` do pixel by pixel.
#![tactic(auto)]

ghost use Rattle.std.specs.Prelude.{◌≡◌, ◌≤◌, length, replicate};
ghost use Rattle.geometry.specs.Bounds.{wide_side};
ghost use Rattle.canvas_run.specs.Run.{run_over};
ghost use Rattle.canvas_run.specs.Columns.{clipped, columns_over};

use geometry_range::Range;

// Columns of a row, from `from` up to but not including `to`.
#[derive(Clone, Copy)]
pub struct Columns {
    pub from: u32,
    pub to: u32,
}

// The columns of a run that a row of this width has.
#[tactic(auto, using(crate::proofs::Runs::columns_by_fields), unfolding(crate::specs::Columns::clipped))]
pub fn clip(run: Range, width: u32) -> Columns
    ensures { result ≡ clipped run width }
{
    let to = signed::least(signed::floor0(run.end), width);
    let from = signed::least(signed::floor0(run.start), to);
    Columns { from: from, to: to }
}

// Makes a whole part one colour: a plain loop, of which the compiler makes one memset; of std's `fill` it makes
// a memset of all but the last byte and a store.
fn fill(part: &mut [u8], colour: u8)
    ensures { part.new ≡ replicate (length part.old) colour }
{
    for byte in part.iter_mut() {
        *byte = colour;
    }
}

// Makes the columns from `from` up to `to` one colour.
#[tactic(auto, using(crate::proofs::Runs::lent_columns_set))]
fn fill_columns(row: &mut [u8], from: u32, to: u32, colour: u8)
    requires { (from ≤ to) × (to ≤ length row.old) }
    ensures { row.new ≡ columns_over from to colour row.old }
{
    let start = from as usize;
    let end = to as usize;
    fill(&mut row[start..end], colour);
}

// Paints a run, as far as the row goes.
pub fn paint_run(row: &mut [u8], run: Range, paint: Option<u8>)
    requires { length row.old ≤ wide_side }
    ensures { row.new ≡ run_over run paint row.old }
{
    let Some(colour) = paint else {
        return;
    };
    let columns = clip(run, row.len() as u32);
    fill_columns(row, columns.from, columns.to, colour);
}
