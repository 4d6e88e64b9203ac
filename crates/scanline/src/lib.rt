// Rows of figures, and the places of columns and rows in them, after embedded-graphics 0.8.2
// `common/scanline.rs`. Inside a figure's box columns and rows are counted from a corner, unsigned;
// the leaves here carry signed columns to places and back.
#![tactic(auto)]

ghost use Rattle.std.specs.Prelude.{◌≡◌, ◌+◌, ◌*◌, ◌≤◌, pos, ◌+ℤ◌, ◌-ℤ◌, length};
ghost use Rattle.std.proofs.lemmas.List.Edits.{sets};
ghost use Rattle.signed.specs.Signed.{Near, Is};
ghost use Rattle.geometry.specs.Bounds.{wide_side, wide_point};
ghost use Rattle.scanline.specs.Places.{Placed};
ghost use Rattle.scanline.specs.Points.{run_points, entries};

use geometry_range::Range;

// A row of a figure: its y and its run. Where the caller has the y, a row is its run alone, or `None` where the
// figure lacks it; a styled row likewise is its `StyledRuns`.
#[derive(Clone, Copy)]
pub struct Scanline {
    pub y: i32,
    pub x: Range,
}

// A row of a styled figure: its y and three runs, after `common/styled_scanline.rs`, which holds the
// whole run and the fill and makes the two stroke runs of them.
#[derive(Clone, Copy)]
pub struct StyledScanline {
    pub y: i32,
    pub stroke_left: Range,
    pub fill: Range,
    pub stroke_right: Range,
}

// The three runs without the y, which rows that are alike share.
#[derive(Clone, Copy)]
pub struct StyledRuns {
    pub stroke_left: Range,
    pub fill: Range,
    pub stroke_right: Range,
}

// The place of v among the n columns or rows from `first` on, if it is at one of them.
pub fn place_of(first: i32, n: u32, v: i32) -> Option<u32>
    requires near { Near wide_point first }
    requires n_le_wide_side { n ≤ wide_side }
    requires near_2 { Near wide_point v }
    ensures { Placed first n v result }
{
    if v < first {
        return None;
    }
    let k = signed::floor0(signed::sub(v, first));
    if n <= k {
        return None;
    }
    Some(k)
}

// The column k places after the first.
pub fn from_first(first: i32, k: u32) -> i32
    requires near { Near wide_point first }
    requires k_le_wide_side { k ≤ wide_side }
    ensures { Is (first +ℤ pos k) result }
{
    signed::add(first, signed::from_u32(k))
}

// The column k places before the end of n.
pub fn before_end(first: i32, n: u32, k: u32) -> i32
    requires near { Near wide_point first }
    requires n_le_wide_side { (n ≤ wide_side) × (k ≤ n) }
    ensures { Is (first +ℤ pos n -ℤ pos k) result }
{
    signed::sub(from_first(first, n), signed::from_u32(k))
}

// Writes the points of the n columns from `start` on in row y, as x, y pairs from index `at` on,
// and answers the index past them.
pub fn put_run(list: &mut [i32], at: usize, y: i32, start: i32, n: u32) -> usize
    requires n_in_bounds { at + 2 * n ≤ length list.old }
    requires near { Near (2 * wide_point) start }
    requires n_le_wide_side { n ≤ wide_side }
    ensures { (result ≡ at + 2 * n) × (list.new ≡ sets list.old at (entries (run_points y start n))) }
{
    let mut i = at;
    for k in 0..n {
        list[i] = signed::add(start, signed::from_u32(k));
        list[i + 1] = y;
        i += 2;
    }
    i
}
