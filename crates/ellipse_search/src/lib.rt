// The first inside column of a row, after embedded-graphics 0.8.2 `ellipse/points.rs` (`Scanlines`),
// which looks from the left. Up to the middle the test once true stays true, so here it is found by
// halving, or from a column that is supposed near. Each search forms the test of its row once, and goes
// from column to column by that.
#![tactic(auto)]

ghost use Rattle.std.specs.Prelude.{◌≡◌, true, ◌+◌, ◌-◌, ◌/◌, ◌<◌, ◌≤◌};
ghost use Rattle.geometry.specs.Bounds.{wide_side};
ghost use Rattle.scanline.specs.Places.{find_from};
ghost use Rattle.ellipse.specs.Relative.{wide_distance, wide_side_square, SmallWeights};
ghost use Rattle.ellipse.specs.Row.{SmallWeight};
ghost use Rattle.ellipse_search.specs.Search.{column_inside, NearestOf};
ghost use Rattle.ellipse_search.specs.Row.{column_on_row};

use ellipse::{EllipseContains, RowContains};

// The test at a column at or before the middle, where the distance is a plain difference.
fn inside_left(row: RowContains, width: u32, k: u32) -> bool
    requires small_weight { SmallWeight row }
    requires width_le_wide_side { (width ≤ wide_side) × (k < width) × (k ≤ (width - 1) / 2) }
    ensures { result ≡ column_on_row row width k }
{
    row.contains(signed::wide(width - 1 - 2 * k))
}

// Of the `count` columns from `from` on, if there are any, the one nearest to the middle: the middle, or
// the last of them. Up to it the test once true stays true.
fn nearest_column(width: u32, from: u32, count: u32) -> Option<u32>
    requires width_nonzero { (0 < width) × (width ≤ wide_side) }
    requires from_bound { (from ≤ (width - 1) / 2) × (count ≤ wide_side) }
    ensures { NearestOf width from count result }
{
    if count == 0 {
        return None;
    }
    Some(signed::least((width - 1) / 2, from + count - 1))
}

// The first inside column of the `count` from `from` on, by halving.
fn first_on_row(row: RowContains, width: u32, from: u32, count: u32) -> Option<u32>
    requires small_weight { SmallWeight row }
    requires width_nonzero { (0 < width) × (width ≤ wide_side) }
    requires from_bound { (from ≤ (width - 1) / 2) × (count ≤ wide_side) }
    ensures { result ≡ find_from (column_on_row row width) count from }
{
    let nearest = nearest_column(width, from, count)?;
    if !inside_left(row, width, nearest) {
        return None;
    }
    let mut lo = from;
    let mut hi = nearest;
    // A while: it halves, by two ends that come together.
    while lo < hi {
        let k = lo + (hi - lo) / 2;
        if inside_left(row, width, k) {
            hi = k;
        } else {
            lo = k + 1;
        }
    }
    Some(hi)
}

// The first inside column, from an inside one: to the left while it is inside.
#[tactic(auto, using(scanline::proofs::Find::find_at))]
fn walk_left(row: RowContains, width: u32, from: u32, start: u32) -> Option<u32>
    requires small_weight { SmallWeight row }
    requires width_le_wide_side { (width ≤ wide_side) × (start < width) × (start ≤ (width - 1) / 2) }
    requires from_le_start { (from ≤ start) × (column_on_row row width start ≡ true) }
    ensures { result ≡ find_from (column_on_row row width) (start + 1 - from) from }
{
    for k in (from..start).rev() {
        if !inside_left(row, width, k) {
            return Some(k + 1);
        }
    }
    Some(from)
}

// The first inside column after `start`, up to the nearest to the middle.
#[tactic(auto, using(scanline::proofs::Find::find_none))]
fn walk_right(row: RowContains, width: u32, start: u32, nearest: u32) -> Option<u32>
    requires small_weight { SmallWeight row }
    requires width_le_wide_side { (width ≤ wide_side) × (nearest < width) × (nearest ≤ (width - 1) / 2) }
    requires start_le_nearest { start ≤ nearest }
    ensures { result ≡ find_from (column_on_row row width) (nearest - start) (start + 1) }
{
    for k in start + 1..nearest + 1 {
        if inside_left(row, width, k) {
            return Some(k);
        }
    }
    None
}

// The same as `first_on_row`, looked for from a column that the caller supposes near: in a scan the row
// before gives it. The answer does not depend on it.
#[tactic(auto, using(scanline::proofs::Find::find_none, crate::proofs::Search::walk_right_finds))]
fn next_on_row(row: RowContains, width: u32, from: u32, count: u32, hint: u32) -> Option<u32>
    requires small_weight { SmallWeight row }
    requires width_nonzero { (0 < width) × (width ≤ wide_side) }
    requires from_bound { (from ≤ (width - 1) / 2) × (count ≤ wide_side) }
    ensures { result ≡ find_from (column_on_row row width) count from }
{
    let nearest = nearest_column(width, from, count)?;
    let start = signed::least(signed::most(hint, from), nearest);
    if inside_left(row, width, start) {
        return walk_left(row, width, from, start);
    }
    walk_right(row, width, start, nearest)
}

// The same by a walk from the hint, or by halving where the hint is none of the columns. The test comes as
// its two numbers: as a struct it would lie in memory, and a scan would write it there for every row, though
// it seldom comes here.
fn find_on_row(
    x_weight: u64,
    threshold: u64,
    width: u32,
    from: u32,
    count: u32,
    hint: u32,
) -> Option<u32>
    requires x_weight_le_wide_side_square { x_weight ≤ wide_side_square }
    requires width_nonzero { (0 < width) × (width ≤ wide_side) }
    requires from_bound { (from ≤ (width - 1) / 2) × (count ≤ wide_side) }
    ensures { result ≡ find_from (column_on_row (record { x_weight = x_weight; threshold = threshold }) width) count from }
{
    let row = RowContains {
        x_weight: x_weight,
        threshold: threshold,
    };
    if hint < width {
        return next_on_row(row, width, from, count, hint);
    }
    first_on_row(row, width, from, count)
}

// The first inside column of the `count` from `from` on, by halving: for a row that is asked for
// alone.
#[tactic(auto, using(crate::proofs::Search::finds_on_row))]
pub fn first_inside(test: EllipseContains, width: u32, y: u64, from: u32, count: u32) -> Option<u32>
    requires small_weights { SmallWeights test }
    requires width_nonzero { (0 < width) × (width ≤ wide_side) × (y ≤ wide_distance) }
    requires from_bound { (from ≤ (width - 1) / 2) × (count ≤ wide_side) }
    ensures { result ≡ find_from (column_inside test width y) count from }
{
    first_on_row(test.on_row(y), width, from, count)
}

// The hint of a search that may begin anywhere.
pub const ANYWHERE: u32 = 0xffff_ffff;

// The first inside column of the `count` from `from` on: by a walk from the hint, or by halving where
// the hint is none of the columns.
#[tactic(auto, using(crate::proofs::Search::finds_on_row))]
pub fn find_inside(
    test: EllipseContains,
    width: u32,
    y: u64,
    from: u32,
    count: u32,
    hint: u32,
) -> Option<u32>
    requires small_weights { SmallWeights test }
    requires width_nonzero { (0 < width) × (width ≤ wide_side) × (y ≤ wide_distance) }
    requires from_bound { (from ≤ (width - 1) / 2) × (count ≤ wide_side) }
    ensures { result ≡ find_from (column_inside test width y) count from }
{
    let by_row = test.on_row(y);
    find_on_row(by_row.x_weight, by_row.threshold, width, from, count, hint)
}

// The same in a scan that goes on outward: where the hint is inside and one of the columns, not past the
// middle (up to it there are (width + 1) / 2), the walk goes to the left from it, and that short way is meant
// to stand in the loop that scans. Else it is the whole search, by the test of the row that is formed
// already.
pub fn scan_inside(
    test: EllipseContains,
    width: u32,
    y: u64,
    from: u32,
    count: u32,
    hint: u32,
) -> Option<u32>
    requires small_weights { SmallWeights test }
    requires width_nonzero { (0 < width) × (width ≤ wide_side) × (y ≤ wide_distance) }
    requires from_bound { (from ≤ (width - 1) / 2) × (count ≤ wide_side) }
    ensures { result ≡ find_from (column_inside test width y) count from }
{
    let row = test.on_row(y);
    if from <= hint {
        if hint < signed::least((width + 1) / 2, from + count) {
            if inside_left(row, width, hint) {
                return walk_left(row, width, from, hint);
            }
        }
    }
    // Taken apart and made anew, so that the short way above stays in registers (docs/SPEED.md).
    let k = find_on_row(row.x_weight, row.threshold, width, from, count, hint)?;
    Some(k)
}
