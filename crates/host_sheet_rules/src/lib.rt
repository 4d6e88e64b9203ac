// The rules of all layers of a sheet that a host keeps as numbers, and what a paint call asks of them,
// in one walk over the places from the last to the first.
#![tactic(auto)]

ghost use Rattle.std.specs.Prelude.{◌≡◌, true, ◌-◌, ◌<◌, ◌≤◌, length};
ghost use Rattle.signed.specs.Signed.{Is};
ghost use Rattle.geometry.specs.Limits.{max_layers};
ghost use Rattle.sheet_layers.specs.LayerRows.{no_rows_overtake};
ghost use Rattle.host_sheet_record.specs.SheetRecord.{sheet_length, place_numbers};
ghost use Rattle.host_sheet_place.specs.PlaceRules.{place_kept};
ghost use Rattle.host_sheet_rules.specs.RecordRules.{rows_at, rows_from, places_kept, none_painted, also_painted, KeepTo, asked_of, places_tested};

use host_sheet_place::{first_row, place_rows};
use host_sheet_record::{FIRST_PLACE, LAYER_LENGTH, NEXT_ROW};
use sheet_layers::rows::LayerRows;

// The rows that some layers have painted: they lie from the first up to the end.
#[derive(Clone, Copy)]
pub struct PaintedRows {
    pub first: i32,
    pub end: i32,
}

impl PaintedRows {
    // No layer has painted a row.
    fn none() -> PaintedRows
        ensures { result ≡ none_painted }
    {
        PaintedRows {
            first: i32::MAX,
            end: i32::MIN,
        }
    }

    // The rows that one layer more has painted, with these.
    fn and(self, rows: LayerRows) -> PaintedRows
        ensures { result ≡ also_painted self rows }
    {
        if rows.next <= rows.first {
            return self;
        }
        PaintedRows {
            first: signed::smaller(self.first, rows.first),
            end: signed::larger(self.end, rows.next),
        }
    }
}

// What a paint call asks of layers that keep the rules: whether its own layer has a row left, and
// whether an earlier layer owes the row.
#[derive(Clone, Copy)]
pub struct Asked {
    pub left: bool,
    pub owed: bool,
}

impl Asked {
    // What is asked, with the layer in place i taken in.
    fn and(self, rows: LayerRows, i: usize, layer: usize, y: i32) -> Asked
        ensures { result ≡ asked_of self rows i layer y }
    {
        if layer < i {
            return self;
        }
        if i < layer {
            return Asked {
                left: self.left,
                owed: rows.owes(y) | self.owed,
            };
        }
        Asked {
            left: (rows.next < rows.end) | self.left,
            owed: self.owed,
        }
    }
}

// The next row of the layer in place j.
pub fn next_at(numbers: &[i32], j: usize) -> i32
    requires { (length numbers.now ≡ sheet_length) × (j < max_layers) }
    ensures { Is (rows_at numbers.now j).next result }
{
    numbers[FIRST_PLACE + LAYER_LENGTH * j + NEXT_ROW]
}

// The first and the next row of the layer in place j, which keeps its own rules; its end is left out.
fn painted_at(numbers: &[i32], j: usize) -> LayerRows
    requires numbers_len { (length numbers.now ≡ sheet_length) × (j < max_layers) }
    requires j_value { place_kept (place_numbers numbers.now j) ≡ true }
    ensures { (result.first ≡ (rows_at numbers.now j).first) × (result.next ≡ (rows_at numbers.now j).next) }
{
    let at = FIRST_PLACE + LAYER_LENGTH * j;
    let end = at + LAYER_LENGTH;
    LayerRows {
        first: first_row(&numbers[at..end]),
        next: next_at(numbers, j),
        end: 0,
    }
}

// Whether no layer in the places from this one up to the count overtakes an earlier one that owes the rows
// from `next` up to `end`. A call of its own: painting layer by layer never needs it, and `test_places`,
// which every call needs, is quicker where it is no part of that.
#[inline(never)]
fn none_overtakes(numbers: &[i32], next: i32, end: i32, from: usize, count: usize) -> bool
    requires numbers_len { length numbers.now ≡ sheet_length }
    requires from_le_count { (from ≤ count) × (count ≤ max_layers) }
    requires from_value { places_kept numbers.now from (count - from) ≡ true }
    ensures { result ≡ no_rows_overtake (record { first = next; next = next; end = end })
        (rows_from numbers.now from (count - from)) }
{
    let earlier = LayerRows {
        first: next,
        next: next,
        end: end,
    };
    for j in from..count {
        // A layer that has not passed `next` has painted none of those rows, wherever it begins.
        if next < next_at(numbers, j) && earlier.is_overtaken(painted_at(numbers, j)) {
            return false;
        }
    }
    true
}

// Whether no layer in the places from this one up to the count overtakes an earlier one, where the rows
// that they have painted are known: most layers owe nothing, or only rows that lie apart from those.
fn in_order(
    numbers: &[i32],
    earlier: LayerRows,
    painted: PaintedRows,
    from: usize,
    count: usize,
) -> bool
    requires numbers_len { length numbers.now ≡ sheet_length }
    requires from_le_count { (from ≤ count) × (count ≤ max_layers) }
    requires from_value { places_kept numbers.now from (count - from) ≡ true }
    requires keep_to { KeepTo painted (rows_from numbers.now from (count - from)) }
    ensures { result ≡ no_rows_overtake earlier (rows_from numbers.now from (count - from)) }
{
    if earlier.end <= earlier.next {
        return true;
    }
    if painted.end <= earlier.next {
        return true;
    }
    if earlier.end <= painted.first {
        return true;
    }
    none_overtakes(numbers, earlier.next, earlier.end, from, count)
}

// Tests the rules of the layers in the first places, one by one and two by two, and finds what a paint
// call of the row y of a layer asks of them.
pub fn test_places(numbers: &[i32], count: usize, layer: usize, y: i32) -> Option<Asked>
    requires numbers_len { length numbers.now ≡ sheet_length }
    requires count_le_max_layers { count ≤ max_layers }
    ensures { result ≡ places_tested numbers.now count layer y }
{
    let mut painted = PaintedRows::none();
    let mut asked = Asked {
        left: false,
        owed: false,
    };
    for place in (0..count).rev() {
        let at = FIRST_PLACE + LAYER_LENGTH * place;
        let end = at + LAYER_LENGTH;
        let rows = place_rows(&numbers[at..end])?;
        if !in_order(numbers, rows, painted, place + 1, count) {
            return None;
        }
        painted = painted.and(rows);
        asked = asked.and(rows, place, layer, y);
    }
    Some(asked)
}
