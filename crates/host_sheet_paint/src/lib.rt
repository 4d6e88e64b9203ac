// Painting on a sheet that a host keeps as numbers: what is tested and painted is read from them, and no
// sheet is made and handed on.
#![tactic(auto)]

ghost use Rattle.refusal.specs.Refusal.{passed};
ghost use Rattle.std.specs.Prelude.{◌≡◌, List, ℕ, length};
ghost use Rattle.signed.specs.Signed.{Is};
ghost use Rattle.book.specs.Book.{paint as call_paint};
ghost use Rattle.sheet.specs.Sheet.{sheet_answer, canvas_after};
ghost use Rattle.host_sheet_record.specs.SheetRecord.{sheet_length, sheet_of, row_painted};
ghost use Rattle.host_sheet_paint.specs.RecordPaint.{next_of, asked_check};

use canvas_size::CanvasSize;
use drawing::paint_row_on;
use host_records::is_within;
use host_sheet_record::{COUNT, FIRST_PLACE, LAYER_LENGTH, NEXT_ROW, layer_at, size_of};
use host_sheet_rules::{Asked, next_at, test_places};
use refusal::{Checked, Refusal};
use sheet::Sheet;

// The largest count of layers, as a host's number is held to it.
const MAX_COUNT: i32 = Sheet::MAX_LAYERS as i32;

// The next row of a layer, or 0 where there is no such place.
fn next_of(numbers: &[i32], layer: u32) -> i32
    requires { length numbers.now ≡ sheet_length }
    ensures { Is (next_of numbers.now layer) result }
{
    if Sheet::MAX_LAYERS <= layer {
        return 0;
    }
    next_at(numbers, layer as usize)
}

// Refusals 8, 10, 11 and 12, where the rules are kept.
#[tactic(auto, unfolding(crate::specs::RecordPaint::asked_check))]
fn check_asked(size: CanvasSize, bytes: usize, count: u32, layer: u32, asked: Asked) -> Checked
    ensures { result ≡ asked_check size.width size.height bytes count layer asked }
{
    size.check_length(bytes)?;
    if count <= layer {
        return Err(Refusal::NoLayer);
    }
    if !asked.left {
        return Err(Refusal::NoRowLeft);
    }
    if asked.owed {
        return Err(Refusal::RowOwed);
    }
    Ok(())
}

// Refusals 7, 8, 10, 11 and 12 of painting on a canvas that is so many bytes long.
pub fn check_paint(numbers: &[i32], layer: u32, bytes: usize) -> Checked
    requires { length numbers.now ≡ sheet_length }
    ensures { (canvas : List ℕ) → length canvas ≡ bytes → result
        ≡ sheet_answer (sheet_of numbers.now) canvas (call_paint layer) }
{
    let size = size_of(numbers);
    let Ok(()) = size.check() else {
        return Err(Refusal::SheetRule);
    };
    if !is_within(0, MAX_COUNT, numbers[COUNT]) {
        return Err(Refusal::SheetRule);
    }
    let count = signed::floor0(numbers[COUNT]);
    let y = next_of(numbers, layer);
    let asked = test_places(numbers, count as usize, layer as usize, y).ok_or(Refusal::SheetRule)?;
    check_asked(size, bytes, count, layer, asked)
}

// Paints the next row of a layer, where that was not refused, and moves its next row down by one. It does
// what `drawing::paint_row` does, and is quicker than a call of it, which hands the figure over once more.
pub fn paint_next(numbers: &mut [i32], layer: u32, canvas: &mut [u8])
    requires numbers_len { length numbers.old ≡ sheet_length }
    requires layer_value { sheet_answer (sheet_of numbers.old) canvas.old (call_paint layer) ≡ passed }
    ensures numbers_after { numbers.new ≡ row_painted numbers.old layer }
    ensures canvas_after { canvas.new ≡ canvas_after (sheet_of numbers.old) canvas.old (call_paint layer) }
{
    let place = layer as usize;
    let chosen = layer_at(numbers, place);
    let figure = chosen.figure;
    let style = chosen.style;
    let row = chosen.next_row;
    let size = size_of(numbers);
    paint_row_on(canvas, size, styled::row_at(figure, style, row), style, row);
    numbers[FIRST_PLACE + LAYER_LENGTH * place + NEXT_ROW] = signed::add(row, 1);
}
