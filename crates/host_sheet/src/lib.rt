// The calls on a sheet for a host that keeps it as numbers: what the call needs is read from them, and
// what it changed is written back. Answers are one number; only where it is 0 has anything been
// written.
#![tactic(auto)]

ghost use Rattle.std.specs.Prelude.{◌≡◌};
ghost use Rattle.host_answers.specs.HostAnswers.{Tells};
ghost use Rattle.host_sheet.specs.Sheets.{opened_numbers, open_said, add_told, add_numbers, paint_told, paint_numbers, paint_canvas};
ghost use Rattle.host_sheet.specs.Sheets.{remove_told, remove_numbers, remove_canvas};

use canvas_size::CanvasSize;
use host_answers::{DONE, NO_RECORD, held, put_numbers};
use host_records::{ABSENT, figure_of, is_figure, is_style, style_of};
use host_sheet_paint::{check_paint, paint_next};
use host_sheet_record::{
    CANVAS_HEIGHT, CANVAS_WIDTH, COUNT, FIRST_PLACE, LAYER_LENGTH, SHEET_LENGTH, STYLE, is_sheet,
    put_layer, remove_place, sheet_of,
};
use sheet_calls::number_of;
use sheet_layers::Layer;

// The numbers of a sheet without layers, its width and height left 0: unused places, without paint.
fn unused_places() -> [i32; SHEET_LENGTH]
    ensures { result ≡ opened_numbers 0 0 }
{
    let mut numbers = [0i32; SHEET_LENGTH];
    for j in 0..Layer::PLACES {
        let style = FIRST_PLACE + LAYER_LENGTH * j + STYLE;
        numbers[style] = ABSENT;
        numbers[style + 1] = ABSENT;
    }
    numbers
}

// The numbers of a sheet without layers. Refused by 6, and by 13 where they have no room.
pub fn open(width: u32, height: u32, sheet: &mut [i32]) -> u32
    ensures { Tells (open_said width height) sheet.old result sheet.new }
{
    let size = CanvasSize {
        width: width,
        height: height,
    };
    if let Err(refusal) = size.check() {
        return refusal.number();
    }
    let mut numbers = unused_places();
    numbers[CANVAS_WIDTH] = held(width);
    numbers[CANVAS_HEIGHT] = held(height);
    put_numbers(sheet, &numbers)
}

// A figure more on top. Refused by 1, 2, 3, 5, 7 and 9.
pub fn add(sheet: &mut [i32], figure: &[i32], style: &[i32]) -> u32
    ensures value { result ≡ add_told sheet.old figure.now style.now }
    ensures sheet_after { sheet.new ≡ add_numbers sheet.old figure.now style.now }
{
    if !is_sheet(sheet) {
        return NO_RECORD;
    }
    if !is_figure(figure) {
        return NO_RECORD;
    }
    if !is_style(style) {
        return NO_RECORD;
    }
    let before = sheet_of(sheet);
    let made = before.add(figure_of(figure), style_of(style));
    let Ok(()) = made.answer else {
        return number_of(made.answer);
    };
    let after = made.sheet;
    let places = after.layers;
    let place = before.count as usize;
    let added = places[place];
    put_layer(sheet, place, figure, style, added.next_row);
    sheet[COUNT] = signed::from_u32(after.count);
    DONE
}

// The next row of a layer painted. Refused by 7, 8, 10, 11 and 12.
pub fn paint(sheet: &mut [i32], layer: u32, canvas: &mut [u8]) -> u32
    ensures value { result ≡ paint_told sheet.old layer canvas.old }
    ensures sheet_after { sheet.new ≡ paint_numbers sheet.old layer canvas.old }
    ensures canvas_after { canvas.new ≡ paint_canvas sheet.old layer canvas.old }
{
    if !is_sheet(sheet) {
        return NO_RECORD;
    }
    if let Err(refusal) = check_paint(sheet, layer, canvas.len()) {
        return refusal.number();
    }
    paint_next(sheet, layer, canvas);
    DONE
}

// A layer removed: the rows that it had painted become the background's, overpainted by the other
// layers that had painted them, and later layers move down one number. Refused by 7, 8 and 10.
pub fn remove(sheet: &mut [i32], layer: u32, canvas: &mut [u8], background: &[u8]) -> u32
    ensures value { result ≡ remove_told sheet.old layer canvas.old background.now }
    ensures sheet_after { sheet.new ≡ remove_numbers sheet.old layer canvas.old background.now }
    ensures canvas_after { canvas.new ≡ remove_canvas sheet.old layer canvas.old background.now }
    ensures background_value { background.exit.now ≡ background.entry.now }
{
    if !is_sheet(sheet) {
        return NO_RECORD;
    }
    let before = sheet_of(sheet);
    let made = before.remove(layer, canvas, background);
    let Ok(()) = made.answer else {
        return number_of(made.answer);
    };
    let left = made.sheet;
    remove_place(sheet, layer as usize);
    sheet[COUNT] = signed::from_u32(left.count);
    DONE
}
