// A sheet written as numbers, as a host keeps it in its own memory (specs/SheetRecord.antt lists the
// places).
#![tactic(auto)]

ghost use Rattle.std.specs.Prelude.{◌≡◌, ◌<◌, length};
ghost use Rattle.geometry.specs.Limits.{max_layers};
ghost use Rattle.host_records.specs.RecordNumbers.{figure_length, style_length};
ghost use Rattle.host_sheet_record.specs.SheetRecord.{layer_length, sheet_length, is_layer, is_sheet, holds_records, count_of, layer_of, place_numbers, sheet_of, layer_put, unused_place, moved_down, place_removed};

use canvas_size::CanvasSize;
use host_answers::put_from;
use host_records::{
    ABSENT, FIGURE_LENGTH, FILL, STROKE, STYLE_LENGTH, figure_of, is_figure, is_style,
    none_negative, style_of,
};
use sheet::Sheet;
use sheet_layers::Layer;

// Where a layer's style and its next row stand, behind its figure, and how many numbers it has.
pub const STYLE: usize = FIGURE_LENGTH;

pub const NEXT_ROW: usize = FIGURE_LENGTH + STYLE_LENGTH;

pub const LAYER_LENGTH: usize = FIGURE_LENGTH + STYLE_LENGTH + 1;

// Where a sheet's width, its height, its count of layers and its first place stand, and how many numbers
// it has.
pub const CANVAS_WIDTH: usize = 0;

pub const CANVAS_HEIGHT: usize = 1;

pub const COUNT: usize = 2;

pub const FIRST_PLACE: usize = 3;

pub const SHEET_LENGTH: usize = FIRST_PLACE + LAYER_LENGTH * Layer::PLACES;

// Where its last place begins.
const LAST_PLACE: usize = SHEET_LENGTH - LAYER_LENGTH;

// The count that numbers without records are read as: one more than there may be.
const TOO_MANY: u32 = Sheet::MAX_LAYERS + 1;

// Whether the numbers are a layer's.
fn is_layer(numbers: &[i32]) -> bool
    requires { length numbers.now ≡ layer_length }
    ensures { result ≡ is_layer numbers.now }
{
    if !is_figure(&numbers[0..FIGURE_LENGTH]) {
        return false;
    }
    is_style(&numbers[STYLE..NEXT_ROW])
}

// Whether the numbers are a sheet's.
pub fn is_sheet(numbers: &[i32]) -> bool
    ensures { result ≡ is_sheet numbers.now }
{
    numbers.len() == SHEET_LENGTH
}

// Whether the numbers hold records: unused places are not looked at.
fn holds_records(numbers: &[i32]) -> bool
    requires { length numbers.now ≡ sheet_length }
    ensures { result ≡ holds_records numbers.now }
{
    if !none_negative(&numbers[CANVAS_WIDTH..FIRST_PLACE]) {
        return false;
    }
    let used = signed::least(signed::floor0(numbers[COUNT]), Sheet::MAX_LAYERS) as usize;
    for j in 0..used {
        let at = FIRST_PLACE + LAYER_LENGTH * j;
        let end = at + LAYER_LENGTH;
        if !is_layer(&numbers[at..end]) {
            return false;
        }
    }
    true
}

// How many layers the numbers say: one more than there may be where they hold no records.
fn count_of(numbers: &[i32]) -> u32
    requires { length numbers.now ≡ sheet_length }
    ensures { result ≡ count_of numbers.now }
{
    if holds_records(numbers) {
        return signed::floor0(numbers[COUNT]);
    }
    TOO_MANY
}

// The layer that the numbers are.
fn layer_of(numbers: &[i32]) -> Layer
    requires { length numbers.now ≡ layer_length }
    ensures { result ≡ layer_of numbers.now }
{
    Layer {
        figure: figure_of(&numbers[0..FIGURE_LENGTH]),
        style: style_of(&numbers[STYLE..NEXT_ROW]),
        next_row: numbers[NEXT_ROW],
    }
}

// The layer in place j.
pub fn layer_at(numbers: &[i32], j: usize) -> Layer
    requires { (length numbers.now ≡ sheet_length) × (j < max_layers) }
    ensures { result ≡ layer_of (place_numbers numbers.now j) }
{
    let at = FIRST_PLACE + LAYER_LENGTH * j;
    let end = at + LAYER_LENGTH;
    layer_of(&numbers[at..end])
}

// The size of the sheet's canvas.
pub fn size_of(numbers: &[i32]) -> CanvasSize
    requires { length numbers.now ≡ sheet_length }
    ensures { (result.width ≡ (sheet_of numbers.now).width) × (result.height ≡ (sheet_of numbers.now).height) }
{
    CanvasSize {
        width: signed::floor0(numbers[CANVAS_WIDTH]),
        height: signed::floor0(numbers[CANVAS_HEIGHT]),
    }
}

// The layers in all places.
fn places_of(numbers: &[i32]) -> [Layer; Layer::PLACES]
    requires { length numbers.now ≡ sheet_length }
    ensures { result ≡ (sheet_of numbers.now).layers }
{
    let blank = Layer::blank();
    let mut places = [blank; Layer::PLACES];
    for j in 0..Layer::PLACES {
        places[j] = layer_at(numbers, j);
    }
    places
}

// The sheet that the numbers are.
pub fn sheet_of(numbers: &[i32]) -> Sheet
    requires { length numbers.now ≡ sheet_length }
    ensures { result ≡ sheet_of numbers.now }
{
    let size = size_of(numbers);
    Sheet {
        width: size.width,
        height: size.height,
        count: count_of(numbers),
        layers: places_of(numbers),
    }
}

// Puts a layer's numbers in a place.
pub fn put_layer(numbers: &mut [i32], place: usize, figure: &[i32], style: &[i32], row: i32)
    requires numbers_len { (length numbers.old ≡ sheet_length) × (place < max_layers) }
    requires figure_len { (length figure.now ≡ figure_length) × (length style.now ≡ style_length) }
    ensures { numbers.new ≡ layer_put numbers.old place figure.now style.now row }
{
    let at = FIRST_PLACE + LAYER_LENGTH * place;
    put_from(numbers, at, figure);
    put_from(numbers, at + STYLE, style);
    numbers[at + NEXT_ROW] = row;
}

// The numbers of a place that holds no layer.
fn unused_place() -> [i32; LAYER_LENGTH]
    ensures { result ≡ unused_place }
{
    let mut numbers = [0i32; LAYER_LENGTH];
    numbers[STYLE + STROKE] = ABSENT;
    numbers[STYLE + FILL] = ABSENT;
    numbers
}

// Moves the numbers of each place behind a place down by one place. The last place keeps its own.
fn move_down(numbers: &mut [i32], place: usize)
    requires { (length numbers.old ≡ sheet_length) × (place < max_layers) }
    ensures { numbers.new ≡ moved_down numbers.old place }
{
    for k in FIRST_PLACE + LAYER_LENGTH * place..LAST_PLACE {
        numbers[k] = numbers[k + LAYER_LENGTH];
    }
}

// Takes a place's numbers out: those behind it move down by one place, and the last place is left
// unused (document 02, 'Five'). What stands before the place is not touched.
pub fn remove_place(numbers: &mut [i32], place: usize)
    requires { (length numbers.old ≡ sheet_length) × (place < max_layers) }
    ensures { numbers.new ≡ place_removed numbers.old place }
{
    let unused = unused_place();
    move_down(numbers, place);
    put_from(numbers, LAST_PLACE, &unused);
}
