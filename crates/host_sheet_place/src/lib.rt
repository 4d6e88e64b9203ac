// One place of a sheet that a host keeps as numbers: whether it holds a layer that keeps its own rules,
// and that layer's rows. The tests are made on the numbers themselves, and no layer is made of them.
#![tactic(auto)]

ghost use Rattle.std.specs.Prelude.{◌≡◌, true, cond, ◌&&◌, ◌+◌, ◌*◌, ◌≤◌, leb, ltb, pos, ◌-ℤ◌, length, Some, None};
ghost use Rattle.signed.specs.Signed.{Near, Is, floor0 as signed_floor0};
ghost use Rattle.corner.specs.Bounds.{wide_stroke_side};
ghost use Rattle.figure.specs.Bounds.{wide_offset, wide_own_side, wide_position, wide_area_position};
ghost use Rattle.style.specs.Style.{outside_width};
ghost use Rattle.host_records.specs.RecordNumbers.{alignment_of};
ghost use Rattle.sheet_layers.proofs.RowTests.{RowsFit};
ghost use Rattle.sheet_layers.specs.Layers.{layer_rows};
ghost use Rattle.host_sheet_record.specs.SheetRecord.{layer_length, layer_of};
ghost use Rattle.host_sheet_place.specs.PlaceRules.{highest_radius, radii_kept, rectangle_kept, figure_kept, style_kept, rows_above, stroke_count, first_row_of, place_kept};

use corner_radii::CornerRadii;
use ellipse::EllipseContains;
use ellipse_rows::has_rows;
use geometry::{Point, Size};
use host_records::{
    ABSENT, CRATE_BOX, ELLIPSE, FIGURE_LENGTH, HEIGHT, INSIDE, KIND, MAX_COLOUR, OUTSIDE, RADII,
    W3C_BOX, WIDTH, X, Y, is_within,
};
use host_sheet_record::{NEXT_ROW, STYLE};
use sheet_layers::rows::LayerRows;
use style::Style;

// The limits of a side, a radius, a position and a stroke width (refusals 1, 2, 3 and 5), as a host's
// numbers are held to them.
const MAX_SIDE: i32 = Size::MAX_SIDE as i32;

const MAX_RADIUS: i32 = CornerRadii::MAX_RADIUS as i32;

const MAX_POSITION: i32 = Point::MAX_POSITION as i32;

const MIN_POSITION: i32 = -MAX_POSITION;

const MAX_STROKE_WIDTH: i32 = Style::MAX_STROKE_WIDTH as i32;

// Where the numbers of a layer's style stand.
const STROKE: usize = STYLE + host_records::STROKE;

const FILL: usize = STYLE + host_records::FILL;

const STROKE_WIDTH: usize = STYLE + host_records::STROKE_WIDTH;

const ALIGNMENT: usize = STYLE + host_records::ALIGNMENT;

// The highest number of a radius. Those of an ellipse may be any that are not negative.
fn highest_radius(any: bool) -> i32
    ensures { Is (highest_radius any) result }
{
    if any { i32::MAX } else { MAX_RADIUS }
}

// Whether a figure's radii are within limits, whatever they are where any will do. No test ends the
// loop, so that several are made at a time.
fn radii_kept(numbers: &[i32], any: bool) -> bool
    requires { length numbers.now ≡ layer_length }
    ensures { result ≡ radii_kept any numbers.now }
{
    let limit = highest_radius(any);
    let mut kept = true;
    for k in RADII..FIGURE_LENGTH {
        kept = kept & is_within(0, limit, numbers[k]);
    }
    kept
}

// Whether a figure's numbers before its radii are within limits.
fn rectangle_kept(numbers: &[i32]) -> bool
    requires { length numbers.now ≡ layer_length }
    ensures { result ≡ rectangle_kept numbers.now }
{
    is_within(ELLIPSE, W3C_BOX, numbers[KIND])
        & is_within(MIN_POSITION, MAX_POSITION, numbers[X])
        & is_within(MIN_POSITION, MAX_POSITION, numbers[Y])
        & is_within(0, MAX_SIDE, numbers[WIDTH])
        & is_within(0, MAX_SIDE, numbers[HEIGHT])
}

// Whether the numbers are a figure's within limits. The radii are tested by one loop for each kind of
// figure, so that each has a limit that is known.
fn figure_kept(numbers: &[i32]) -> bool
    requires { length numbers.now ≡ layer_length }
    ensures { result ≡ figure_kept numbers.now }
{
    if !rectangle_kept(numbers) {
        return false;
    }
    if numbers[KIND] < CRATE_BOX {
        return radii_kept(numbers, true);
    }
    radii_kept(numbers, false)
}

// Whether the numbers are a style's within limits.
fn style_kept(numbers: &[i32]) -> bool
    requires { length numbers.now ≡ layer_length }
    ensures { result ≡ style_kept numbers.now }
{
    is_within(ABSENT, MAX_COLOUR, numbers[STROKE])
        & is_within(ABSENT, MAX_COLOUR, numbers[FILL])
        & is_within(0, MAX_STROKE_WIDTH, numbers[STROKE_WIDTH])
        & is_within(INSIDE, OUTSIDE, numbers[ALIGNMENT])
}

// How much of a stroke of this width lies outside the outline: as many halves of it as the alignment's
// number says.
fn outside_width(width: i32, alignment: i32) -> u32
    ensures { result ≡ outside_width (alignment_of alignment) (signed_floor0 width) }
{
    let halves = signed::least(signed::floor0(alignment), OUTSIDE as u32);
    signed::floor0(width) * halves / 2
}

// How far a stroke area's top lies above that of a figure of this height.
fn rows_above(height: u32, outside: u32) -> u32
    ensures { result ≡ rows_above height outside }
{
    if height == 0 {
        return if outside == 0 { 0 } else { outside - 1 };
    }
    outside
}

// The top of a stroke area, by that of its figure.
fn area_top(top: i32, height: u32, outside: u32) -> i32
    requires { Near wide_position top × (outside ≤ wide_offset) }
    ensures is { Is (top -ℤ pos (rows_above height outside)) result }
    ensures near { Near wide_area_position result }
{
    signed::sub(top, signed::from_u32(rows_above(height, outside)))
}

// Whether a figure has a height and is at least as wide as high.
fn is_wide(width: u32, height: u32) -> bool
    ensures { result ≡ (ltb 0 height && leb height width) }
{
    if height == 0 {
        return false;
    }
    height <= width
}

// How many rows the stroke area of an ellipse or of a box has. An ellipse that is at least as wide as
// high has rows, and needs no test. `drawing::stroke_rows` says the same of a figure; here none is made,
// since every paint call asks for the rows of every place.
fn area_rows(ellipse: bool, width: u32, height: u32, outside: u32) -> u32
    requires { (width ≤ wide_own_side) × (height ≤ wide_own_side) × (outside ≤ wide_offset) }
    ensures value { result ≡ stroke_count ellipse (width + 2 * outside) (height + 2 * outside) }
    ensures upper_bound { result ≤ wide_stroke_side }
{
    let high = height + 2 * outside;
    if ellipse {
        if is_wide(width, height) {
            return high;
        }
        let size = Size {
            width: width + 2 * outside,
            height: high,
        };
        if !has_rows(EllipseContains::new(size), size) {
            return 0;
        }
    }
    high
}

// The first row of the layer in a place, whose figure and style are within limits.
pub fn first_row(numbers: &[i32]) -> i32
    requires numbers_len { length numbers.now ≡ layer_length }
    requires numbers_value { (figure_kept numbers.now && style_kept numbers.now) ≡ true }
    ensures { Is (first_row_of numbers.now) result }
{
    area_top(
        numbers[Y],
        signed::floor0(numbers[HEIGHT]),
        outside_width(numbers[STROKE_WIDTH], numbers[ALIGNMENT]),
    )
}

// The rows of the layer in a place, whose figure and style are within limits.
fn rows_within(numbers: &[i32]) -> LayerRows
    requires numbers_len { length numbers.now ≡ layer_length }
    requires numbers_value { (figure_kept numbers.now && style_kept numbers.now) ≡ true }
    ensures { (result ≡ layer_rows (layer_of numbers.now)) × RowsFit result }
{
    let height = signed::floor0(numbers[HEIGHT]);
    let outside = outside_width(numbers[STROKE_WIDTH], numbers[ALIGNMENT]);
    let first = area_top(numbers[Y], height, outside);
    let count = area_rows(
        numbers[KIND] < CRATE_BOX,
        signed::floor0(numbers[WIDTH]),
        height,
        outside,
    );
    LayerRows {
        first: first,
        next: numbers[NEXT_ROW],
        end: signed::add(first, signed::from_u32(count)),
    }
}

// The rows of the layer in a place, if the numbers are a layer's that keeps its own rules.
pub fn place_rows(numbers: &[i32]) -> Option<LayerRows>
    requires { length numbers.now ≡ layer_length }
    ensures { result ≡ cond (place_kept numbers.now)
        (Some (layer_rows (layer_of numbers.now))) None }
{
    if !figure_kept(numbers) {
        return None;
    }
    if !style_kept(numbers) {
        return None;
    }
    let rows = rows_within(numbers);
    if rows.next < rows.first {
        return None;
    }
    if rows.end < rows.next {
        return None;
    }
    Some(rows)
}
