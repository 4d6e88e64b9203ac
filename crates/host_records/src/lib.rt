// Figures and styles written as numbers, as a host gives them: which numbers are one, and which one
// they are (specs/RecordNumbers.antt lists the places).
#![tactic(auto)]

ghost use Rattle.std.specs.Prelude.{◌≡◌, length};
ghost use Rattle.host_records.specs.RecordNumbers.{figure_length, style_length, within, none_negative, is_figure, is_style, paint_of, alignment_of, size_of, rectangle_of, corners_of, figure_of, style_of};

use corner_radii::CornerRadii;
use figure::Figure;
use geometry::{Point, Size};
use rectangle::Rectangle;
use rounded_rectangle::RoundedRectangle;
use style::{StrokeAlignment, Style};

// How many numbers a figure has, and a style.
pub const FIGURE_LENGTH: usize = 13;

pub const STYLE_LENGTH: usize = 4;

// Where a figure's numbers stand. The radii's are the last eight.
pub const KIND: usize = 0;

pub const X: usize = 1;

pub const Y: usize = 2;

pub const WIDTH: usize = 3;

pub const HEIGHT: usize = 4;

pub const RADII: usize = 5;

const TOP_LEFT_WIDTH: usize = RADII;

const TOP_LEFT_HEIGHT: usize = RADII + 1;

const TOP_RIGHT_WIDTH: usize = RADII + 2;

const TOP_RIGHT_HEIGHT: usize = RADII + 3;

const BOTTOM_RIGHT_WIDTH: usize = RADII + 4;

const BOTTOM_RIGHT_HEIGHT: usize = RADII + 5;

const BOTTOM_LEFT_WIDTH: usize = RADII + 6;

const BOTTOM_LEFT_HEIGHT: usize = RADII + 7;

// Where a style's numbers stand.
pub const STROKE: usize = 0;

pub const FILL: usize = 1;

pub const STROKE_WIDTH: usize = 2;

pub const ALIGNMENT: usize = 3;

// The kinds of a figure.
pub const ELLIPSE: i32 = 0;

pub const CRATE_BOX: i32 = 1;

pub const W3C_BOX: i32 = 2;

// The alignments of a stroke.
pub const INSIDE: i32 = 0;

pub const CENTER: i32 = 1;

pub const OUTSIDE: i32 = 2;

// No paint, which is one below the lowest colour, and the highest colour.
pub const ABSENT: i32 = -1;

pub const MAX_COLOUR: i32 = 255;

// Whether v is from low to high.
pub fn is_within(low: i32, high: i32, v: i32) -> bool
    ensures { result ≡ within low high v }
{
    if v < low {
        return false;
    }
    v <= high
}

// Whether none of the numbers is negative.
#[tactic(auto, using(crate::proofs::Walks::negative_here, crate::proofs::Walks::not_negative_here, crate::proofs::Walks::none_negative_past))]
pub fn none_negative(numbers: &[i32]) -> bool
    ensures { result ≡ none_negative numbers.now }
{
    for n in numbers {
        if *n < 0 {
            return false;
        }
    }
    true
}

// Whether the numbers are a figure's.
pub fn is_figure(numbers: &[i32]) -> bool
    ensures { result ≡ is_figure numbers.now }
{
    if numbers.len() != FIGURE_LENGTH {
        return false;
    }
    if !is_within(ELLIPSE, W3C_BOX, numbers[KIND]) {
        return false;
    }
    none_negative(&numbers[WIDTH..FIGURE_LENGTH])
}

// Whether the numbers are a style's.
pub fn is_style(numbers: &[i32]) -> bool
    ensures { result ≡ is_style numbers.now }
{
    if numbers.len() != STYLE_LENGTH {
        return false;
    }
    if !is_within(ABSENT, MAX_COLOUR, numbers[STROKE]) {
        return false;
    }
    if !is_within(ABSENT, MAX_COLOUR, numbers[FILL]) {
        return false;
    }
    if numbers[STROKE_WIDTH] < 0 {
        return false;
    }
    is_within(INSIDE, OUTSIDE, numbers[ALIGNMENT])
}

fn paint_of(v: i32) -> Option<u8>
    ensures { result ≡ paint_of v }
{
    if v < 0 {
        return None;
    }
    Some((signed::floor0(v) % 256) as u8)
}

fn alignment_of(v: i32) -> StrokeAlignment
    ensures { result ≡ alignment_of v }
{
    if v < CENTER {
        return StrokeAlignment::Inside;
    }
    if v < OUTSIDE {
        return StrokeAlignment::Center;
    }
    StrokeAlignment::Outside
}

fn size_of(width: i32, height: i32) -> Size
    ensures { result ≡ size_of width height }
{
    Size {
        width: signed::floor0(width),
        height: signed::floor0(height),
    }
}

fn rectangle_of(numbers: &[i32]) -> Rectangle
    requires { length numbers.now ≡ figure_length }
    ensures { result ≡ rectangle_of numbers.now }
{
    Rectangle {
        top_left: Point {
            x: numbers[X],
            y: numbers[Y],
        },
        size: size_of(numbers[WIDTH], numbers[HEIGHT]),
    }
}

fn corners_of(numbers: &[i32]) -> CornerRadii
    requires { length numbers.now ≡ figure_length }
    ensures { result ≡ corners_of numbers.now }
{
    CornerRadii {
        top_left: size_of(numbers[TOP_LEFT_WIDTH], numbers[TOP_LEFT_HEIGHT]),
        top_right: size_of(numbers[TOP_RIGHT_WIDTH], numbers[TOP_RIGHT_HEIGHT]),
        bottom_right: size_of(numbers[BOTTOM_RIGHT_WIDTH], numbers[BOTTOM_RIGHT_HEIGHT]),
        bottom_left: size_of(numbers[BOTTOM_LEFT_WIDTH], numbers[BOTTOM_LEFT_HEIGHT]),
    }
}

// The figure that the numbers are.
pub fn figure_of(numbers: &[i32]) -> Figure
    requires { length numbers.now ≡ figure_length }
    ensures { result ≡ figure_of numbers.now }
{
    let rectangle = rectangle_of(numbers);
    if numbers[KIND] < CRATE_BOX {
        return Figure::Ellipse(rectangle);
    }
    let b = RoundedRectangle {
        rectangle: rectangle,
        corners: corners_of(numbers),
    };
    if numbers[KIND] < W3C_BOX {
        return Figure::CrateBox(b);
    }
    Figure::W3cBox(b)
}

// The style that the numbers are.
pub fn style_of(numbers: &[i32]) -> Style
    requires { length numbers.now ≡ style_length }
    ensures { result ≡ style_of numbers.now }
{
    Style {
        stroke: paint_of(numbers[STROKE]),
        fill: paint_of(numbers[FILL]),
        stroke_width: signed::floor0(numbers[STROKE_WIDTH]),
        alignment: alignment_of(numbers[ALIGNMENT]),
    }
}
