// Sheet calls written as numbers, 20 for each call, as specs/CallNumbers.antt lists them.
#![tactic(auto)]

ghost use Rattle.std.specs.Prelude.{◌≡◌, length};
ghost use Rattle.sheet_call_numbers.specs.CallNumbers.{call_length, is_call, encodes_calls};

use host_records::{FIGURE_LENGTH, STYLE_LENGTH, is_figure, is_style, is_within};

// How many numbers a call has.
pub const CALL_LENGTH: usize = 20;

// Where its kind stands, and behind that the layer of a paint call or a removal, or the figure and the
// style of an add call up to the style's end.
pub const KIND: usize = 0;

pub const LAYER: usize = 1;

pub const FIGURE: usize = 1;

pub const STYLE: usize = FIGURE + FIGURE_LENGTH;

pub const STYLE_END: usize = STYLE + STYLE_LENGTH;

// The kinds of a call. Those that name a layer are the last ones.
pub const ADD: i32 = 0;

pub const PAINT: i32 = 1;

pub const REMOVE: i32 = 2;

// Whether the numbers are a call's.
fn is_call(numbers: &[i32]) -> bool
    requires { length numbers.now ≡ call_length }
    ensures { result ≡ is_call numbers.now }
{
    if !is_within(ADD, REMOVE, numbers[KIND]) {
        return false;
    }
    if PAINT <= numbers[KIND] {
        return 0 <= numbers[LAYER];
    }
    if !is_figure(&numbers[FIGURE..STYLE]) {
        return false;
    }
    is_style(&numbers[STYLE..STYLE_END])
}

// Whether the whole list is calls.
pub fn encodes_calls(numbers: &[i32]) -> bool
    ensures { result ≡ encodes_calls numbers.now }
{
    if numbers.len() % CALL_LENGTH != 0 {
        return false;
    }
    let count = numbers.len() / CALL_LENGTH;
    for j in 0..count {
        let at = CALL_LENGTH * j;
        let end = at + CALL_LENGTH;
        if !is_call(&numbers[at..end]) {
            return false;
        }
    }
    true
}
