// The values of the calls' answers put into a host's list.
#![tactic(auto)]

ghost use Rattle.std.specs.Prelude.{◌≡◌, [], ◌∷◌, ◌++◌, map, pos};
ghost use Rattle.refusal.specs.Refusal.{answered};
ghost use Rattle.host_answers.specs.HostAnswers.{held_by32, Tells};
ghost use Rattle.rectangle.specs.Calls.{rectangle_values};
ghost use Rattle.figure.specs.Calls.{flag, scanline_values, radii_values, confined_radii_values, figure_values};
ghost use Rattle.styled.specs.Calls.{styled_scanline_values};

use corner_radii::{ConfinedRadii, CornerRadii};
use figure::Figure;
use host_answers::{held, put_from, put_numbers};
use rectangle::Rectangle;
use rounded_rectangle::RoundedRectangle;
use scanline::{Scanline, StyledScanline};

// How many numbers a figure has before its radii, and how many its radii have (specs of `host_records`,
// which is not needed here for anything else); and how many a fraction has.
const PLAIN_LENGTH: usize = 5;

const RADII_LENGTH: usize = 8;

const FRACTION_LENGTH: usize = 2;

// A number.
pub fn put_count(n: u32, out: &mut [i32]) -> u32
    ensures { Tells (answered (pos n ∷ [])) out.old result out.new }
{
    let values = [held(n)];
    put_numbers(out, &values)
}

// 1 for true, 0 for false.
pub fn put_flag(inside: bool, out: &mut [i32]) -> u32
    ensures { Tells (answered (flag inside ∷ [])) out.old result out.new }
{
    if inside {
        return put_count(1, out);
    }
    put_count(0, out)
}

// A row's y and the ends of its run.
pub fn put_row(row: Scanline, out: &mut [i32]) -> u32
    ensures { Tells (answered (scanline_values row)) out.old result out.new }
{
    let run = row.x;
    let values = [row.y, run.start, run.end];
    put_numbers(out, &values)
}

// A styled row's y and the ends of its three runs.
pub fn put_styled_row(row: StyledScanline, out: &mut [i32]) -> u32
    ensures { Tells (answered (styled_scanline_values row)) out.old result out.new }
{
    let left = row.stroke_left;
    let fill = row.fill;
    let right = row.stroke_right;
    let values = [
        row.y,
        left.start,
        left.end,
        fill.start,
        fill.end,
        right.start,
        right.end,
    ];
    put_numbers(out, &values)
}

// x, y, width and height.
pub fn put_rectangle(rectangle: Rectangle, out: &mut [i32]) -> u32
    ensures { Tells (answered (rectangle_values rectangle)) out.old result out.new }
{
    let at = rectangle.top_left;
    let size = rectangle.size;
    let values = [at.x, at.y, held(size.width), held(size.height)];
    put_numbers(out, &values)
}

// The radii's numbers: width and height of each corner, clockwise from the top-left.
fn radii_numbers(corners: CornerRadii) -> [i32; RADII_LENGTH]
    ensures { result ≡ map held_by32 (radii_values corners) }
{
    let top_left = corners.top_left;
    let top_right = corners.top_right;
    let bottom_right = corners.bottom_right;
    let bottom_left = corners.bottom_left;
    [
        held(top_left.width),
        held(top_left.height),
        held(top_right.width),
        held(top_right.height),
        held(bottom_right.width),
        held(bottom_right.height),
        held(bottom_left.width),
        held(bottom_left.height),
    ]
}

// The confined radii, then L and S.
pub fn put_confined_radii(confined: ConfinedRadii, out: &mut [i32]) -> u32
    ensures { Tells (answered (confined_radii_values confined)) out.old result out.new }
{
    let radii = radii_numbers(confined.radii);
    let fraction = [held(confined.length), held(confined.sum)];
    let mut values = [0i32; RADII_LENGTH + FRACTION_LENGTH];
    put_from(&mut values, 0, &radii);
    put_from(&mut values, RADII_LENGTH, &fraction);
    put_numbers(out, &values)
}

// The numbers before a box's radii: that of its kind, then x, y, width and height.
fn plain_numbers(kind: u32, rectangle: Rectangle) -> [i32; PLAIN_LENGTH]
    ensures { result ≡ map held_by32 (pos kind ∷ rectangle_values rectangle) }
{
    let at = rectangle.top_left;
    let size = rectangle.size;
    [held(kind), at.x, at.y, held(size.width), held(size.height)]
}

// The number of a kind, then x, y, width and height.
fn put_plain(kind: u32, rectangle: Rectangle, out: &mut [i32]) -> u32
    ensures { Tells (answered (pos kind ∷ rectangle_values rectangle)) out.old result out.new }
{
    let values = plain_numbers(kind, rectangle);
    put_numbers(out, &values)
}

// The same and the radii of a box.
fn put_box(kind: u32, b: RoundedRectangle, out: &mut [i32]) -> u32
    ensures { Tells (answered (pos kind ∷ rectangle_values b.rectangle ++ radii_values b.corners)) out.old result
        out.new }
{
    let plain = plain_numbers(kind, b.rectangle);
    let radii = radii_numbers(b.corners);
    let mut values = [0i32; PLAIN_LENGTH + RADII_LENGTH];
    put_from(&mut values, 0, &plain);
    put_from(&mut values, PLAIN_LENGTH, &radii);
    put_numbers(out, &values)
}

// The kind, the rectangle and a box's radii.
pub fn put_figure(figure: Figure, out: &mut [i32]) -> u32
    ensures { Tells (answered (figure_values figure)) out.old result out.new }
{
    match figure {
        Figure::Ellipse(rectangle) => put_plain(0, rectangle, out),
        Figure::CrateBox(b) => put_box(1, b, out),
        Figure::W3cBox(b) => put_box(2, b, out),
    }
}
