// The calls that a line can ask for: those of the host's crates, as C makes them, and those of the
// library that a host does not have. A call more is a line of TABLE, an arm below, and a function
// where the arm has more to do than to hand on.
#![tactic(auto)]

ghost use Rattle.std.specs.Prelude.{◌≤◌};

use geometry::{Point, Size};
use geometry_range::Range;
use host_answers::{NO_RECORD, held, put_numbers};
use host_values::put_rectangle;
use rectangle::Rectangle;
use refusal::Refusal;
use style::{StrokeAlignment, Style};

// A line for each call: its name, and how many numbers, lists of numbers and lists of bytes it takes.
// The arms of `make` and `on_rectangle` go by these lines, counted from 0.
pub const TABLE: [u8; 350] = *b"contains 220
row 120
points 030
offset 120
confined_radii 020
ellipse_with_center 410
styled_row 130
styled_bounding_box 030
paint_figure 221
sheet_open 210
sheet_add 030
sheet_paint 111
sheet_remove 112
run_calls 222
write_p5 212
write_p4 212
read_netpbm 012
center 410
with_center 410
rows 410
columns 410
rectangle_offset 510
range 310
widths 210
";

// A number of a line as a u32, and as an i32.
fn unsigned(n: &[u32], i: usize) -> u32 {
    if i < n.len() {
        return n[i];
    }
    0
}

fn integer(n: &[u32], i: usize) -> i32 {
    held(unsigned(n, i))
}

// Makes a call with the numbers n and the lists of a line: a, b and c of numbers, p and q of bytes. i0
// and i1 are the first two numbers with a sign, u0 and u1 without.
pub fn make(
    call: usize,
    n: &[u32],
    a: &mut [i32],
    b: &mut [i32],
    c: &mut [i32],
    p: &mut [u8],
    q: &mut [u8],
) -> u32 {
    let i0 = integer(n, 0);
    let i1 = integer(n, 1);
    let u0 = unsigned(n, 0);
    let u1 = unsigned(n, 1);
    match call {
        0 => host_figures::contains(a, i0, i1, b),
        1 => host_figures::row(a, i0, b),
        2 => host_points::points(a, b, c),
        3 => host_figures::offset(a, i0, b),
        4 => host_figures::confined_radii(a, b),
        5 => host_figures::ellipse_with_center(i0, i1, unsigned(n, 2), unsigned(n, 3), a),
        6 => host_styled::styled_row(a, b, i0, c),
        7 => host_styled::styled_bounding_box(a, b, c),
        8 => host_paint::paint_figure(a, b, u0, u1, p),
        9 => host_sheet::open(u0, u1, a),
        10 => host_sheet::add(a, b, c),
        11 => host_sheet::paint(a, u0, p),
        12 => host_sheet::remove(a, u0, p, q),
        13 => run_calls(u0, u1, a, p, q, b),
        14 => host_netpbm::write_p5(u0, u1, p, q, a),
        15 => host_netpbm::write_p4(u0, u1, p, q, a),
        16 => host_netpbm::read(p, q, a),
        _ => on_rectangle(call, n, a),
    }
}

// The 32 bits of a number of a list.
fn bits_at(list: &[i32], i: usize) -> u32 {
    if i < list.len() {
        let v = list[i];
        if v < 0 {
            return std::num::wrapping_sub_u32(0, signed::magnitude(v));
        }
        return signed::magnitude(v);
    }
    0
}

// Copies a list into one of unsigned numbers, and back.
fn copy_bits(list: &[i32], answers: &mut [u32]) {
    for (i, answer) in answers.iter_mut().enumerate() {
        *answer = bits_at(list, i);
    }
}

fn copy_back(answers: &[u32], list: &mut [i32]) {
    for (i, n) in list.iter_mut().enumerate() {
        *n = integer(answers, i);
    }
}

// The smaller of two.
fn at_most(n: usize, most: usize) -> usize
    ensures { (result ≤ n) × (result ≤ most) }
{
    if n < most { n } else { most }
}

// Runs a list of sheet calls. Its answers are unsigned, so the list for them is copied there and back.
fn run_with(
    width: u32,
    height: u32,
    calls: &[i32],
    canvas: &mut [u8],
    background: &[u8],
    list: &mut [i32],
    answers: &mut [u32],
) -> u32 {
    copy_bits(list, answers);
    let answer = host_calls::run_calls(width, height, calls, canvas, background, answers);
    copy_back(answers, list);
    answer
}

fn run_within(
    width: u32,
    height: u32,
    calls: &[i32],
    canvas: &mut [u8],
    background: &[u8],
    list: &mut [i32],
    answers: &mut [u32],
) -> u32 {
    let count = at_most(list.len(), answers.len());
    run_with(
        width,
        height,
        calls,
        canvas,
        background,
        &mut list[..count],
        &mut answers[..count],
    )
}

fn run_calls(
    width: u32,
    height: u32,
    calls: &[i32],
    canvas: &mut [u8],
    background: &[u8],
    list: &mut [i32],
) -> u32 {
    let mut answers = [0u32; 128];
    run_within(width, height, calls, canvas, background, list, &mut answers)
}

// The calls that a host does not have: of rectangles, runs and stroke widths. They are answered in
// the host's manner.
fn on_rectangle(call: usize, n: &[u32], out: &mut [i32]) -> u32 {
    match call {
        17 => center(rectangle(n), out),
        18 => put_answer(with_center(n), out),
        19 => put_range(rectangle(n).rows(), out),
        20 => put_range(rectangle(n).columns(), out),
        21 => put_answer(rectangle(n).offset(integer(n, 4)), out),
        22 => range(n, out),
        _ => widths(n, out),
    }
}

fn rectangle(n: &[u32]) -> Rectangle {
    Rectangle {
        top_left: Point {
            x: integer(n, 0),
            y: integer(n, 1),
        },
        size: Size {
            width: unsigned(n, 2),
            height: unsigned(n, 3),
        },
    }
}

fn with_center(n: &[u32]) -> Result<Rectangle, Refusal> {
    let given = rectangle(n);
    Rectangle::with_center(given.top_left, given.size)
}

fn put_answer(answer: Result<Rectangle, Refusal>, out: &mut [i32]) -> u32 {
    match answer {
        Err(refusal) => refusal.number(),
        Ok(made) => put_rectangle(made, out),
    }
}

fn put_pair(first: i32, second: i32, out: &mut [i32]) -> u32 {
    let values = [first, second];
    put_numbers(out, &values)
}

fn put_range(answer: Result<Range, Refusal>, out: &mut [i32]) -> u32 {
    match answer {
        Err(refusal) => refusal.number(),
        Ok(run) => put_pair(run.start, run.end, out),
    }
}

fn center(given: Rectangle, out: &mut [i32]) -> u32 {
    match given.center() {
        Err(refusal) => refusal.number(),
        Ok(middle) => put_pair(middle.x, middle.y, out),
    }
}

fn one_if(test: bool) -> i32 {
    if test { 1 } else { 0 }
}

// Whether a run contains v, and whether it is empty.
fn range(n: &[u32], out: &mut [i32]) -> u32 {
    let run = Range {
        start: integer(n, 0),
        end: integer(n, 1),
    };
    put_pair(
        one_if(run.contains(integer(n, 2))),
        one_if(run.is_empty()),
        out,
    )
}

fn widths_of(width: u32, alignment: StrokeAlignment, out: &mut [i32]) -> u32 {
    let style = Style::new(None, None, width);
    match style.with_alignment(alignment).widths() {
        Err(refusal) => refusal.number(),
        Ok(parts) => put_pair(held(parts.outside), held(parts.inside), out),
    }
}

// The parts of a stroke width; an alignment is 0, 1 or 2.
fn widths(n: &[u32], out: &mut [i32]) -> u32 {
    let alignment = unsigned(n, 1);
    match alignment {
        0 => widths_of(unsigned(n, 0), StrokeAlignment::Inside, out),
        1 => widths_of(unsigned(n, 0), StrokeAlignment::Center, out),
        2 => widths_of(unsigned(n, 0), StrokeAlignment::Outside, out),
        _ => NO_RECORD,
    }
}
