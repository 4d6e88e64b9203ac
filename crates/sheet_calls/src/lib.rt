// A list of calls, written as numbers (crate sheet_call_numbers), run from a sheet just opened on one
// canvas, with one background for its removals: the function whose promise is demand 3.
#![tactic(auto)]

ghost use Rattle.std.specs.Prelude.{◌≡◌, ◌*◌, ◌≤◌, length};
ghost use Rattle.refusal.specs.Refusal.{answer_number};
ghost use Rattle.sheet.specs.SheetDemand3.{sheet_after_all, canvas_after_all};
ghost use Rattle.sheet_call_numbers.specs.CallNumbers.{call_length, call_of, calls_from, calls_of};
ghost use Rattle.sheet_calls.specs.SheetCalls.{run_said, run_answer, Called, answers_after, RunLeaves};

use canvas_size::CanvasSize;
use refusal::{Checked, Refusal, check_room};
use sheet::{Sheet, SheetOutcome};
use sheet_call_numbers::{CALL_LENGTH, FIGURE, KIND, LAYER, PAINT, REMOVE, STYLE, STYLE_END};

// Why no call of a list was made.
#[derive(Clone, Copy)]
pub enum RunError {
    Refused(Refusal),
    // The numbers are no list of calls.
    NotCalls,
}

#[derive(Clone, Copy)]
pub struct RunOutcome {
    pub sheet: Sheet,
    pub answer: Result<(), RunError>,
}

// The number that stands for an answer: 0 for accepted.
pub fn number_of(answer: Checked) -> u32
    ensures { result ≡ answer_number answer }
{
    match answer {
        Err(refusal) => refusal.number(),
        Ok(()) => 0,
    }
}

// Makes one call.
fn make_call(sheet: Sheet, numbers: &[i32], canvas: &mut [u8], background: &[u8]) -> SheetOutcome
    requires { length numbers.now ≡ call_length }
    ensures { Called (call_of background.now numbers.now) sheet canvas.old result
        canvas.new }
{
    if REMOVE <= numbers[KIND] {
        return sheet.remove(signed::floor0(numbers[LAYER]), canvas, background);
    }
    if PAINT <= numbers[KIND] {
        return sheet.paint(signed::floor0(numbers[LAYER]), canvas);
    }
    sheet.add(
        host_records::figure_of(&numbers[FIGURE..STYLE]),
        host_records::style_of(&numbers[STYLE..STYLE_END]),
    )
}

// Makes so many calls in order, and writes their answers.
fn make_calls(
    sheet: Sheet,
    count: usize,
    numbers: &[i32],
    canvas: &mut [u8],
    background: &[u8],
    answers: &mut [u32],
) -> Sheet
    requires count_in_bounds { call_length * count ≤ length numbers.now }
    requires count_in_bounds_2 { count ≤ length answers.old }
    ensures answers_after { answers.new ≡ answers_after answers.old sheet canvas.old
        (calls_from background.now numbers.now 0 count) }
    ensures value { result ≡ sheet_after_all sheet canvas.old (calls_from background.now numbers.now 0 count) }
    ensures canvas_after { canvas.new ≡ canvas_after_all sheet canvas.old
        (calls_from background.now numbers.now 0 count) }
{
    let mut current = sheet;
    for j in 0..count {
        let at = CALL_LENGTH * j;
        let end = at + CALL_LENGTH;
        let made = make_call(current, &numbers[at..end], canvas, background);
        current = made.sheet;
        answers[j] = number_of(made.answer);
    }
    current
}

// Runs a list of calls from a sheet just opened, on a canvas of its size. Refused by 6, 8 and 13, and
// answered `NotCalls` for numbers that are no list of calls: then nothing is run and nothing written.
// Else each call's answer is written, 0 for accepted, and the canvas is left as the calls painted it.
// Each removal in the list gets the one background, and 8 if that has another length than the canvas.
pub fn run_calls(
    width: u32,
    height: u32,
    calls: &[i32],
    canvas: &mut [u8],
    background: &[u8],
    answers: &mut [u32],
) -> RunOutcome
    ensures answer_value { run_said result.answer ≡ run_answer width height calls.now (length canvas.old)
        (length answers.old) }
    ensures run_leaves { RunLeaves (run_said result.answer) width height (calls_of background.now calls.now)
        canvas.old answers.old result.sheet canvas.new answers.new }
    ensures background_value { background.exit.now ≡ background.entry.now }
{
    let opened = Sheet::open(width, height);
    let sheet = opened.sheet;
    let size = CanvasSize {
        width: width,
        height: height,
    };
    let count = calls.len() / CALL_LENGTH;
    let lent = size.check().and(size.check_length(canvas.len()));
    if let Err(refusal) = lent.and(check_room(count, answers.len())) {
        return RunOutcome {
            sheet: sheet,
            answer: Err(RunError::Refused(refusal)),
        };
    }
    if !sheet_call_numbers::encodes_calls(calls) {
        return RunOutcome {
            sheet: sheet,
            answer: Err(RunError::NotCalls),
        };
    }
    let made = make_calls(sheet, count, calls, canvas, background, answers);
    RunOutcome {
        sheet: made,
        answer: Ok(()),
    }
}
