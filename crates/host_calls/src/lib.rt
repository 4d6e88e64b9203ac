// A list of sheet calls run for a host. The answer is one number; only where it is 0 has anything been
// written.
#![tactic(auto)]

ghost use Rattle.std.specs.Prelude.{◌≡◌, length};
ghost use Rattle.sheet_calls.specs.SheetCalls.{run_answer};
ghost use Rattle.host_calls.specs.Calls.{run_number, RunTold};

use host_answers::{DONE, NO_RECORD};
use sheet_calls::RunError;

// A list of sheet calls run from a sheet just opened, with one background for its removals, and the
// answer of each. Refused by 6, 8 and 13; the background is looked at by a removal alone.
pub fn run_calls(
    width: u32,
    height: u32,
    calls: &[i32],
    canvas: &mut [u8],
    background: &[u8],
    answers: &mut [u32],
) -> u32
    ensures value { result ≡ run_number (run_answer width height calls.now (length canvas.old)
        (length answers.old)) }
    ensures run_told { RunTold width height calls.now canvas.old background.now answers.old
        canvas.new answers.new }
    ensures background_value { background.exit.now ≡ background.entry.now }
{
    let ran = sheet_calls::run_calls(width, height, calls, canvas, background, answers);
    let answer = ran.answer;
    match answer {
        Err(RunError::Refused(refusal)) => refusal.number(),
        Err(RunError::NotCalls) => NO_RECORD,
        Ok(()) => DONE,
    }
}
