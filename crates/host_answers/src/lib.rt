// Answers handed to a host as numbers: one u32 that says how a call went, and the values written
// into a lent list.
#![tactic(auto)]

ghost use Rattle.std.specs.Prelude.{◌≡◌, ◌+◌, ◌≤◌, pos, length};
ghost use Rattle.std.proofs.lemmas.List.Edits.{sets};
ghost use Rattle.signed.specs.Signed.{Is};
ghost use Rattle.refusal.specs.Refusal.{answer_number, room_check, keeping};
ghost use Rattle.host_answers.specs.HostAnswers.{held_by32};

use refusal::check_room;

// The answers that are no refusal's number: done; the numbers given are no record; there is nothing
// to give.
pub const DONE: u32 = 0;

pub const NO_RECORD: u32 = 100;

pub const NOTHING: u32 = 101;

// The first number that 32 bits with a sign do not hold.
const PAST_MAX: u32 = i32::MAX as u32 + 1;

// The number as 32 bits with a sign hold it.
pub fn held(n: u32) -> i32
    ensures { Is (held_by32 (pos n)) result }
{
    if n < PAST_MAX {
        return signed::from_u32(n);
    }
    let above = signed::from_u32(n - PAST_MAX);
    signed::sub(signed::sub(above, i32::MAX), 1)
}

// Writes the values from a place of the list on.
pub fn put_from(out: &mut [i32], at: usize, values: &[i32])
    requires { at + length values.now ≤ length out.old }
    ensures { out.new ≡ sets out.old at values.now }
{
    let end = at + values.len();
    out[at..end].copy_from_slice(values);
}

// Writes the values, if the list has room for them (13).
#[tactic(auto, using(refusal::proofs::Checks::passed_above))]
pub fn put_numbers(out: &mut [i32], values: &[i32]) -> u32
    ensures value { result ≡ answer_number (room_check (length values.now) (length out.old)) }
    ensures out_after { out.new ≡ keeping (room_check (length values.now) (length out.old)) out.old
        (sets out.old 0 values.now) }
{
    if let Err(refusal) = check_room(values.len(), out.len()) {
        return refusal.number();
    }
    put_from(out, 0, values);
    DONE
}
