// Names of calls looked up in a table: a line for each call, with its name and three digits, how many
// numbers, lists of numbers and lists of bytes it takes.
ghost use Rattle.std.specs.Prelude.{◌<◌, ◌≤◌, length};

use crate::words::{after, digit};

#[derive(Clone, Copy)]
pub struct Takes {
    pub numbers: usize,
    pub lists: usize,
    pub byte_lists: usize,
}

// The digit so many places after a place of the table.
fn digit_after(table: &[u8], from: usize, places: usize) -> usize {
    let at = from.wrapping_add(places);
    if at < table.len() {
        return digit(table[at]) as usize;
    }
    0
}

// What the digits at a place of the table say.
fn takes_at(table: &[u8], at: usize) -> Takes {
    Takes {
        numbers: digit_after(table, at, 0),
        lists: digit_after(table, at, 1),
        byte_lists: digit_after(table, at, 2),
    }
}

// Where the line after the one at a place of the table begins.
fn next_line(table: &[u8], from: usize) -> usize
    requires { from < length table.now }
    ensures { (from < result) × (result ≤ length table.now) }
{
    for at in from..table.len() {
        if table[at] == b'\n' {
            return at + 1;
        }
    }
    table.len()
}

// The place after a name and a space, if they stand at a place of the table, or else 0.
fn after_name(table: &[u8], from: usize, name: &[u8]) -> usize {
    let mut at = from;
    for b in name {
        at = after(table, at, *b);
        if at == 0 {
            return 0;
        }
    }
    after(table, at, b' ')
}

// Looks a call up by its name.
pub fn find(table: &[u8], name: &[u8]) -> Option<(usize, Takes)> {
    let mut call: usize = 0;
    let mut start: usize = 0;
    // A while: the steps are not of one, each goes past a whole line.
    while start < table.len() {
        let digits = after_name(table, start, name);
        if 0 < digits {
            return Some((call, takes_at(table, digits)));
        }
        start = next_line(table, start);
        call += 1;
    }
    None
}
