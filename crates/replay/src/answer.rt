// A line answered: the call that it names is looked up, its arguments are read as that call takes
// them, and what the call answered and left in its lists is written.
ghost use Rattle.std.specs.Prelude.{◌≤◌, length};

use replay_calls::{TABLE, make};
use replay_lines::names::{Takes, find};
use replay_lines::output::{write_list, write_number, write_sum, write_text};
use replay_lines::words::{byte_at, read_bytes, read_list, read_numbers};
use std::io::{self, Write};

// What a line lends: how many lists of numbers and of bytes, how much of each, and the place after it
// all.
#[derive(Clone, Copy)]
pub(crate) struct Lent {
    pub lists: usize,
    pub byte_lists: usize,
    pub a: usize,
    pub b: usize,
    pub c: usize,
    pub p: usize,
    pub q: usize,
    pub at: usize,
}

// Where a line's first word ends.
fn name_end(line: &[u8]) -> usize
    ensures { result ≤ length line.now }
{
    for (at, b) in line.iter().enumerate() {
        if *b == b' ' {
            return at;
        }
    }
    line.len()
}

// The first so many entries of a list.
fn numbers_of(list: &mut [i32], count: usize) -> &mut [i32] {
    if count < list.len() {
        return &mut list[..count];
    }
    list
}

fn bytes_of(list: &mut [u8], count: usize) -> &mut [u8] {
    if count < list.len() {
        return &mut list[..count];
    }
    list
}

// Makes a call with what a line lends of each list, and writes what came of it.
fn answer_with<W: Write>(
    out: &mut W,
    call: usize,
    n: &[u32],
    lent: Lent,
    a: &mut [i32],
    b: &mut [i32],
    c: &mut [i32],
    p: &mut [u8],
    q: &mut [u8],
) -> io::Result<()> {
    let answer = make(
        call,
        n,
        numbers_of(a, lent.a),
        numbers_of(b, lent.b),
        numbers_of(c, lent.c),
        bytes_of(p, lent.p),
        bytes_of(q, lent.q),
    );
    write_number(out, signed::wide(answer))?;
    write_list(out, a, lent.a)?;
    write_list(out, b, lent.b)?;
    write_list(out, c, lent.c)?;
    write_sum(out, p, lent.p)?;
    write_sum(out, q, lent.q)
}

// How many lists were read, by the places before and after each.
fn lists_read(start: usize, after_a: usize, after_b: usize, after_c: usize) -> usize {
    if after_b != after_c {
        return 3;
    }
    if after_a != after_b {
        return 2;
    }
    if start != after_a {
        return 1;
    }
    0
}

// Reads the lists of a line, first those of numbers.
fn read_lists(
    line: &[u8],
    from: usize,
    a: &mut [i32],
    b: &mut [i32],
    c: &mut [i32],
    p: &mut [u8],
    q: &mut [u8],
) -> Lent {
    let in_a = read_list(line, from, a);
    let in_b = read_list(line, in_a.at, b);
    let in_c = read_list(line, in_b.at, c);
    let in_p = read_bytes(line, in_c.at, p);
    let in_q = read_bytes(line, in_p.at, q);
    Lent {
        lists: lists_read(from, in_a.at, in_b.at, in_c.at),
        byte_lists: lists_read(in_c.at, in_p.at, in_q.at, in_q.at),
        a: in_a.count,
        b: in_b.count,
        c: in_c.count,
        p: in_p.count,
        q: in_q.count,
        at: in_q.at,
    }
}

// Whether a line has what a call takes, and ends there.
fn fits(numbers: usize, lent: Lent, takes: Takes, line: &[u8]) -> bool {
    if numbers != takes.numbers {
        return false;
    }
    if lent.lists != takes.lists {
        return false;
    }
    if lent.byte_lists != takes.byte_lists {
        return false;
    }
    lent.at == line.len()
}

// Answers a line that asks for a call, with the place where its arguments begin.
fn answer_call<W: Write>(
    out: &mut W,
    call: usize,
    takes: Takes,
    line: &[u8],
    from: usize,
) -> io::Result<()> {
    let mut n = [0u32; 32];
    let mut a = [0i32; 2048];
    let mut b = [0i32; 2048];
    let mut c = [0i32; 128];
    let mut p = [0u8; 12288];
    let mut q = [0u8; 12352];
    let in_n = read_numbers(line, from, &mut n);
    let lent = read_lists(line, in_n.at, &mut a, &mut b, &mut c, &mut p, &mut q);
    if fits(in_n.count, lent, takes, line) {
        answer_with(out, call, &n, lent, &mut a, &mut b, &mut c, &mut p, &mut q)
    } else {
        write_text(out, b"error: not what this call takes")
    }
}

// Answers a line that asks for a call of the table.
fn answer_from<W: Write>(out: &mut W, table: &[u8], line: &[u8]) -> io::Result<()> {
    let end = name_end(line);
    let Some((call, takes)) = find(table, &line[..end]) else {
        return write_text(out, b"error: no such call");
    };
    answer_call(out, call, takes, line, end)
}

// Answers a line. A remark, which begins with #, is answered by itself.
pub(crate) fn answer<W: Write>(out: &mut W, line: &[u8]) -> io::Result<()> {
    if byte_at(line, 0) == b'#' {
        write_text(out, line)
    } else {
        answer_from(out, &TABLE, line)
    }
}
