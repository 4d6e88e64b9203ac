// Numbers and lists read from a line. What is read comes with the place after it, which is 0 where it
// could not be read; nothing can be read at 0, where the call's name stands, so this goes on to the
// line's end.
use host_answers::held;

// The largest number of 32 bits, and how far below 0 the least one is.
const MOST: u64 = 4294967295;

const FURTHEST: u32 = 2147483648;

// A number of 32 bits, a negative one as its two's complement.
#[derive(Clone, Copy)]
struct Number {
    pub bits: u32,
    pub at: usize,
}

const NO_NUMBER: Number = Number { bits: 0, at: 0 };

// The numbers of a list's entry that are left, and the first of them.
#[derive(Clone, Copy)]
struct Run {
    pub value: u32,
    pub step: u32,
    pub left: u32,
    pub at: usize,
}

// How many places of a list were filled.
#[derive(Clone, Copy)]
pub struct Filled {
    pub count: usize,
    pub at: usize,
}

// The byte at a place, and a line end past the last one.
pub fn byte_at(line: &[u8], at: usize) -> u8 {
    if at < line.len() {
        return line[at];
    }
    b'\n'
}

// The place after a byte, if it stands at a place of the text, or else 0.
pub fn after(text: &[u8], at: usize, b: u8) -> usize {
    if at < text.len() {
        if text[at] == b {
            return at + 1;
        }
    }
    0
}

// The value of a decimal digit, and 10 for any other byte.
pub fn digit(b: u8) -> u64 {
    if b < b'0' {
        return 10;
    }
    if b'9' < b {
        return 10;
    }
    (b - b'0') as u64
}

// Decimal digits.
fn decimal(line: &[u8], from: usize) -> Number {
    let mut value: u64 = 0;
    let mut at = from;
    // A while: the place where it stops is asked for behind it.
    while at < line.len() {
        let d = digit(line[at]);
        if 9 < d {
            break;
        }
        if MOST / 10 < value {
            return NO_NUMBER;
        }
        value = 10 * value + d;
        at += 1;
    }
    if at == from {
        return NO_NUMBER;
    }
    if MOST < value {
        return NO_NUMBER;
    }
    Number {
        bits: value as u32,
        at: at,
    }
}

// A number, with a minus sign before it if it is negative.
fn read_number(line: &[u8], from: usize) -> Number {
    let digits = after(line, from, b'-');
    if digits == 0 {
        return decimal(line, from);
    }
    let size = decimal(line, digits);
    if FURTHEST < size.bits {
        return NO_NUMBER;
    }
    Number {
        bits: 0u32.wrapping_sub(size.bits),
        at: size.at,
    }
}

// The number after a sign that stands at a place; without the sign, the one that is meant then.
fn read_after(line: &[u8], from: usize, sign: u8, otherwise: u32) -> Number {
    let digits = after(line, from, sign);
    if digits == 0 {
        return Number {
            bits: otherwise,
            at: from,
        };
    }
    decimal(line, digits)
}

// No more numbers, and the place where reading goes on.
fn no_run(at: usize) -> Run {
    Run {
        value: 0,
        step: 0,
        left: 0,
        at: at,
    }
}

// An entry of a list: V, V*K or V+S*K, where K is at least 1. A step without a count is none.
fn read_run(line: &[u8], from: usize) -> Run {
    let first = read_number(line, from);
    let step = read_after(line, first.at, b'+', 0);
    let count = read_after(line, step.at, b'*', 1);
    if count.bits == 0 {
        return no_run(0);
    }
    if step.at != first.at {
        if count.at == step.at {
            return no_run(0);
        }
    }
    Run {
        value: first.bits,
        step: step.bits,
        left: count.bits,
        at: count.at,
    }
}

// The run whose first number is the list's next one after that of the run given. At the list's closing
// bracket it has none left, and the place is the one after the bracket.
fn next_run(line: &[u8], run: Run, close: u8) -> Run {
    if 1 < run.left {
        return Run {
            value: run.value.wrapping_add(run.step),
            step: run.step,
            left: run.left - 1,
            at: run.at,
        };
    }
    let next = after(line, run.at, b' ');
    if 0 < next {
        return read_run(line, next);
    }
    no_run(after(line, run.at, close))
}

// The first run of a list, whose bracket stands after a space at a place. Without the bracket there is
// no list.
fn first_run(line: &[u8], from: usize, open: u8, close: u8) -> Run {
    let start = after(line, after(line, from, b' '), open);
    if start == 0 {
        return no_run(from);
    }
    let end = after(line, start, close);
    if 0 < end {
        return no_run(end);
    }
    read_run(line, start)
}

// What was filled of a list that has no more room: all of it, if nothing of a run is left.
fn full(count: usize, run: Run) -> Filled {
    if run.left == 0 {
        return Filled {
            count: count,
            at: run.at,
        };
    }
    Filled { count: 0, at: 0 }
}

// Reads a list of numbers, if there is one.
pub fn read_list(line: &[u8], from: usize, list: &mut [i32]) -> Filled {
    let mut run = first_run(line, from, b'[', b']');
    for count in 0..list.len() {
        if run.left == 0 {
            return Filled {
                count: count,
                at: run.at,
            };
        }
        list[count] = held(run.value);
        run = next_run(line, run, b']');
    }
    full(list.len(), run)
}

// The same for bytes.
pub fn read_bytes(line: &[u8], from: usize, list: &mut [u8]) -> Filled {
    let mut run = first_run(line, from, b'{', b'}');
    for count in 0..list.len() {
        if run.left == 0 {
            return Filled {
                count: count,
                at: run.at,
            };
        }
        list[count] = (run.value % 256) as u8;
        run = next_run(line, run, b'}');
    }
    full(list.len(), run)
}

// Reads numbers, each after a space, as far as there are any.
pub fn read_numbers(line: &[u8], from: usize, numbers: &mut [u32]) -> Filled {
    let mut at = from;
    for count in 0..numbers.len() {
        let number = read_number(line, after(line, at, b' '));
        if number.at == 0 {
            return Filled {
                count: count,
                at: at,
            };
        }
        numbers[count] = number.bits;
        at = number.at;
    }
    Filled {
        count: numbers.len(),
        at: at,
    }
}
