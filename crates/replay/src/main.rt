// Makes calls of the library from lines of text, as a host makes them, and writes what each call
// answered and left in the lists that it was lent. oracle/README.md has the format of a line, and how
// the stored ones, stdin and stdout beside this folder, are made.
//
// Every function is proved safe and to end, and promises at most where it stays: what the calls answer
// is promised where they are made, and what this program writes is compared with the stored lines. A line has
// 8,192 bytes of room, and what it lends 42,176 (answer.rt, and the answers of `run_calls`).
#![tactic(auto)]

mod answer;

use std::io::{self, Read, Write};

// How many bytes of the line buffer hold the next line.
#[derive(Clone, Copy)]
pub(crate) enum Line {
    Held(usize),
    TooLong,
    End,
}

// The next byte of the input, if there is one.
fn read_byte<R: Read>(input: &mut R) -> io::Result<Option<u8>> {
    let mut part = [0u8; 1];
    if input.read(&mut part)? == 0 {
        return Ok(None);
    }
    Ok(Some(part[0]))
}

// Passes over the rest of a line. A proved loop has to end, so it counts its turns up to a number that
// no run uses up; the same in main.
fn skip_line<R: Read>(input: &mut R) -> io::Result<Line> {
    for _ in 0..u64::MAX {
        let Some(b) = read_byte(input)? else {
            return Ok(Line::TooLong);
        };
        if b == b'\n' {
            return Ok(Line::TooLong);
        }
    }
    Ok(Line::TooLong)
}

// A last line without a line end counts as one.
fn last_line(used: usize) -> Line {
    if used == 0 {
        return Line::End;
    }
    Line::Held(used)
}

fn read_line<R: Read>(input: &mut R, line: &mut [u8]) -> io::Result<Line> {
    for used in 0..line.len() {
        let Some(b) = read_byte(input)? else {
            return Ok(last_line(used));
        };
        if b == b'\n' {
            return Ok(Line::Held(used));
        }
        line[used] = b;
    }
    skip_line(input)
}

// Answers the next line of the input; false at its end.
fn serve<R: Read, W: Write>(input: &mut R, out: &mut W, line: &mut [u8]) -> io::Result<bool> {
    match read_line(input, line)? {
        Line::End => return Ok(false),
        Line::TooLong => out.write_all(b"error: a line of more than 8191 bytes\n")?,
        Line::Held(used) => {
            if used <= line.len() {
                answer::answer(out, &line[..used])?;
            }
            out.write_all(b"\n")?;
        }
    }
    // whoever asks a line at a time reads its answer before the next
    out.flush()?;
    Ok(true)
}

fn main(rt: HostRuntime) -> io::Result<()> {
    let mut line = [0u8; 8192];
    let mut input = rt.reader();
    let mut out = io::writer(&rt);
    for _ in 0..u64::MAX {
        if !serve(&mut input, &mut out, &mut line)? {
            return Ok(());
        }
    }
    Ok(())
}
