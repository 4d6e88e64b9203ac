// What is written of a call: numbers, lists, and checksums of bytes.
ghost use Rattle.std.specs.Prelude.{◌<◌, ◌≤◌, length};

use std::io::{self, Write};

// The modulus of Adler-32 (RFC 1950).
const MODULUS: u64 = 65521;

pub fn write_text<W: Write>(out: &mut W, text: &[u8]) -> io::Result<()> {
    out.write_all(text)
}

pub fn write_number<W: Write>(out: &mut W, n: u64) -> io::Result<()> {
    write!(out, "{n}")
}

fn write_signed<W: Write>(out: &mut W, v: i32) -> io::Result<()> {
    if v < 0 {
        write_text(out, b"-")?;
    }
    write_number(out, signed::wide(signed::magnitude(v)))
}

// Where the equal numbers that begin at a place of a list end.
fn run_end(list: &[i32], from: usize) -> usize
    requires { from < length list.now }
    ensures { (from < result) × (result ≤ length list.now) }
{
    let first = list[from];
    for at in from + 1..list.len() {
        if list[at] != first {
            return at;
        }
    }
    list.len()
}

// An entry of a list: a number, and how often it stands there if that is more than once; before each
// but the first a space.
fn write_entry<W: Write>(out: &mut W, v: i32, start: usize, times: usize) -> io::Result<()> {
    if 0 < start {
        write_text(out, b" ")?;
    }
    write_signed(out, v)?;
    if 1 < times {
        write_text(out, b"*")?;
        write_number(out, times as u64)?;
    }
    Ok(())
}

fn write_entries<W: Write>(out: &mut W, list: &[i32]) -> io::Result<()> {
    let mut start: usize = 0;
    // A while: the steps are not of one, each goes past a whole run.
    while start < list.len() {
        let end = run_end(list, start);
        write_entry(out, list[start], start, end - start)?;
        start = end;
    }
    Ok(())
}

// A space and the first so many numbers of a list; nothing of an empty one.
pub fn write_list<W: Write>(out: &mut W, list: &[i32], count: usize) -> io::Result<()> {
    if 0 < count {
        write_text(out, b" [")?;
        if count <= list.len() {
            write_entries(out, &list[..count])?;
        }
        write_text(out, b"]")?;
    }
    Ok(())
}

fn wide(b: u8) -> u64
    ensures { result < 256 }
{
    b as u64
}

// The Adler-32 of bytes.
fn adler32(bytes: &[u8]) -> u64 {
    let mut low: u64 = 1;
    let mut high: u64 = 0;
    for b in bytes {
        low = (low % MODULUS + wide(*b)) % MODULUS;
        high = (high % MODULUS + low) % MODULUS;
    }
    65536 * (high % MODULUS) + low % MODULUS
}

// A space and the checksum of the first so many bytes; nothing of none.
pub fn write_sum<W: Write>(out: &mut W, bytes: &[u8], count: usize) -> io::Result<()> {
    if 0 < count {
        write_text(out, b" #")?;
        if count <= bytes.len() {
            write_number(out, adler32(&bytes[..count]))?;
        }
    }
    Ok(())
}
