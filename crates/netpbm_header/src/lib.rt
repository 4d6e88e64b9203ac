// The header of a Netpbm P4 or P5 picture, put at the start of a lent file buffer: the part of `netpbm`
// that does not depend on the pixels.
#![tactic(auto)]

ghost use Rattle.std.specs.Prelude.{◌≡◌, ◌++◌, ◌+◌, ◌≤◌, length};
ghost use Rattle.netpbm_text.specs.Written.{Wrote};
ghost use Rattle.netpbm_header.specs.Header.{magic, line_feed, ending, header};

use canvas_size::CanvasSize;
use netpbm_text::{number_length, put, put_number};

// The raster of a picture: rows of bits, or a byte for each pixel.
#[derive(Clone, Copy)]
pub enum Format {
    P4,
    P5,
}

// The bytes of a header other than its two numbers.
fn fixed_length(format: Format) -> usize
    ensures { result ≡ 4 + length (ending format) }
{
    match format {
        Format::P4 => 5,
        Format::P5 => 9,
    }
}

pub fn header_length(format: Format, size: CanvasSize) -> usize
    ensures { result ≡ length (header format size.width size.height) }
{
    fixed_length(format) + number_length(size.width) + number_length(size.height)
}

// Puts the magic and LF at the start of file.
fn put_magic(file: &mut [u8], format: Format) -> usize
    requires { 3 ≤ length file.old }
    ensures { Wrote file.old 0 (magic format ++ line_feed) file.new result }
{
    match format {
        Format::P4 => put(file, 0, b"P4\n"),
        Format::P5 => put(file, 0, b"P5\n"),
    }
}

// Puts what stands after the height.
fn put_ending(file: &mut [u8], at: usize, format: Format) -> usize
    requires { at + length (ending format) ≤ length file.old }
    ensures { Wrote file.old at (ending format) file.new result }
{
    match format {
        Format::P4 => put(file, at, b"\n"),
        Format::P5 => put(file, at, b"\n255\n"),
    }
}

// Puts the magic, LF, W, space, H and what stands after it at the start of file.
pub fn put_header(file: &mut [u8], format: Format, size: CanvasSize) -> usize
    requires { length (header format size.width size.height) ≤ length file.old }
    ensures { Wrote file.old 0 (header format size.width size.height) file.new result }
{
    let width_at = put_magic(file, format);
    let space_at = put_number(file, width_at, size.width);
    let height_at = put(file, space_at, b" ");
    let ending_at = put_number(file, height_at, size.height);
    put_ending(file, ending_at, format)
}
