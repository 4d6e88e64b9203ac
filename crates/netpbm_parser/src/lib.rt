// The header of a Netpbm file, P4 or P5, read in one walk over its bytes. A number that is larger than
// any limit is kept as one that is above every limit too (`MOST_KEPT`), so that digits may go on.
// Document 02 adds it; the Rust has no such file.
#![tactic(auto)]

ghost use Rattle.std.specs.Prelude.{◌≡◌, true, false, ◌+◌, ◌*◌, ◌-◌, ◌≤◌, min, length, drop};
ghost use Rattle.netpbm_text.specs.Bytes.{digit_value};
ghost use Rattle.netpbm_parser.specs.Parser.{digits, after_gap, after_white, closing, of_width, file_header};
ghost use Rattle.netpbm_parser.specs.Parser.{number as parser_number};
ghost use Rattle.netpbm_parser.specs.Capped.{most_kept, capped, capped_header, number_in, place_in, header_in, NumberWithin, PlaceWithin, HeaderWithin, Piece};

use netpbm_header::Format;
use netpbm_text::{ends_comment, is_digit, is_white};

// The largest number that is kept.
const MOST_KEPT: u32 = 65536;

#[derive(Clone, Copy)]
pub struct Header {
    pub format: Format,
    pub width: u32,
    pub height: u32,
    // Where the raster begins.
    pub raster: usize,
}

// The place behind the CR or LF that ends a comment, or the file's end, where no number follows.
#[tactic(auto, using(crate::proofs::Gaps::gap_at_end, crate::proofs::Gaps::comment_ends, crate::proofs::Gaps::comment_goes_on))]
fn comment_end(file: &[u8], at: usize) -> usize
    requires { at ≤ length file.now }
    ensures { (at ≤ result) × (result ≤ length file.now)
        × (after_gap true (drop at file.now) ≡ after_gap false (drop result file.now)) }
{
    for i in at..file.len() {
        if ends_comment(file[i]) {
            return i + 1;
        }
    }
    file.len()
}

// The place behind a whitespace byte or a comment at a place; that place where there is none.
fn piece_end(file: &[u8], at: usize) -> usize
    requires { at ≤ length file.now }
    ensures { Piece file.now at result }
{
    if file.len() <= at {
        return at;
    }
    if is_white(file[at]) {
        return at + 1;
    }
    if file[at] == b'#' {
        return comment_end(file, at + 1);
    }
    at
}

// The place behind all whitespace and comments.
fn gap_end(file: &[u8], at: usize) -> usize
    requires { at ≤ length file.now }
    ensures { (result ≤ length file.now)
        × (after_gap false (drop at file.now) ≡ digits (drop result file.now)) }
{
    let mut i = at;
    // A while: the steps are not of one, each goes past a whole piece.
    while i < file.len() {
        let next = piece_end(file, i);
        if next <= i {
            return i;
        }
        i = next;
    }
    i
}

// A number with a digit more, as far as it is kept.
fn with_digit(n: u32, byte: u8) -> u32
    requires n_le_most_kept { n ≤ most_kept }
    requires le_byte { 48 ≤ byte }
    ensures { result ≡ min (10 * n + digit_value byte) most_kept }
{
    let longer = 10 * n + (byte - b'0') as u32;
    if MOST_KEPT < longer {
        return MOST_KEPT;
    }
    longer
}

// One or more digits: the number and the place behind it.
#[tactic(auto, using(crate::proofs::Gaps::digits_at_end, crate::proofs::Gaps::no_digits, crate::proofs::Gaps::some_digits, netpbm_text::proofs::Bytes::digit_least))]
fn read_digits(file: &[u8], at: usize) -> Option<(u32, usize)>
    requires { at ≤ length file.now }
    ensures result_value { number_in file.now result ≡ capped (digits (drop at file.now)) }
    ensures number_within { NumberWithin file.now result }
{
    if file.len() <= at {
        return None;
    }
    if !is_digit(file[at]) {
        return None;
    }
    let mut n: u32 = 0;
    for i in at..file.len() {
        let byte = file[i];
        if !is_digit(byte) {
            return Some((n, i));
        }
        n = with_digit(n, byte);
    }
    Some((n, file.len()))
}

// A number that follows whitespace or comments.
fn read_number(file: &[u8], at: usize) -> Option<(u32, usize)>
    requires { at ≤ length file.now }
    ensures result_value { number_in file.now result ≡ capped (parser_number (drop at file.now)) }
    ensures number_within { NumberWithin file.now result }
{
    let behind = piece_end(file, at);
    if behind <= at {
        return None;
    }
    read_digits(file, gap_end(file, behind))
}

// The place behind one whitespace byte.
fn after_white(file: &[u8], at: usize) -> Option<usize>
    requires { at ≤ length file.now }
    ensures result_value { place_in file.now result ≡ after_white (drop at file.now) }
    ensures place_within { PlaceWithin file.now result }
{
    if file.len() <= at {
        return None;
    }
    if is_white(file[at]) {
        return Some(at + 1);
    }
    None
}

// The place of the raster behind the maximum, which is 255.
#[tactic(auto, using(crate::proofs::Capped::no_maximum, crate::proofs::Capped::other_maximum))]
fn after_maximum(file: &[u8], at: usize) -> Option<usize>
    requires { at ≤ length file.now }
    ensures result_value { place_in file.now result ≡ closing Format.P5 (drop at file.now) }
    ensures place_within { PlaceWithin file.now result }
{
    let (maximum, behind) = read_number(file, at)?;
    if maximum == 255 {
        return after_white(file, behind);
    }
    None
}

// The place of the raster behind the height.
fn raster_place(file: &[u8], format: Format, at: usize) -> Option<usize>
    requires { at ≤ length file.now }
    ensures result_value { place_in file.now result ≡ closing format (drop at file.now) }
    ensures place_within { PlaceWithin file.now result }
{
    match format {
        Format::P4 => after_white(file, at),
        Format::P5 => after_maximum(file, at),
    }
}

// Width, height and raster behind the magic.
#[tactic(auto, using(crate::proofs::Capped::no_width, crate::proofs::Capped::no_height, crate::proofs::Capped::both_sides))]
fn read_sides(file: &[u8], format: Format) -> Option<Header>
    requires { 2 ≤ length file.now }
    ensures result_value { header_in file.now result ≡ capped_header (of_width format (parser_number (drop 2 file.now))) }
    ensures header_within { HeaderWithin file.now result }
{
    let (width, behind_width) = read_number(file, 2)?;
    let (height, behind_height) = read_number(file, behind_width)?;
    let raster = raster_place(file, format, behind_height)?;
    Some(Header {
        format: format,
        width: width,
        height: height,
        raster: raster,
    })
}

// The header with which a file begins.
pub fn read_header(file: &[u8]) -> Option<Header>
    ensures result_value { header_in file.now result ≡ capped_header (file_header file.now) }
    ensures header_within { HeaderWithin file.now result }
{
    if file.starts_with(b"P4") {
        return read_sides(file, Format::P4);
    }
    if file.starts_with(b"P5") {
        return read_sides(file, Format::P5);
    }
    None
}
