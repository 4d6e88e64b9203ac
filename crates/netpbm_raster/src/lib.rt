// The raster of a one-colour Netpbm picture, P4 (the netpbm tools' `pbm(5)`): rows of bits, eight to a
// byte, high bit first, each row filled up to a whole byte. Packing and unpacking go by the byte, for
// rows of any width. Document 02 adds it; the Rust has no such file.
#![tactic(auto)]

ghost use Rattle.std.specs.Prelude.{◌≡◌, ◌+◌, ◌*◌, ◌≤◌, length, drop};
ghost use Rattle.netpbm_text.specs.Written.{Wrote};
ghost use Rattle.netpbm_raster.specs.Raster.{bit, packed_byte, row_bytes, raster_length, packed_row, packed_rows, unpacked_row, unpacked_rows};
ghost use Rattle.netpbm_raster.specs.Steps.{shifted_out};

use canvas_size::CanvasSize;
use netpbm_header::Format;

// The bytes that a row of so many pixels takes.
fn row_bytes(width: usize) -> usize
    requires { width ≤ 4294967295 }
    ensures { result ≡ row_bytes width }
{
    (width + 7) / 8
}

// The bytes of a raster, which has so many pixels.
pub fn raster_length(format: Format, size: CanvasSize, pixels: usize) -> usize
    ensures { result ≡ raster_length format size.width size.height pixels }
{
    match format {
        Format::P4 => size.height as usize * row_bytes(size.width as usize),
        Format::P5 => pixels,
    }
}

// What a pixel adds to its byte: a nonzero one the weight of its bit.
fn weight_of(pixel: u8, weight: u8) -> u8
    ensures { (result ≡ weight * bit pixel) × (result ≤ weight) }
{
    if pixel == 0 { 0 } else { weight }
}

// The byte of eight pixels from the place at on; where the row ends before them, the rest are 0 bits.
fn packed_byte(row: &[u8], at: usize) -> u8
    ensures { result ≡ packed_byte (drop at row.now) }
{
    let mut byte: u8 = 0;
    let mut weight: u8 = 128;
    let mut i = at;
    // A while: each turn halves the weight, and counts no steps of one.
    while 0 < weight {
        if row.len() <= i {
            return byte;
        }
        byte += weight_of(row[i], weight);
        weight /= 2;
        i += 1;
    }
    byte
}

// Puts a row as bits into out from the place at on.
fn put_row(out: &mut [u8], at: usize, row: &[u8]) -> usize
    requires row_len_bound { length row.now ≤ 4294967295 }
    requires row_in_bounds { at + row_bytes (length row.now) ≤ length out.old }
    ensures { Wrote out.old at (packed_row (length row.now) row.now) out.new result }
{
    let bytes = row_bytes(row.len());
    for j in 0..bytes {
        out[at + j] = packed_byte(row, 8 * j);
    }
    at + bytes
}

// Puts the rows of a canvas, height of width pixels, as bits into out from the place at on.
#[tactic(auto, using(crate::proofs::Rows::turn_within))]
pub fn put_rows(out: &mut [u8], at: usize, width: usize, height: usize, canvas: &[u8]) -> usize
    requires width_bound { width ≤ 4294967295 }
    requires width_in_bounds { height * width ≤ length canvas.now }
    requires width_in_bounds_2 { at + height * row_bytes width ≤ length out.old }
    ensures { Wrote out.old at (packed_rows width height canvas.now) out.new result }
{
    let mut from: usize = 0;
    let mut next = at;
    for _ in 0..height {
        let end = from + width;
        next = put_row(out, next, &canvas[from..end]);
        from = end;
    }
    next
}

// Writes the first bits of a byte, one to each pixel.
fn unpack_byte(byte: u8, pixels: &mut [u8])
    ensures { pixels.new ≡ shifted_out (length pixels.old) byte }
{
    let mut rest = byte;
    for pixel in pixels.iter_mut() {
        *pixel = rest / 128;
        rest = rest % 128 * 2;
    }
}

// Writes the row that bytes hold.
fn unpack_row(bytes: &[u8], row: &mut [u8])
    requires { length row.old ≤ 8 * length bytes.now }
    ensures { row.new ≡ unpacked_row (length row.old) bytes.now }
{
    let mut at: usize = 0;
    let mut j: usize = 0;
    // A while: the steps are of eight.
    while 8 <= row.len() - at {
        let end = at + 8;
        unpack_byte(bytes[j], &mut row[at..end]);
        at = end;
        j += 1;
    }
    if at < row.len() {
        unpack_byte(bytes[j], &mut row[at..]);
    }
}

// Writes the rows that a raster holds, height of width pixels, over the canvas.
#[tactic(auto, using(crate::proofs::Rows::turn_within))]
pub fn unpack_rows(raster: &[u8], width: usize, height: usize, canvas: &mut [u8])
    requires width_bound { width ≤ 4294967295 }
    requires canvas_len { length canvas.old ≡ height * width }
    requires width_in_bounds { height * row_bytes width ≤ length raster.now }
    ensures { canvas.new ≡ unpacked_rows width height raster.now }
{
    let bytes = row_bytes(width);
    let mut from: usize = 0;
    let mut at: usize = 0;
    for _ in 0..height {
        let from_end = from + bytes;
        let end = at + width;
        unpack_row(&raster[from..from_end], &mut canvas[at..end]);
        from = from_end;
        at = end;
    }
}
