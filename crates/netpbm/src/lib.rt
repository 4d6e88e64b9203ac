// A canvas as a Netpbm picture in a lent file buffer, written and read: P5, the grey format of the
// netpbm tools' `pgm(5)`, with a byte for each pixel, and P4, the one-colour format of `pbm(5)`, with a
// bit for each. Document 01 adds P5, document 02 the rest; the Rust has no such file.
//
// The calls that a host makes have no `requires`: they refuse by the first number that applies and
// then have written nothing. The functions below them are for callers that have made the checks.
#![tactic(auto)]

ghost use Rattle.std.specs.Prelude.{◌≡◌, ◌+◌, ◌*◌, ◌≤◌, length};
ghost use Rattle.netpbm_text.specs.Written.{Wrote};
ghost use Rattle.netpbm_header.specs.declared.Format.TheVariants.{P4, P5};
ghost use Rattle.netpbm_read.specs.Read.{read_outcome, read_call, canvas_after};
ghost use Rattle.netpbm.specs.Netpbm.{raster, picture, write_outcome, write_call, file_after};

use canvas_size::CanvasSize;
use netpbm_header::{Format, header_length, put_header};
use netpbm_raster::{put_rows, raster_length};
use netpbm_read::read_beside;
use netpbm_text::put;
use refusal::{Refusal, check_room};

// Puts the raster from the place at on.
fn put_raster(file: &mut [u8], at: usize, format: Format, size: CanvasSize, canvas: &[u8]) -> usize
    requires canvas_len { length canvas.now ≡ size.width * size.height }
    requires canvas_in_bounds { at + length (raster format size.width size.height canvas.now) ≤ length file.old }
    ensures { Wrote file.old at (raster format size.width size.height canvas.now)
        file.new result }
{
    match format {
        Format::P4 => put_rows(file, at, size.width as usize, size.height as usize, canvas),
        Format::P5 => put(file, at, canvas),
    }
}

// Puts the header and then the raster.
fn put_picture(file: &mut [u8], format: Format, size: CanvasSize, canvas: &[u8]) -> usize
    requires canvas_len { length canvas.now ≡ size.width * size.height }
    requires canvas_in_bounds { length (picture format size.width size.height canvas.now) ≤ length file.old }
    ensures { Wrote file.old 0 (picture format size.width size.height canvas.now)
        file.new result }
{
    let raster_at = put_header(file, format, size);
    put_raster(file, raster_at, format, size, canvas)
}

// Writes the canvas in a format to the start of file, and answers how many bytes the file has.
#[tactic(auto, using(crate::proofs::File::length_picture), unfolding(crate::specs::Netpbm::write_check))]
pub fn write(
    format: Format,
    width: u32,
    height: u32,
    canvas: &[u8],
    file: &mut [u8],
) -> Result<usize, Refusal>
    ensures result_value { write_outcome result ≡ write_call format width height canvas.now file.old }
    ensures file_after { file.new ≡ file_after format width height canvas.now file.old }
{
    let size = CanvasSize {
        width: width,
        height: height,
    };
    size.check()?;
    size.check_length(canvas.len())?;
    let raster = raster_length(format, size, canvas.len());
    check_room(header_length(format, size) + raster, file.len())?;
    Ok(put_picture(file, format, size, canvas))
}

// Writes the canvas, width by height pixels, as P5 to the start of file. Refused by 6, 8 and 13.
pub fn write_p5(width: u32, height: u32, canvas: &[u8], file: &mut [u8]) -> Result<usize, Refusal>
    ensures result_value { write_outcome result ≡ write_call P5 width height canvas.now file.old }
    ensures file_after { file.new ≡ file_after P5 width height canvas.now file.old }
{
    write(Format::P5, width, height, canvas, file)
}

// Writes the canvas as P4: a nonzero byte is a 1 bit. Refused by 6, 8 and 13.
pub fn write_p4(width: u32, height: u32, canvas: &[u8], file: &mut [u8]) -> Result<usize, Refusal>
    ensures result_value { write_outcome result ≡ write_call P4 width height canvas.now file.old }
    ensures file_after { file.new ≡ file_after P4 width height canvas.now file.old }
{
    write(Format::P4, width, height, canvas, file)
}

// Reads a picture, P4 or P5, into a canvas of its size, which it answers: a byte, or a bit as 0 or 1, for
// each pixel.
// Refused by 14, 6, 8 and 15, looked for in this order.
pub fn read(file: &[u8], canvas: &mut [u8]) -> Result<CanvasSize, Refusal>
    ensures result_value { read_outcome result ≡ read_call file.now canvas.old }
    ensures canvas_after { canvas.new ≡ canvas_after file.now canvas.old }
{
    read_beside(file, canvas, Ok(()))
}
