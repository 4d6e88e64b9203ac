// A Netpbm picture, P4 or P5, read from a lent file into a lent canvas: the part of `netpbm` that reads.
// The header is read first; the raster only once all checks have passed, in one pass. Document 02 adds
// it; the Rust has no such file.
#![tactic(auto)]

ghost use Rattle.std.specs.Prelude.{◌≡◌, [], ◌∷◌, ◌*◌, ◌≤◌, pos, length, drop};
ghost use Rattle.refusal.specs.declared.Refusal.TheVariants.{RasterLength};
ghost use Rattle.refusal.specs.Refusal.{refuse_if, or_else, above, answered};
ghost use Rattle.canvas_size.specs.CanvasSize.{canvas_size_check, canvas_length_check};
ghost use Rattle.netpbm_raster.specs.Raster.{raster_length};
ghost use Rattle.netpbm_read.specs.Read.{pixels, read_outcome, read_beside, canvas_beside};

use canvas_size::CanvasSize;
use netpbm_header::Format;
use netpbm_parser::{Header, read_header};
use netpbm_raster::{raster_length, unpack_rows};
use netpbm_text::put;
use refusal::{Checked, Refusal};

// Refuses a raster with fewer bytes than are needed (refusal 15).
fn check_raster(needed: usize, bytes: usize) -> Checked
    ensures { result ≡ refuse_if (above bytes needed) RasterLength }
{
    if bytes < needed {
        Err(Refusal::RasterLength)
    } else {
        Ok(())
    }
}

// The refusals of a read once there is a header: 6 and 8 of its sides and a canvas of so many pixels,
// what else is looked at, and 15 where the header is followed by so many bytes.
fn check_read(header: Header, pixels: usize, room: Checked, bytes: usize) -> Checked
    ensures { result ≡ or_else (or_else (or_else (canvas_size_check header.width header.height)
        (canvas_length_check header.width header.height pixels)) room)
        (refuse_if (above bytes (raster_length header.format header.width header.height pixels)) RasterLength) }
{
    let size = CanvasSize {
        width: header.width,
        height: header.height,
    };
    size.check()?;
    size.check_length(pixels)?;
    room?;
    check_raster(raster_length(header.format, size, pixels), bytes)
}

// Writes the pixels that bytes behind a header hold over the canvas.
fn read_raster(bytes: &[u8], format: Format, size: CanvasSize, canvas: &mut [u8])
    requires canvas_len { length canvas.old ≡ size.width * size.height }
    requires canvas_in_bounds { raster_length format size.width size.height (length canvas.old) ≤ length bytes.now }
    ensures { canvas.new ≡ pixels format size.width size.height bytes.now }
{
    match format {
        Format::P4 => unpack_rows(bytes, size.width as usize, size.height as usize, canvas),
        Format::P5 => {
            let count = canvas.len();
            let _ = put(canvas, 0, &bytes[..count]);
        }
    }
}

// Writes the pixels of a file with that header over the canvas, and answers its size, which the header says.
#[tactic(auto, using(crate::proofs::Reading::lent_from))]
fn read_headed(file: &[u8], header: Header, canvas: &mut [u8]) -> Result<CanvasSize, Refusal>
    requires raster_in_bounds { header.raster ≤ length file.now }
    requires canvas_len { length canvas.old ≡ header.width * header.height }
    requires canvas_in_bounds { raster_length header.format header.width header.height (length canvas.old)
        ≤ length (drop header.raster file.now) }
    ensures result_value { read_outcome result ≡ answered (pos header.width ∷ pos header.height ∷ []) }
    ensures canvas_after { canvas.new ≡ pixels header.format header.width header.height
        (drop header.raster file.now) }
{
    let at = header.raster;
    let format = header.format;
    let size = CanvasSize {
        width: header.width,
        height: header.height,
    };
    read_raster(&file[at..], format, size, canvas);
    Ok(size)
}

// Reads a picture, P4 or P5, into a canvas of its size, once another check has passed too, which comes
// before 15.
pub fn read_beside(file: &[u8], canvas: &mut [u8], room: Checked) -> Result<CanvasSize, Refusal>
    ensures result_value { read_outcome result ≡ read_beside room file.now canvas.old }
    ensures canvas_after { canvas.new ≡ canvas_beside room file.now canvas.old }
{
    let header = read_header(file).ok_or(Refusal::FileHeader)?;
    check_read(header, canvas.len(), room, file.len() - header.raster)?;
    read_headed(file, header, canvas)
}
