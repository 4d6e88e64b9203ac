// Netpbm files for a host: a canvas written as one, with the file's length in a lent list, and one read
// into a canvas, with its width and height there. The answer is one number; only where it is 0 has
// anything been written.
#![tactic(auto)]

ghost use Rattle.std.specs.Prelude.{◌≡◌, [], ◌∷◌, pos, length};
ghost use Rattle.refusal.specs.Refusal.{answered};
ghost use Rattle.netpbm_header.specs.declared.Format.TheVariants.{P4, P5};
ghost use Rattle.host_answers.specs.HostAnswers.{Tells};
ghost use Rattle.host_netpbm.specs.Netpbm.{write_said, written_after, read_said, read_after};

use canvas_size::CanvasSize;
use host_answers::{held, put_numbers};
use host_values::put_count;
use netpbm_header::Format;
use refusal::check_room;

// The canvas in a format, and the length of the file.
#[tactic(auto, using(refusal::proofs::Checks::and_or_else, crate::proofs::FileLength::written_length_fits, host_answers::proofs::Telling::tells_as))]
fn write(
    format: Format,
    width: u32,
    height: u32,
    canvas: &[u8],
    file: &mut [u8],
    out: &mut [i32],
) -> u32
    ensures tells { Tells (write_said format width height canvas.now file.old (length out.old))
        out.old result out.new }
    ensures file_after { file.new ≡ written_after format width height canvas.now file.old
        (length out.old) }
{
    let size = CanvasSize {
        width: width,
        height: height,
    };
    let lent = size.check().and(size.check_length(canvas.len()));
    if let Err(refusal) = lent.and(check_room(1, out.len())) {
        return refusal.number();
    }
    match netpbm::write(format, width, height, canvas, file) {
        Err(refusal) => refusal.number(),
        Ok(n) => put_count(n as u32, out),
    }
}

// The canvas as P5, and the length of the file. Refused by 6, 8 and 13.
pub fn write_p5(width: u32, height: u32, canvas: &[u8], file: &mut [u8], out: &mut [i32]) -> u32
    ensures tells { Tells (write_said P5 width height canvas.now file.old (length out.old))
        out.old result out.new }
    ensures file_after { file.new ≡ written_after P5 width height canvas.now file.old
        (length out.old) }
{
    write(Format::P5, width, height, canvas, file, out)
}

// The canvas as P4, and the length of the file. Refused by 6, 8 and 13.
pub fn write_p4(width: u32, height: u32, canvas: &[u8], file: &mut [u8], out: &mut [i32]) -> u32
    ensures tells { Tells (write_said P4 width height canvas.now file.old (length out.old))
        out.old result out.new }
    ensures file_after { file.new ≡ written_after P4 width height canvas.now file.old
        (length out.old) }
{
    write(Format::P4, width, height, canvas, file, out)
}

// The numbers of W and H.
const SIDES: usize = 2;

// Width and height.
fn put_sides(size: CanvasSize, out: &mut [i32]) -> u32
    ensures { Tells (answered (pos size.width ∷ pos size.height ∷ [])) out.old result out.new }
{
    let values = [held(size.width), held(size.height)];
    put_numbers(out, &values)
}

// A P4 or P5 file read into a canvas of its size, and its width and height. Refused by 14, 6, 8, 13 and
// 15, looked for in this order.
#[tactic(auto, using(host_answers::proofs::Telling::tells_as))]
pub fn read(file: &[u8], canvas: &mut [u8], out: &mut [i32]) -> u32
    ensures tells { Tells (read_said file.now canvas.old (length out.old)) out.old result
        out.new }
    ensures canvas_after { canvas.new ≡ read_after file.now canvas.old (length out.old) }
{
    match netpbm_read::read_beside(file, canvas, check_room(SIDES, out.len())) {
        Err(refusal) => refusal.number(),
        Ok(size) => put_sides(size, out),
    }
}
