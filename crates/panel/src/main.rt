// A page for the one-colour clock, 232 by 120: reads it as Netpbm P5 or P4 from standard input, and
// writes it as P4 to standard output. Of a grey page the dark pixels become 1 bits, which such a panel
// shows black. A file that is no such page is answered by nothing. The stored input is the page that
// `cafe` writes.
#![tactic(auto)]

ghost use Rattle.std.specs.Prelude.{◌≤◌, length, IfOk};

use std::io::{self, Read, Write};

const WIDTH: u32 = 232;

const HEIGHT: u32 = 120;
// Grey pixels below it are dark.
const MIDDLE: u8 = 128;

// 1 for a dark pixel, else 0.
fn is_dark(pixel: u8) -> u8 {
    if pixel < MIDDLE { 1 } else { 0 }
}

// Makes a grey page one of 0 and 1.
fn darken(canvas: &mut [u8]) {
    for pixel in canvas.iter_mut() {
        *pixel = is_dark(*pixel);
    }
}

// Reads until the file is full or the input ends, and says how many bytes were read.
fn read_file<R: Read>(input: &mut R, file: &mut [u8]) -> io::Result<usize>
    ensures { IfOk result (λ n. n ≤ length file.new) }
{
    let mut count: usize = 0;
    // A while: the steps are not of one, each goes past the bytes that were read.
    while count < file.len() {
        let read = input.read(&mut file[count..])?;
        if read == 0 {
            break;
        }
        count += read;
    }
    Ok(count)
}

// Writes the page as P4.
fn write_page<W: Write>(out: &mut W, canvas: &[u8; 27840]) -> io::Result<()> {
    let mut page = [0u8; 3491];
    let Ok(_) = netpbm::write_p4(WIDTH, HEIGHT, canvas, &mut page) else {
        return Ok(());
    };
    out.write_all(&page)
}

fn main(rt: HostRuntime) -> io::Result<()> {
    let mut file = [0u8; 33792];
    let mut canvas = [0u8; 27840];
    let count = read_file(&mut rt.reader(), &mut file)?;
    let Ok(size) = netpbm::read(&file[..count], &mut canvas) else {
        return Ok(());
    };
    // The canvas has as many pixels as the page, so the width tells the height.
    if size.width != WIDTH {
        return Ok(());
    }
    if file[1] == b'5' {
        darken(&mut canvas);
    }
    write_page(&mut io::writer(&rt), &canvas)
}
