// Draws the oval of document 01 and writes it as Netpbm P5 to standard output: an ellipse 4 by 4,
// filled with 9, on a canvas of zeros.
#![tactic(auto)]

use figure::Figure;
use geometry::{Point, Size};
use rectangle::Rectangle;
use std::io::{self, Write};
use style::Style;

fn main(rt: HostRuntime) -> io::Result<()> {
    let oval = Figure::Ellipse(Rectangle {
        top_left: Point { x: 0, y: 0 },
        size: Size {
            width: 4,
            height: 4,
        },
    });
    let style = Style::new(None, Some(9), 0);
    let mut canvas = [0u8; 16];
    let Ok(()) = paint::paint_figure(oval, style, 4, 4, &mut canvas) else {
        return Ok(());
    };
    let mut file = [0u8; 27];
    let Ok(_) = netpbm::write_p5(4, 4, &canvas, &mut file) else {
        return Ok(());
    };
    io::writer(&rt).write_all(&file)
}
