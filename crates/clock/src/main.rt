// Draws what a clock shows, two tiles side by side, and writes it as Netpbm P5 to standard output: on
// the left the oval is filled, so the person is clocked in; on the right it is hollow.
#![tactic(auto)]

use corner_radii::CornerRadii;
use figure::Figure;
use geometry::{Point, Size};
use rectangle::Rectangle;
use rounded_rectangle::RoundedRectangle;
use std::io::{self, Write};
use style::{StrokeAlignment, Style};

const WIDTH: u32 = 144;

const HEIGHT: u32 = 64;

// A tile is 64 by 48 with corners of radius 8, and its oval 24 by 24 in the middle.
fn tile_box(x: i32) -> Figure {
    Figure::CrateBox(RoundedRectangle {
        rectangle: Rectangle {
            top_left: Point { x: x, y: 8 },
            size: Size {
                width: 64,
                height: 48,
            },
        },
        corners: CornerRadii::new(Size {
            width: 8,
            height: 8,
        }),
    })
}

fn tile_oval(x: i32) -> Figure {
    Figure::Ellipse(Rectangle {
        top_left: Point { x: x, y: 20 },
        size: Size {
            width: 24,
            height: 24,
        },
    })
}

// Paints a figure with a border of 2 pixels. Nothing here is beyond a limit, so nothing is refused.
fn paint_bordered(canvas: &mut [u8], figure: Figure, fill: Option<u8>) {
    let style = Style::new(Some(40), fill, 2).with_alignment(StrokeAlignment::Inside);
    let _ = paint::paint_figure(figure, style, WIDTH, HEIGHT, canvas);
}

fn main(rt: HostRuntime) -> io::Result<()> {
    let mut canvas = [255u8; 9216];
    paint_bordered(&mut canvas, tile_box(6), Some(220));
    paint_bordered(&mut canvas, tile_oval(26), Some(40));
    paint_bordered(&mut canvas, tile_box(74), Some(220));
    paint_bordered(&mut canvas, tile_oval(94), None);
    let mut file = [0u8; 9230];
    let Ok(_) = netpbm::write_p5(WIDTH, HEIGHT, &canvas, &mut file) else {
        return Ok(());
    };
    io::writer(&rt).write_all(&file)
}
