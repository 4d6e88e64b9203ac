// A cafe's page of six jobs on one sheet, written as Netpbm P5 to standard output. The page is
// painted twice: a row of this layer and a row of that, the uppermost asked first, so that many calls
// are refused because a lower layer owes the row; and tile after tile. The file is written only if
// the two canvases are equal, byte for byte.
#![tactic(auto)]

ghost use Rattle.std.specs.Prelude.{◌≡◌, ◌↔◌, IsTrue};

use corner_radii::CornerRadii;
use figure::Figure;
use geometry::{Point, Size};
use rectangle::Rectangle;
use rounded_rectangle::RoundedRectangle;
use sheet::Sheet;
use std::io::{self, Write};
use style::{StrokeAlignment, Style};

const WIDTH: u32 = 232;

const HEIGHT: u32 = 120;
// A box and an oval for each of six tiles.
const LAYERS: u32 = 12;
// More rounds than a box has rows: a layer waits for the rows that lower ones owe, and the last calls
// find no row left.
const ROUNDS: u32 = 64;

// The sheet with a figure more, in a border of 2 pixels.
fn with_figure(sheet: Sheet, figure: Figure, fill: Option<u8>) -> Sheet {
    let style = Style::new(Some(40), fill, 2).with_alignment(StrokeAlignment::Inside);
    let outcome = sheet.add(figure, style);
    let added = outcome.sheet;
    added
}

// The sheet with a tile more: a box 64 by 48 with corners of radius 12, and an oval 24 by 24 that is
// filled for a person who is clocked in, else hollow.
fn with_tile(sheet: Sheet, corner: Point, oval_corner: Point, clocked_in: bool) -> Sheet {
    let tile = Figure::W3cBox(RoundedRectangle {
        rectangle: Rectangle {
            top_left: corner,
            size: Size {
                width: 64,
                height: 48,
            },
        },
        corners: CornerRadii::new(Size {
            width: 12,
            height: 12,
        }),
    });
    let oval = Figure::Ellipse(Rectangle {
        top_left: oval_corner,
        size: Size {
            width: 24,
            height: 24,
        },
    });
    let boxed = with_figure(sheet, tile, Some(220));
    if clocked_in {
        return with_figure(boxed, oval, Some(40));
    }
    with_figure(boxed, oval, None)
}

// The page: three tiles above three.
fn page() -> Sheet {
    let opened = Sheet::open(WIDTH, HEIGHT);
    let empty = opened.sheet;
    let one = with_tile(empty, Point { x: 8, y: 8 }, Point { x: 28, y: 20 }, true);
    let two = with_tile(one, Point { x: 84, y: 8 }, Point { x: 104, y: 20 }, false);
    let three = with_tile(two, Point { x: 160, y: 8 }, Point { x: 180, y: 20 }, true);
    let four = with_tile(three, Point { x: 8, y: 64 }, Point { x: 28, y: 76 }, false);
    let five = with_tile(four, Point { x: 84, y: 64 }, Point { x: 104, y: 76 }, false);
    with_tile(five, Point { x: 160, y: 64 }, Point { x: 180, y: 76 }, true)
}

// Paints a row of each layer in every round, the uppermost first.
fn paint_interleaved(canvas: &mut [u8]) {
    let mut sheet = page();
    for _ in 0..ROUNDS {
        for layer in (0..LAYERS).rev() {
            let outcome = sheet.paint(layer, canvas);
            sheet = outcome.sheet;
        }
    }
}

// Paints each layer to its end before the next.
fn paint_tile_after_tile(canvas: &mut [u8]) {
    let mut sheet = page();
    for layer in 0..LAYERS {
        for _ in 0..ROUNDS {
            let outcome = sheet.paint(layer, canvas);
            sheet = outcome.sheet;
        }
    }
}

fn are_equal(a: &[u8], b: &[u8]) -> bool
    ensures { IsTrue result ↔ a.now ≡ b.now }
{
    a == b
}

fn main(rt: HostRuntime) -> io::Result<()> {
    let mut interleaved = [255u8; 27840];
    let mut plain = [255u8; 27840];
    paint_interleaved(&mut interleaved);
    paint_tile_after_tile(&mut plain);
    if !are_equal(&interleaved, &plain) {
        return Ok(());
    }
    let mut file = [0u8; 27855];
    let Ok(_) = netpbm::write_p5(WIDTH, HEIGHT, &interleaved, &mut file) else {
        return Ok(());
    };
    io::writer(&rt).write_all(&file)
}
