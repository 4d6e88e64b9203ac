// The layers of a sheet and the rules that they keep, one by one and two by two (refusal 7). The
// paper adds them; the Rust has no such type.
#![tactic(auto)]

use crate::rows::{LayerRows, in_order};
use figure::Figure;
use geometry::{Point, Size};
use rectangle::Rectangle;
use style::{StrokeAlignment, Style};

pub mod rows;

ghost use Rattle.std.specs.Prelude.{◌≡◌, cond, map, ◌≤◌, take, Some, None, is_some, IfSome};
ghost use Rattle.geometry.specs.Limits.{max_layers};
ghost use Rattle.book.specs.Sheet.{layer_keeps_rules, layers_keep_rules};
ghost use Rattle.drawing.specs.Drawing.{drawing};
ghost use Rattle.sheet_layers.specs.Layers.{blank_layer, layer_of, layer_rows};

// A figure with its style on a sheet, and the row that its next paint call paints.
#[derive(Clone, Copy)]
pub struct Layer {
    pub figure: Figure,
    pub style: Style,
    pub next_row: i32,
}

impl Layer {
    // How many of them a sheet has places for.
    pub const PLACES: usize = LayerRows::PLACES;

    // A place that no layer was put in.
    pub fn blank() -> Layer
        ensures { result ≡ blank_layer }
    {
        Layer {
            figure: Figure::Ellipse(Rectangle {
                top_left: Point { x: 0, y: 0 },
                size: Size {
                    width: 0,
                    height: 0,
                },
            }),
            style: Style {
                stroke: None,
                fill: None,
                stroke_width: 0,
                alignment: StrokeAlignment::Inside,
            },
            next_row: 0,
        }
    }

    // The layer's rows, if its figure and style are within limits and its next row among its rows or
    // right after them.
    pub fn rows(self) -> Option<LayerRows>
        ensures { result ≡ cond (layer_keeps_rules drawing (layer_of self)) (Some (layer_rows self)) None }
    {
        let figure = self.figure;
        let style = self.style;
        let next = self.next_row;
        let Ok(()) = drawing::check(figure, style) else {
            return None;
        };
        let area = drawing::stroke_rows(figure, style);
        let first = area.first;
        let end = signed::add(first, signed::from_u32(area.count));
        if next < first {
            return None;
        }
        if end < next {
            return None;
        }
        Some(LayerRows {
            first: first,
            next: next,
            end: end,
        })
    }
}

// Tests the rules of the first layers: one by one, from the last to the first, and then two by two, by
// the rows that were found. Where all keep them, the first rows answered are those of these layers.
pub fn test_rules(
    layers: [Layer; Layer::PLACES],
    count: usize,
) -> Option<[LayerRows; LayerRows::PLACES]>
    requires { count ≤ max_layers }
    ensures kept_value { is_some result ≡ layers_keep_rules drawing (map layer_of (take count layers)) }
    ensures rows_value { IfSome result (λ rows. take count rows ≡ map layer_rows (take count layers)) }
{
    let none = LayerRows {
        first: 0,
        next: 0,
        end: 0,
    };
    let mut rows = [none; LayerRows::PLACES];
    for i in (0..count).rev() {
        rows[i] = layers[i].rows()?;
    }
    if !in_order(rows, count) {
        return None;
    }
    Some(rows)
}
