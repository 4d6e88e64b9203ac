// The refusals 7 to 12 of a sheet with its size, its count and its places for layers, whatever they
// hold.
#![tactic(auto)]

ghost use Rattle.std.specs.Prelude.{◌≡◌, List, map, ℕ, length, take, is_some, IfSome};
ghost use Rattle.refusal.specs.Refusal.{or_else};
ghost use Rattle.book.specs.Book.{add as call_add, paint as call_paint};
ghost use Rattle.book.specs.Sheet.{keeps_rules, answer};
ghost use Rattle.drawing.specs.Drawing.{StyledFigure, drawing};
ghost use Rattle.sheet_layers.specs.Layers.{layers_of, state_of, layer_rows};
ghost use Rattle.sheet_checks.specs.Asked.{asked_answer, NextRow, remove_check};

use canvas_size::CanvasSize;
use refusal::{Checked, Refusal};
use sheet_layers::Layer;
use sheet_layers::rows::LayerRows;

// The largest number of layers, also `Sheet::MAX_LAYERS`.
pub const MAX_LAYERS: u32 = Layer::PLACES as u32;

// Tests all rules of a sheet: its size, the number of its layers, and the layers, whose rows it answers.
pub fn test_rules(
    size: CanvasSize,
    count: u32,
    places: [Layer; Layer::PLACES],
) -> Option<[LayerRows; LayerRows::PLACES]>
    ensures kept_value { is_some result ≡ keeps_rules drawing size.width size.height (layers_of count places) }
    ensures rows_value { IfSome result (λ rows. take count rows ≡ map layer_rows (take count places)) }
{
    let Ok(()) = size.check() else {
        return None;
    };
    if MAX_LAYERS < count {
        return None;
    }
    sheet_layers::test_rules(places, count as usize)
}

// Refusals 7 and 9 of adding.
pub fn check_add(size: CanvasSize, count: u32, places: [Layer; Layer::PLACES]) -> Checked
    ensures { (item : StyledFigure) (canvas : List ℕ)
        → answer drawing size.width size.height (state_of count places canvas) (call_add item) ≡ or_else (drawing.refuse item) result }
{
    test_rules(size, count, places).ok_or(Refusal::SheetRule)?;
    if MAX_LAYERS <= count {
        return Err(Refusal::SheetFull);
    }
    Ok(())
}

// The row that a paint call on a layer asks for, which is its next row, or refusal 7, 8, 10, 11 or 12;
// the canvas is so many bytes long.
pub fn asked_row(
    size: CanvasSize,
    count: u32,
    places: [Layer; Layer::PLACES],
    layer: u32,
    bytes: usize,
) -> Result<i32, Refusal>
    ensures by_index { (canvas : List ℕ) → length canvas ≡ bytes → asked_answer result
        ≡ answer drawing size.width size.height (state_of count places canvas) (call_paint layer) }
    ensures next_row { NextRow places layer result }
{
    let rows = test_rules(size, count, places).ok_or(Refusal::SheetRule)?;
    size.check_length(bytes)?;
    if count <= layer {
        return Err(Refusal::NoLayer);
    }
    let place = layer as usize;
    let own = rows[place];
    let next = own.next;
    if own.end <= next {
        return Err(Refusal::NoRowLeft);
    }
    if sheet_layers::rows::some_owes(rows, place, next) {
        return Err(Refusal::RowOwed);
    }
    Ok(next)
}

// Refusals 7, 8 and 10 of a removal from a sheet of so many layers, by whether the rules are kept,
// where the canvas and the background are so many bytes long.
#[tactic(auto, unfolding(crate::specs::Asked::remove_check))]
pub fn check_remove(
    kept: bool,
    size: CanvasSize,
    layers: u32,
    layer: u32,
    bytes: usize,
    background: usize,
) -> Checked
    ensures { result ≡ remove_check kept size.width size.height bytes background layers layer }
{
    if !kept {
        return Err(Refusal::SheetRule);
    }
    size.check_length(bytes)?;
    size.check_length(background)?;
    if layers <= layer {
        return Err(Refusal::NoLayer);
    }
    Ok(())
}
