// What the removal of a layer changes: the places behind it move down, and the canvas rows that it had
// painted are shown anew over a background. The paper adds it; the Rust has no such type.
#![tactic(auto)]

ghost use Rattle.std.specs.Prelude.{◌≡◌, [], ◌∷◌, ◌++◌, map, ◌*◌, ◌-◌, ◌<◌, ◌≤◌, pos, length, take, drop, get_or};
ghost use Rattle.std.proofs.Math.Option.{some};
ghost use Rattle.std.proofs.lemmas.List.Edits.{sets};
ghost use Rattle.std.proofs.Math.Seq.{slice};
ghost use Rattle.geometry.specs.Limits.{max_layers, max_canvas_side};
ghost use Rattle.book.specs.Book.{without as book_without};
ghost use Rattle.book.specs.Sheet.{restored};
ghost use Rattle.book.specs.Whole.{paint_rows};
ghost use Rattle.drawing.specs.Drawing.{styled_figure, drawing};
ghost use Rattle.sheet_layers.specs.Layers.{blank_layer, layer_of};
ghost use Rattle.sheet_layers.proofs.LayerRules.{LayerWithin, Ready};
ghost use Rattle.sheet_remove.specs.Removal.{laid_over};

use canvas_size::CanvasSize;
use sheet_layers::Layer;
use sheet_layers::rows::LayerRows;

// The places without one: those behind it move down, and the last is left blank.
pub fn without(places: [Layer; Layer::PLACES], place: usize) -> [Layer; Layer::PLACES]
    requires { place < max_layers }
    ensures { result ≡ book_without place places ++ (blank_layer ∷ []) }
{
    let mut moved = places;
    for j in place..Layer::PLACES - 1 {
        moved[j] = places[j + 1];
    }
    moved[Layer::PLACES - 1] = Layer::blank();
    moved
}

// Copies the bytes from one place up to another.
fn copy_bytes(canvas: &mut [u8], background: &[u8], from: usize, to: usize)
    requires background_len { length background.now ≡ length canvas.old }
    requires to_in_bounds { to ≤ length canvas.old }
    ensures { canvas.new ≡ sets canvas.old from (slice from to background.now) }
{
    for i in from..to {
        canvas[i] = background[i];
    }
}

// Paints the rows of a layer from one up to another, which are the canvas's.
fn paint_rows(canvas: &mut [u8], size: CanvasSize, layer: Layer, from: u32, to: u32)
    requires canvas_len { length canvas.old ≡ size.width * size.height }
    requires width_le_max_canvas_side { (size.width ≤ max_canvas_side) × (to ≤ max_canvas_side) }
    requires layer_within { LayerWithin layer }
    ensures { canvas.new ≡ paint_rows drawing size.width size.height (styled_figure layer.figure layer.style)
        (pos from) (to - from) canvas.old }
{
    let figure = layer.figure;
    let style = layer.style;
    for y in from..to {
        drawing::paint_row(canvas, size, figure, style, signed::from_u32(y));
    }
}

// Lays the layers in some places over the rows from one up to another, each over those that it has
// painted.
fn lay_over(
    canvas: &mut [u8],
    size: CanvasSize,
    layers: [Layer; Layer::PLACES],
    rows: [LayerRows; LayerRows::PLACES],
    first: usize,
    end: usize,
    from: u32,
    to: u32,
)
    requires canvas_len { length canvas.old ≡ size.width * size.height }
    requires width_le_max_canvas_side { (size.width ≤ max_canvas_side) × (to ≤ max_canvas_side) }
    requires end_le_max_layers { (end ≤ max_layers) × Ready layers rows end }
    ensures { canvas.new ≡ laid_over size.width size.height from to (map layer_of (drop first (take end layers)))
        canvas.old }
{
    for j in first..end {
        let own = rows[j];
        let top = signed::most(from, signed::floor0(own.first));
        let bottom = signed::least(to, signed::floor0(own.next));
        let layer = layers[j];
        paint_rows(canvas, size, layer, top, bottom);
    }
}

// Shows the rows that a layer has painted anew: the background's, and over them the other layers, the
// first added first, each on the rows that it has painted.
pub fn restore(
    canvas: &mut [u8],
    background: &[u8],
    size: CanvasSize,
    layers: [Layer; Layer::PLACES],
    rows: [LayerRows; LayerRows::PLACES],
    count: usize,
    place: usize,
)
    requires canvas_len { length canvas.old ≡ size.width * size.height }
    requires background_len { length background.now ≡ size.width * size.height }
    requires width_le_max_canvas_side { (size.width ≤ max_canvas_side) × (size.height ≤ max_canvas_side) }
    requires place_lt_count { (place < count) × (count ≤ max_layers) × Ready layers rows count }
    ensures { canvas.new ≡ restored drawing size.width size.height (some (layer_of (get_or layers place blank_layer)))
        (book_without place (map layer_of (take count layers))) background.now canvas.old }
{
    let own = rows[place];
    let from = signed::least(size.height, signed::floor0(own.first));
    let to = signed::least(size.height, signed::floor0(own.next));
    let width = size.width as usize;
    copy_bytes(
        canvas,
        background,
        width * (from as usize),
        width * (to as usize),
    );
    lay_over(canvas, size, layers, rows, 0, place, from, to);
    lay_over(canvas, size, layers, rows, place + 1, count, from, to);
}
