// A sheet: up to 16 figures with their styles, the earliest undermost, painted on one canvas row by
// row. The paper adds it; the Rust has no such type. A sheet is handed in and back by value, and
// every call tests all its rules, so any record can be given. A refused call hands the sheet back as
// it was given and changes no byte.
#![tactic(auto)]

ghost use Rattle.std.specs.Prelude.{◌≡◌, []};
ghost use Rattle.book.specs.Book.{add as call_add, paint as call_paint, remove as call_remove};
ghost use Rattle.drawing.specs.Drawing.{styled_figure};
ghost use Rattle.sheet.specs.Sheet.{open_answer, opened_sheet, sheet_answer, sheet_after, canvas_after};

use canvas_size::CanvasSize;
use figure::Figure;
use refusal::Checked;
use sheet_layers::Layer;
use style::Style;

#[derive(Clone, Copy)]
pub struct Sheet {
    pub width: u32,
    pub height: u32,
    // How many of the places hold a layer, from the first on.
    pub count: u32,
    pub layers: [Layer; Layer::PLACES],
}

#[derive(Clone, Copy)]
pub struct SheetOutcome {
    pub sheet: Sheet,
    pub answer: Checked,
}

impl Sheet {
    // The largest number of layers (refusals 7 and 9).
    pub const MAX_LAYERS: u32 = sheet_checks::MAX_LAYERS;

    // A sheet without layers for a canvas of this size (refusal 6). After a refusal too: a sheet of such
    // a size breaks the rules, so every later call refuses it.
    pub fn open(width: u32, height: u32) -> SheetOutcome
        ensures answer_value { result.answer ≡ open_answer width height }
        ensures sheet_value { result.sheet ≡ opened_sheet width height }
    {
        let blank = Layer::blank();
        let sheet = Sheet {
            width: width,
            height: height,
            count: 0,
            layers: [blank; Layer::PLACES],
        };
        let size = CanvasSize {
            width: width,
            height: height,
        };
        SheetOutcome {
            sheet: sheet,
            answer: size.check(),
        }
    }

    // Puts a figure with its style on top (refusals 1, 2, 3, 5, 7 and 9).
    pub fn add(self, figure: Figure, style: Style) -> SheetOutcome
        ensures answer_value { result.answer ≡ sheet_answer self [] (call_add (styled_figure figure style)) }
        ensures sheet_value { result.sheet ≡ sheet_after self [] (call_add (styled_figure figure style)) }
    {
        let size = CanvasSize {
            width: self.width,
            height: self.height,
        };
        let places = self.layers;
        let room = sheet_checks::check_add(size, self.count, places);
        let checked = drawing::check(figure, style).and(room);
        let Ok(()) = checked else {
            return SheetOutcome {
                sheet: self,
                answer: checked,
            };
        };
        let area = drawing::stroke_rows(figure, style);
        let place = self.count as usize;
        let mut sheet = self;
        sheet.layers[place] = Layer {
            figure: figure,
            style: style,
            next_row: area.first,
        };
        sheet.count = self.count + 1;
        SheetOutcome {
            sheet: sheet,
            answer: Ok(()),
        }
    }

    // Paints the next row of a layer, counted from 0 (refusals 7, 8, 10, 11 and 12).
    pub fn paint(self, layer: u32, canvas: &mut [u8]) -> SheetOutcome
        ensures answer_value { result.answer ≡ sheet_answer self canvas.old (call_paint layer) }
        ensures sheet_value { result.sheet ≡ sheet_after self canvas.old (call_paint layer) }
        ensures canvas_after { canvas.new ≡ canvas_after self canvas.old (call_paint layer) }
    {
        let size = CanvasSize {
            width: self.width,
            height: self.height,
        };
        let places = self.layers;
        let asked = sheet_checks::asked_row(size, self.count, places, layer, canvas.len());
        let row = match asked {
            Ok(row) => row,
            Err(refusal) => {
                return SheetOutcome {
                    sheet: self,
                    answer: Err(refusal),
                };
            }
        };
        let place = layer as usize;
        let chosen = places[place];
        let figure = chosen.figure;
        let style = chosen.style;
        drawing::paint_row(canvas, size, figure, style, row);
        let mut sheet = self;
        sheet.layers[place] = Layer {
            figure: figure,
            style: style,
            next_row: signed::add(row, 1),
        };
        SheetOutcome {
            sheet: sheet,
            answer: Ok(()),
        }
    }

    // Takes a layer out, counted from 0; later layers move down one number. Canvas rows that it had
    // painted become the background's, overpainted by the other layers that had painted them (refusals
    // 7, 8 for either buffer, and 10).
    pub fn remove(self, layer: u32, canvas: &mut [u8], background: &[u8]) -> SheetOutcome
        ensures answer_value { result.answer ≡ sheet_answer self canvas.old (call_remove layer background.now) }
        ensures sheet_value { result.sheet ≡ sheet_after self canvas.old (call_remove layer background.now) }
        ensures canvas_after { canvas.new ≡ canvas_after self canvas.old (call_remove layer background.now) }
        ensures background_value { background.exit.now ≡ background.entry.now }
    {
        let size = CanvasSize {
            width: self.width,
            height: self.height,
        };
        let places = self.layers;
        let count = self.count;
        let tested = sheet_checks::test_rules(size, count, places);
        let checked = sheet_checks::check_remove(
            tested.is_some(),
            size,
            count,
            layer,
            canvas.len(),
            background.len(),
        );
        let Ok(()) = checked else {
            return SheetOutcome {
                sheet: self,
                answer: checked,
            };
        };
        let place = layer as usize;
        let rows = tested.unwrap();
        sheet_remove::restore(
            canvas,
            background,
            size,
            places,
            rows,
            count as usize,
            place,
        );
        SheetOutcome {
            sheet: Sheet {
                width: self.width,
                height: self.height,
                count: count - 1,
                layers: sheet_remove::without(places, place),
            },
            answer: Ok(()),
        }
    }
}
