// A styled box made ready for all its rows: the rectangles of both areas and their tests, after
// embedded-graphics 0.8.2 `StyledScanlines` of `rounded_rectangle/styled.rs`. A scan hands the hints that
// a row leaves to the next row; they choose where searches start, and no answer depends on them.
#![tactic(auto)]

ghost use Rattle.std.specs.Prelude.{◌≡◌, ◌<◌};
ghost use Rattle.signed.specs.Signed.{Near};
ghost use Rattle.geometry.specs.Bounds.{wide_point};
ghost use Rattle.rounded_rectangle.specs.ConfinedBox.{plain_box};
ghost use Rattle.figure.specs.Bounds.{ConfinedAreaBox};
ghost use Rattle.styled_row.specs.StyledRow.{box_styled_row};
ghost use Rattle.styled_box.specs.ReadyBox.{no_hints, stroke_box, fill_box, ReadyStyledBox, Alike};

use box_fill::Hints;
use ellipse_search::ANYWHERE;
use rectangle::Rectangle;
use rounded_rectangle::{ConfinedBox, RoundedRectangleContains, run_between};
use scanline::StyledRuns;
use styled_row::around_fill;

// Where the searches of a row begin, for both areas: nothing depends on it but time.
#[derive(Clone, Copy)]
pub struct RowHints {
    pub stroke: Hints,
    pub fill: Hints,
}

// A styled row, and the hints for the row after it.
#[derive(Clone, Copy)]
pub struct HintedRow {
    pub row: Option<StyledRuns>,
    pub hints: RowHints,
}

// A box made ready: the rectangles of its stroke area and its fill area, and their tests.
#[derive(Clone, Copy)]
pub struct StyledBox {
    pub area: Rectangle,
    pub stroke: RoundedRectangleContains,
    pub inner: Rectangle,
    pub fill: RoundedRectangleContains,
}

impl RowHints {
    // No hints: for the first row of a scan.
    pub fn none() -> RowHints
        ensures { result ≡ no_hints }
    {
        let unknown = Hints {
            left: ANYWHERE,
            right: ANYWHERE,
        };
        RowHints {
            stroke: unknown,
            fill: unknown,
        }
    }
}

impl StyledBox {
    #[tactic(auto, using(figure::proofs::Within::area_box_bounded))]
    pub fn new(area: ConfinedBox, inner: ConfinedBox) -> StyledBox
        requires confined_area_box { ConfinedAreaBox area }
        requires confined_area_box_2 { ConfinedAreaBox inner }
        ensures { (stroke_box result ≡ plain_box area) × (fill_box result ≡ plain_box inner) × ReadyStyledBox result }
    {
        let stroke_rectangle = area.rectangle;
        let stroke_corners = area.corners;
        let fill_rectangle = inner.rectangle;
        let fill_corners = inner.corners;
        StyledBox {
            area: stroke_rectangle,
            stroke: RoundedRectangleContains::new(stroke_rectangle.size, stroke_corners),
            inner: fill_rectangle,
            fill: RoundedRectangleContains::new(fill_rectangle.size, fill_corners),
        }
    }

    // So many rows from y on are alike: those that no corner of either area touches, else 1.
    pub fn rows_alike(self, y: i32) -> u32
        requires ready_styled_box { ReadyStyledBox self }
        requires near { Near wide_point y }
        ensures { (0 < result) × Alike (box_styled_row (stroke_box self) (fill_box self)) y result }
    {
        let area = self.area;
        let top_left = area.top_left;
        let size = area.size;
        let Some(dy) = scanline::place_of(top_left.y, size.height, y) else {
            return 1;
        };
        let inner = self.inner;
        let inner_top_left = inner.top_left;
        let inner_size = inner.size;
        let Some(inner_dy) = scanline::place_of(inner_top_left.y, inner_size.height, y) else {
            return 1;
        };
        let stroke = self.stroke;
        let fill = self.fill;
        signed::least(
            box_mirrored::straight_rows(stroke, dy),
            box_mirrored::straight_rows(fill, inner_dy),
        )
    }

    // The styled row at y, in a scan of rows.
    pub fn row(self, y: i32, hints: RowHints) -> HintedRow
        requires ready_styled_box { ReadyStyledBox self }
        requires near { Near wide_point y }
        ensures { result.row ≡ box_styled_row (stroke_box self) (fill_box self) y }
    {
        let area = self.area;
        let top_left = area.top_left;
        let size = area.size;
        let Some(dy) = scanline::place_of(top_left.y, size.height, y) else {
            return HintedRow {
                row: None,
                hints: hints,
            };
        };
        let stroke = self.stroke;
        let stroke_hints = hints.stroke;
        let left_hint = stroke_hints.left;
        let right_hint = stroke_hints.right;
        let insets = box_mirrored::row_insets(stroke, dy, left_hint, right_hint);
        let run = run_between(top_left.x, size.width, insets);
        let inner = self.inner;
        let fill = self.fill;
        let fill_hints = hints.fill;
        let found = box_mirrored_fill::fill_run(inner, fill, y, run, fill_hints);
        let found_run = found.run;
        let next_fill = found.hints;
        HintedRow {
            row: Some(around_fill(run, found_run)),
            hints: RowHints {
                stroke: Hints {
                    left: insets.left,
                    right: insets.right,
                },
                fill: next_fill,
            },
        }
    }
}
