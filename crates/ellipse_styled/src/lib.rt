// The styled rows of an ellipse, after embedded-graphics 0.8.2 `ellipse/styled.rs`
// (`StyledScanlines`). The fill is looked for among the stroke's columns, by the ellipse of the fill
// sides about the centre of the stroke area.
#![tactic(auto)]

ghost use Rattle.std.specs.Prelude.{◌≡◌, ◌*◌, ◌-◌, ◌<◌, ◌≤◌, Some, None};
ghost use Rattle.signed.specs.Signed.{Near};
ghost use Rattle.geometry.specs.Bounds.{wide_side, wide_point, SizeUpTo};
ghost use Rattle.rectangle.specs.Bounds.{Bounded};
ghost use Rattle.scanline.specs.Places.{find_from};
ghost use Rattle.ellipse.specs.Relative.{wide_distance, SmallWeights};
ghost use Rattle.ellipse_search.specs.Search.{column_inside};
ghost use Rattle.ellipse_styled.specs.EllipseStyled.{ellipse_styled_row};
ghost use Rattle.ellipse_styled.specs.Relative.{runs_from, ReadyEllipse};

use ellipse::EllipseContains;
use ellipse_rows::has_rows;
use ellipse_search::scan_inside;
use geometry::Size;
use geometry_range::Range;
use rectangle::Rectangle;
use scanline::StyledRuns;

// Where the searches of a row begin, for the stroke and for the fill: nothing depends on it but time.
#[derive(Clone, Copy)]
pub struct EllipseHints {
    pub stroke: u32,
    pub fill: u32,
}

// An ellipse made ready for many rows: its stroke area, its fill sides, the tests of both, and
// whether it has rows.
#[derive(Clone, Copy)]
pub struct StyledEllipse {
    pub area: Rectangle,
    pub sides: Size,
    pub stroke: EllipseContains,
    pub fill: EllipseContains,
    pub rows: bool,
}

// A styled row, and the hints for the row after it.
#[derive(Clone, Copy)]
pub struct EllipseRow {
    pub row: Option<StyledRuns>,
    pub hints: EllipseHints,
}

// The runs of a row, and the hint for the next row's fill.
#[derive(Clone, Copy)]
struct HintedRuns {
    runs: StyledRuns,
    hint: u32,
}

// The runs of a row of `width` columns whose stroke starts at place s and whose fill starts at c.
pub fn filled_runs(left: i32, width: u32, s: u32, c: u32) -> StyledRuns
    requires near { Near wide_point left }
    requires width_le_wide_side { (width ≤ wide_side) × (s ≤ width) × (c ≤ width) }
    ensures { result ≡ runs_from left width s (Some c) }
{
    let fill_start = scanline::from_first(left, c);
    let fill_end = scanline::before_end(left, width, c);
    StyledRuns {
        stroke_left: Range {
            start: scanline::from_first(left, s),
            end: fill_start,
        },
        fill: Range {
            start: fill_start,
            end: fill_end,
        },
        stroke_right: Range {
            start: fill_end,
            end: scanline::before_end(left, width, s),
        },
    }
}

// The runs of a row without fill: all of it is left stroke.
pub fn hollow_runs(left: i32, width: u32, s: u32) -> StyledRuns
    requires near { Near wide_point left }
    requires width_le_wide_side { (width ≤ wide_side) × (s ≤ width) }
    ensures { result ≡ runs_from left width s None }
{
    let end = scanline::before_end(left, width, s);
    StyledRuns {
        stroke_left: Range {
            start: scanline::from_first(left, s),
            end: end,
        },
        fill: Range {
            start: end,
            end: end,
        },
        stroke_right: Range {
            start: end,
            end: end,
        },
    }
}

// The runs of a row whose stroke starts at place s, on a row at this distance from the middle, and
// where the next row's fill is looked for.
fn runs_at(
    left: i32,
    width: u32,
    distance: u64,
    s: u32,
    fill: EllipseContains,
    hint: u32,
) -> HintedRuns
    requires near { Near wide_point left }
    requires width_le_wide_side { (width ≤ wide_side) × (2 * s < width) × (distance ≤ wide_distance) }
    requires small_weights { SmallWeights fill }
    ensures { result.runs ≡ runs_from left width s (find_from (column_inside fill width distance) (width - 2 * s) s) }
{
    let Some(c) = scan_inside(fill, width, distance, s, width - 2 * s, hint) else {
        return HintedRuns {
            runs: hollow_runs(left, width, s),
            hint: hint,
        };
    };
    HintedRuns {
        runs: filled_runs(left, width, s, c),
        hint: c,
    }
}

impl StyledEllipse {
    pub fn new(area: Rectangle, sides: Size) -> StyledEllipse
        requires bounded { Bounded area }
        requires size_up_to { SizeUpTo wide_side sides }
        ensures { (result.area ≡ area) × (result.sides ≡ sides) × ReadyEllipse result }
    {
        let stroke = EllipseContains::new(area.size);
        StyledEllipse {
            area: area,
            sides: sides,
            stroke: stroke,
            fill: EllipseContains::new(sides),
            rows: has_rows(stroke, area.size),
        }
    }

    // The styled row at y.
    pub fn row(self, y: i32, hints: EllipseHints) -> EllipseRow
        requires ready_ellipse { ReadyEllipse self }
        requires near { Near wide_point y }
        ensures { result.row ≡ ellipse_styled_row self.area self.sides y }
    {
        let area = self.area;
        let top_left = area.top_left;
        let size = area.size;
        let Some(dy) = scanline::place_of(top_left.y, size.height, y) else {
            return EllipseRow {
                row: None,
                hints: hints,
            };
        };
        if !self.rows {
            return EllipseRow {
                row: None,
                hints: hints,
            };
        }
        let distance = ellipse::gap(size.height, dy);
        let stroke = self.stroke;
        let stroke_hint = hints.stroke;
        let Some(s) = scan_inside(stroke, size.width, distance, 0, size.width, stroke_hint) else {
            return EllipseRow {
                row: None,
                hints: hints,
            };
        };
        let fill = self.fill;
        let fill_hint = hints.fill;
        let found = runs_at(top_left.x, size.width, distance, s, fill, fill_hint);
        let runs = found.runs;
        let next_fill = found.hint;
        EllipseRow {
            row: Some(runs),
            hints: EllipseHints {
                stroke: s,
                fill: next_fill,
            },
        }
    }
}
