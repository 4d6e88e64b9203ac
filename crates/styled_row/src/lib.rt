// The styled row at y by a figure's two areas, for a row that is asked for alone, after
// embedded-graphics 0.8.2 `StyledScanlines` of both `styled.rs`. A scan of rows goes by `styled_scan`,
// which makes both areas ready once and hands hints from row to row; nothing of it is called here. The
// areas are made by the kind of the figure, so that no figure or shape is handed over in memory.
#![tactic(auto)]

ghost use Rattle.std.specs.Prelude.{◌≡◌, ◌*◌, ◌-◌, ◌<◌, ◌≤◌, pos, neg_ℤ};
ghost use Rattle.signed.specs.Signed.{Near};
ghost use Rattle.geometry.specs.Bounds.{wide_point, wide_side, SizeUpTo};
ghost use Rattle.rectangle.specs.Bounds.{Bounded};
ghost use Rattle.rectangle.specs.Rectangle.{offset as rectangle_offset};
ghost use Rattle.scanline.specs.Places.{find_from};
ghost use Rattle.ellipse.specs.Relative.{contains_of, wide_distance};
ghost use Rattle.ellipse_search.specs.Search.{column_inside};
ghost use Rattle.rounded_rectangle.specs.Relative.{BoundedBox};
ghost use Rattle.rounded_rectangle.specs.ConfinedBox.{plain_box};
ghost use Rattle.box_fill.specs.BoxFill.{fill_run};
ghost use Rattle.box_fill.specs.Relative.{NearRun};
ghost use Rattle.ellipse_styled.specs.EllipseStyled.{around_fill, ellipse_styled_row};
ghost use Rattle.ellipse_styled.specs.Relative.{runs_from};
ghost use Rattle.shape.specs.BoxRules.{crate_area, w3c_area};
ghost use Rattle.figure.specs.Bounds.{wide_offset, OwnRectangle, OwnBox, ConfinedAreaBox};
ghost use Rattle.styled_row.specs.StyledRow.{box_styled_row};

use box_fill::{Hints, row_fill};
use ellipse::EllipseContains;
use ellipse_search::{ANYWHERE, first_inside};
use ellipse_styled::{filled_runs, hollow_runs};
use geometry::Size;
use geometry_range::Range;
use rectangle::Rectangle;
use rounded_rectangle::{ConfinedBox, RoundedRectangle, RoundedRectangleContains};
use scanline::StyledRuns;
use shape::box_rules::{confined, offset_box, offset_w3c_box};

// The stroke area's run around a fill.
pub fn around_fill(run: Range, fill: Range) -> StyledRuns
    ensures { result ≡ around_fill run fill }
{
    StyledRuns {
        stroke_left: Range {
            start: run.start,
            end: fill.start,
        },
        fill: fill,
        stroke_right: Range {
            start: fill.end,
            end: run.end,
        },
    }
}

// The fill of the row at y of a fill area, where `run` is the stroke area's. Off the fill area's rows
// there is none.
fn fill_alone(b: ConfinedBox, y: i32, run: Range) -> Range
    requires bounded_box { BoundedBox (plain_box b) }
    requires near { Near wide_point y }
    requires near_run { NearRun run }
    ensures { result ≡ fill_run (plain_box b) y run }
{
    let rectangle = b.rectangle;
    let top_left = rectangle.top_left;
    let size = rectangle.size;
    let Some(dy) = scanline::place_of(top_left.y, size.height, y) else {
        return Range {
            start: run.end,
            end: run.end,
        };
    };
    let corners = b.corners;
    let found = row_fill(
        top_left.x,
        RoundedRectangleContains::new(size, corners),
        dy,
        run,
        Hints {
            left: ANYWHERE,
            right: ANYWHERE,
        },
    );
    found.run
}

// The styled row at y of a box with these areas.
#[tactic(auto, unfolding(crate::specs::StyledRow::box_styled_row))]
fn box_row(area: ConfinedBox, fill: ConfinedBox, y: i32) -> Option<StyledRuns>
    requires confined_area_box { ConfinedAreaBox area }
    requires confined_area_box_2 { ConfinedAreaBox fill }
    requires near { Near wide_point y }
    ensures { result ≡ box_styled_row (plain_box area) (plain_box fill) y }
{
    let run = area.row(y)?;
    Some(around_fill(run, fill_alone(fill, y, run)))
}

// The runs of an ellipse's row of `width` columns whose stroke starts at place s, on a row at this
// distance from the middle.
#[tactic(auto, using(scanline::proofs::Find::found_at))]
fn ellipse_runs(left: i32, width: u32, distance: u64, s: u32, sides: Size) -> StyledRuns
    requires near { Near wide_point left }
    requires width_le_wide_side { (width ≤ wide_side) × (2 * s < width) × (distance ≤ wide_distance) }
    requires size_up_to { SizeUpTo wide_side sides }
    ensures { result ≡ runs_from left width s (find_from (column_inside (contains_of sides.width sides.height) width distance)
        (width - 2 * s) s) }
{
    let fill = EllipseContains::new(sides);
    let Some(c) = first_inside(fill, width, distance, s, width - 2 * s) else {
        return hollow_runs(left, width, s);
    };
    filled_runs(left, width, s, c)
}

// The styled row at y of an ellipse with this stroke area and these fill sides.
#[tactic(auto, unfolding(ellipse_styled::specs::EllipseStyled::ellipse_styled_row))]
fn ellipse_row(area: Rectangle, sides: Size, y: i32) -> Option<StyledRuns>
    requires bounded { Bounded area }
    requires size_up_to { SizeUpTo wide_side sides }
    requires near { Near wide_point y }
    ensures { result ≡ ellipse_styled_row area sides y }
{
    let top_left = area.top_left;
    let size = area.size;
    let dy = scanline::place_of(top_left.y, size.height, y)?;
    let run = ellipse_rows::row(area, y)?;
    let s = signed::floor0(signed::sub(run.start, top_left.x));
    let distance = ellipse::gap(size.height, dy);
    Some(ellipse_runs(top_left.x, size.width, distance, s, sides))
}

// The styled row at y of an ellipse with strokes so wide outside and inside its outline.
pub fn ellipse_row_at(rectangle: Rectangle, outside: u32, inside: u32, y: i32) -> Option<StyledRuns>
    requires own_rectangle { OwnRectangle rectangle }
    requires outside_le_wide_offset { (outside ≤ wide_offset) × (inside ≤ wide_offset) }
    requires near { Near wide_point y }
    ensures { result ≡ ellipse_styled_row (rectangle_offset rectangle (pos outside))
        (rectangle_offset rectangle (neg_ℤ (pos inside))).size y }
{
    let area = rectangle::bounded::offset(rectangle, signed::from_u32(outside));
    let inner = rectangle::bounded::offset(rectangle, signed::sub(0, signed::from_u32(inside)));
    ellipse_row(area, inner.size, y)
}

// The styled row at y of a crate box whose areas are it offset by `outward` and by `inward`.
pub fn crate_row_at(b: RoundedRectangle, outward: i32, inward: i32, y: i32) -> Option<StyledRuns>
    requires own_box { OwnBox b }
    requires near { Near wide_offset outward × Near wide_offset inward }
    requires near_2 { Near wide_point y }
    ensures { result ≡ box_styled_row (crate_area b outward) (crate_area b inward) y }
{
    let area = confined(offset_box(b, outward));
    let inner = confined(offset_box(b, inward));
    box_row(area, inner, y)
}

// The same of a W3C box, which its offset confines.
pub fn w3c_row_at(b: RoundedRectangle, outward: i32, inward: i32, y: i32) -> Option<StyledRuns>
    requires own_box { OwnBox b }
    requires near { Near wide_offset outward × Near wide_offset inward }
    requires near_2 { Near wide_point y }
    ensures { result ≡ box_styled_row (w3c_area b outward) (w3c_area b inward) y }
{
    let area = offset_w3c_box(b, outward);
    let inner = offset_w3c_box(b, inward);
    box_row(area, inner, y)
}
