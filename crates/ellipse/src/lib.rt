// The test of a point, after embedded-graphics 0.8.2 `ellipse/mod.rs` (`EllipseContains`) and
// `circle/mod.rs` (`diameter_to_threshold`). The test depends on the distances from the middle alone, so
// it works on unsigned numbers; in u64, so that every size is answered where the Rust overflows u32.
#![tactic(auto)]

ghost use Rattle.std.specs.Prelude.{◌≡◌, ◌*◌, ◌-◌, ◌<◌, ◌≤◌, nat_abs};
ghost use Rattle.signed.specs.Signed.{Near};
ghost use Rattle.geometry.specs.Bounds.{wide_side, wide_point, SizeUpTo, PointNear};
ghost use Rattle.rectangle.specs.Bounds.{Bounded};
ghost use Rattle.ellipse.specs.Ellipse.{threshold, center2x, from_center2x, contains as ellipse_contains};
ghost use Rattle.ellipse.specs.Relative.{gap as relative_gap, wide_distance, wide_side_square, wide_distance_square, wide_product, contains_of, SmallWeights, below_threshold};
ghost use Rattle.ellipse.specs.Row.{SmallWeight, on_row, inside_on_row};

use geometry::{Point, Size};
use rectangle::Rectangle;

// The weights of X² and Y² and the bound of their sum: one form for equal and unequal sides, where
// the Rust compares its two squares at each point.
#[derive(Clone, Copy)]
pub struct EllipseContains {
    pub x_weight: u64,
    pub y_weight: u64,
    pub threshold: u64,
}

// The test on one row, for many columns: the weight of X², and what the row leaves of the bound. So the
// test at a column is one square, one product and one comparison. The Rust has no such test: it forms
// the part of Y anew at each point.
#[derive(Clone, Copy)]
pub struct RowContains {
    pub x_weight: u64,
    pub threshold: u64,
}

// Squares and a product: the contracts carry the bounds, so that no caller needs a law on products.
fn side_square(side: u64) -> u64
    requires { side ≤ wide_side }
    ensures { (result ≡ side * side) × (result ≤ wide_side_square) }
{
    side * side
}

fn distance_square(distance: u64) -> u64
    requires { distance ≤ wide_distance }
    ensures { (result ≡ distance * distance) × (result ≤ wide_distance_square) }
{
    distance * distance
}

fn times(weight: u64, square: u64) -> u64
    requires { (weight ≤ wide_side_square) × (square ≤ wide_distance_square) }
    ensures { (result ≡ weight * square) × (result ≤ wide_product) }
{
    weight * square
}

// The bound of a circle. Up to diameter 4 it is below the square: 3 by 3 would else gain its corners.
#[tactic(auto, using(crate::proofs::Distances::half_le_square), unfolding(crate::specs::Ellipse::threshold))]
fn diameter_to_threshold(diameter: u32) -> u64
    requires { diameter ≤ wide_side }
    ensures { result ≡ threshold diameter }
{
    let square = side_square(signed::wide(diameter));
    if diameter <= 4 {
        square - signed::wide(diameter / 2)
    } else {
        square
    }
}

// What a row's product leaves of the bound: nothing where it is the larger, and then no column is inside.
fn left_after(product: u64, bound: u64) -> u64
    ensures { result ≡ bound - product }
{
    if product < bound { bound - product } else { 0 }
}

impl EllipseContains {
    pub fn new(size: Size) -> EllipseContains
        requires { SizeUpTo wide_side size }
        ensures { (result ≡ contains_of size.width size.height) × SmallWeights result }
    {
        if size.width == size.height {
            let threshold = diameter_to_threshold(size.width);
            return EllipseContains {
                x_weight: 1,
                y_weight: 1,
                threshold: threshold,
            };
        }
        let a = side_square(signed::wide(size.width));
        let b = side_square(signed::wide(size.height));
        let threshold = times(a, b);
        EllipseContains {
            x_weight: b,
            y_weight: a,
            threshold: threshold,
        }
    }

    // Whether a point is inside, by twice its distances from the middle.
    pub fn contains(self, x: u64, y: u64) -> bool
        requires small_weights { SmallWeights self }
        requires x_le_wide_distance { (x ≤ wide_distance) × (y ≤ wide_distance) }
        ensures { result ≡ below_threshold self x y }
    {
        times(self.x_weight, distance_square(x)) + times(self.y_weight, distance_square(y))
            < self.threshold
    }

    // The test on one row, by twice its distance y from the middle.
    pub fn on_row(self, y: u64) -> RowContains
        requires small_weights { SmallWeights self }
        requires y_le_wide_distance { y ≤ wide_distance }
        ensures { (result ≡ on_row self y) × SmallWeight result }
    {
        let product = times(self.y_weight, distance_square(y));
        RowContains {
            x_weight: self.x_weight,
            threshold: left_after(product, self.threshold),
        }
    }
}

impl RowContains {
    // Whether a point of the row is inside, by twice its distance from the middle.
    pub fn contains(self, x: u64) -> bool
        requires { SmallWeight self × (x ≤ wide_distance) }
        ensures { result ≡ inside_on_row self x }
    {
        times(self.x_weight, distance_square(x)) < self.threshold
    }
}

// Twice the distance of place k from the middle of n places.
pub fn gap(n: u32, k: u32) -> u64
    requires { (k < n) × (n ≤ wide_side) }
    ensures { (result ≡ relative_gap n k) × (result < n) }
{
    let last = n - 1;
    let twice = 2 * k;
    if twice < last {
        signed::wide(last - twice)
    } else {
        signed::wide(twice - last)
    }
}

// max(side − 1, 0)
fn last_of(side: u32) -> u32
    ensures { result ≡ side - 1 }
{
    if side == 0 { 0 } else { side - 1 }
}

// |2 × point − C| on one axis, for any point.
fn distance(point: i32, corner: i32, side: u32) -> u64
    requires near { Near wide_point point }
    requires near_2 { Near wide_point corner }
    requires side_le_wide_side { side ≤ wide_side }
    ensures { (result ≡ nat_abs (from_center2x point (center2x corner side))) × (result ≤ wide_distance) }
{
    let from_corner = signed::sub(point, corner);
    let last = last_of(side);
    if from_corner < 0 {
        return signed::wide(2 * signed::magnitude(from_corner) + last);
    }
    let twice = 2 * signed::floor0(from_corner);
    if twice < last {
        signed::wide(last - twice)
    } else {
        signed::wide(twice - last)
    }
}

// `Ellipse::contains`
pub fn contains(ellipse: Rectangle, point: Point) -> bool
    requires bounded { Bounded ellipse }
    requires point_near { PointNear wide_point point }
    ensures { result ≡ ellipse_contains ellipse point }
{
    let top_left = ellipse.top_left;
    let size = ellipse.size;
    let test = EllipseContains::new(size);
    let x = distance(point.x, top_left.x, size.width);
    let y = distance(point.y, top_left.y, size.height);
    test.contains(x, y)
}
