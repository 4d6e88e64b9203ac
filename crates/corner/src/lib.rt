// What is done at one corner of a box, for the two rules that confine radii and for the offset, after
// embedded-graphics 0.8.2 `rounded_rectangle/corner_radii.rs` and `rounded_rectangle/mod.rs`
// (`OffsetOutline`); how a W3C box's corner grows is not in the source. `corner_radii` does it at all
// four corners.
#![tactic(auto)]

use crate::edge::Edge;
use geometry::Size;

pub mod edge;

ghost use Rattle.std.specs.Prelude.{◌≡◌, ◌<◌, ◌≤◌};
ghost use Rattle.signed.specs.Signed.{Near};
ghost use Rattle.geometry.specs.Bounds.{wide_side, SizeUpTo};
ghost use Rattle.corner.specs.EdgeBounds.{wide_offset, wide_radius, BoundedEdge};
ghost use Rattle.corner.specs.Corner.{offset_radius, offset_corner, scaled_corner};
ghost use Rattle.corner.specs.Growth.{grown_radius, grown_corner};

// A corner's radii times L / S, rounded down.
pub fn scale_corner(radius: Size, edge: Edge) -> Size
    requires size_up_to { SizeUpTo wide_radius radius }
    requires bounded_edge { BoundedEdge edge }
    requires sum_nonzero { 0 < edge.sum }
    ensures { result ≡ scaled_corner edge.length edge.sum radius }
{
    Size {
        width: radius.width * edge.length / edge.sum,
        height: radius.height * edge.length / edge.sum,
    }
}

// A radius number with k added, never below 0. The Rust caps at the type's end too, which is far.
fn offset_radius(radius: u32, k: i32) -> u32
    requires radius_le_wide_radius { radius ≤ wide_radius }
    requires near { Near wide_side k }
    ensures { result ≡ offset_radius k radius }
{
    let grown = signed::add(signed::from_u32(radius), k);
    signed::floor0(grown)
}

pub fn offset_corner(radius: Size, k: i32) -> Size
    requires size_up_to { SizeUpTo wide_radius radius }
    requires near { Near wide_side k }
    ensures { result ≡ offset_corner k radius }
{
    Size {
        width: offset_radius(radius.width, k),
        height: offset_radius(radius.height, k),
    }
}

// A radius number of a W3C box grown by k: by all of k from k on, and below that by less, down to
// nothing for 0. What is taken off is rounded up.
fn grow_radius(radius: u32, k: u32) -> u32
    requires radius_le_wide_radius { radius ≤ wide_radius }
    requires k_le_wide_offset { k ≤ wide_offset }
    ensures { result ≡ grown_radius k radius }
{
    if radius < k {
        let below = k - radius;
        let square = k * k;
        radius + k - (below * below * below + (square - 1)) / square
    } else {
        radius + k
    }
}

pub fn grow_corner(radius: Size, k: u32) -> Size
    requires size_up_to { SizeUpTo wide_radius radius }
    requires k_le_wide_offset { k ≤ wide_offset }
    ensures { result ≡ grown_corner k radius }
{
    Size {
        width: grow_radius(radius.width, k),
        height: grow_radius(radius.height, k),
    }
}
