// The four corner radii of a box, how they are offset, and the two rules that confine them, after
// embedded-graphics 0.8.2 `rounded_rectangle/corner_radii.rs`, and `rounded_rectangle/mod.rs`
// (`OffsetOutline`) for the offset. The W3C rule is not in the source, nor is how a W3C box's radii
// grow, nor the fraction that both rules answer. Each rule finds the edge that decides and scales by
// it; the Rust keeps that edge in three mutable locals. The Rust's builder is left out.
#![tactic(auto)]

ghost use Rattle.std.specs.Prelude.{◌≡◌, ◌<◌, ◌≤◌};
ghost use Rattle.signed.specs.Signed.{Near};
ghost use Rattle.geometry.specs.Bounds.{wide_side, SizeUpTo};
ghost use Rattle.corner.specs.EdgeBounds.{BoundedEdge, BoundedEdges};
ghost use Rattle.corner.specs.Bounds.{wide_offset, wide_radius, wide_stroke_side};
ghost use Rattle.corner_radii.specs.Bounds.{RadiiUpTo};
ghost use Rattle.corner_radii.specs.CornerRadii.{equal_radii, radius_check, radii_check, offset as corner_radii_offset, grown, spread as corner_radii_spread, edges as corner_radii_edges, scaled, reduced, confine as corner_radii_confine, confine_w3c};

use corner::edge::{Edge, Edges};
use corner::{grow_corner, offset_corner, scale_corner};
use geometry::Size;
use refusal::{Checked, Refusal, refuse_above};

#[derive(Clone, Copy)]
pub struct CornerRadii {
    pub top_left: Size,
    pub top_right: Size,
    pub bottom_right: Size,
    pub bottom_left: Size,
}

// Radii confined to a box, and the fraction by which they were reduced: the length L of the edge that
// decided and the sum S of the given radii along it, not cancelled; 1 and 1 where nothing was reduced.
#[derive(Clone, Copy)]
pub struct ConfinedRadii {
    pub radii: CornerRadii,
    pub length: u32,
    pub sum: u32,
}

// Refusal 2 of one corner.
#[tactic(auto, unfolding(crate::specs::CornerRadii::radius_check))]
fn check_radius(radius: Size) -> Checked
    ensures { result ≡ radius_check radius }
{
    refuse_above(CornerRadii::MAX_RADIUS, radius.width, Refusal::Radius)?;
    refuse_above(CornerRadii::MAX_RADIUS, radius.height, Refusal::Radius)
}

impl CornerRadii {
    // The largest width and height of a corner radius (refusal 2).
    pub const MAX_RADIUS: u32 = 1024;

    // All corners equal.
    pub fn new(radius: Size) -> CornerRadii
        ensures { result ≡ equal_radii radius }
    {
        CornerRadii {
            top_left: radius,
            top_right: radius,
            bottom_right: radius,
            bottom_left: radius,
        }
    }

    // Refusal 2, of the corners in order.
    #[tactic(auto, unfolding(crate::specs::CornerRadii::radii_check))]
    pub fn check(self) -> Checked
        ensures { result ≡ radii_check self }
    {
        check_radius(self.top_left)?;
        check_radius(self.top_right)?;
        check_radius(self.bottom_right)?;
        check_radius(self.bottom_left)
    }

    // The edges of a box of this size.
    fn edges(self, size: Size) -> Edges
        requires radii_up_to { RadiiUpTo wide_radius self }
        requires size_up_to { SizeUpTo wide_stroke_side size }
        ensures value { result ≡ corner_radii_edges self size }
        ensures bounded_edges { BoundedEdges result }
    {
        let top_left = self.top_left;
        let top_right = self.top_right;
        let bottom_right = self.bottom_right;
        let bottom_left = self.bottom_left;
        Edges {
            top: Edge {
                sum: top_left.width + top_right.width,
                length: size.width,
            },
            right: Edge {
                sum: top_right.height + bottom_right.height,
                length: size.height,
            },
            bottom: Edge {
                sum: bottom_left.width + bottom_right.width,
                length: size.width,
            },
            left: Edge {
                sum: top_left.height + bottom_left.height,
                length: size.height,
            },
        }
    }

    // Every radius times L / S of an edge, rounded down.
    fn scale(self, edge: Edge) -> CornerRadii
        requires radii_up_to { RadiiUpTo wide_radius self }
        requires bounded_edge { BoundedEdge edge }
        requires sum_nonzero { 0 < edge.sum }
        ensures { result ≡ scaled edge.length edge.sum self }
    {
        CornerRadii {
            top_left: scale_corner(self.top_left, edge),
            top_right: scale_corner(self.top_right, edge),
            bottom_right: scale_corner(self.bottom_right, edge),
            bottom_left: scale_corner(self.bottom_left, edge),
        }
    }

    // The radii scaled by the edge that decides, with its L and S; as they are, with 1 and 1, if they
    // do not overlap on it.
    fn reduce(self, edge: Edge) -> ConfinedRadii
        requires radii_up_to { RadiiUpTo wide_radius self }
        requires bounded_edge { BoundedEdge edge }
        ensures { result ≡ reduced edge self }
    {
        if edge.length < edge.sum {
            ConfinedRadii {
                radii: self.scale(edge),
                length: edge.length,
                sum: edge.sum,
            }
        } else {
            ConfinedRadii {
                radii: self,
                length: 1,
                sum: 1,
            }
        }
    }

    // The crate rule.
    pub fn confine(self, size: Size) -> ConfinedRadii
        requires radii_up_to { RadiiUpTo wide_radius self }
        requires size_up_to { SizeUpTo wide_stroke_side size }
        ensures { result ≡ corner_radii_confine self size }
    {
        let edge = self.edges(size).most_over();
        self.reduce(edge)
    }

    // The W3C rule.
    pub fn confine_w3c(self, size: Size) -> ConfinedRadii
        requires radii_up_to { RadiiUpTo wide_radius self }
        requires size_up_to { SizeUpTo wide_stroke_side size }
        ensures { result ≡ confine_w3c self size }
    {
        let edge = self.edges(size).tightest();
        self.reduce(edge)
    }

    // Each radius number changed by k, never below 0.
    pub fn offset(self, k: i32) -> CornerRadii
        requires radii_up_to { RadiiUpTo wide_radius self }
        requires near { Near wide_side k }
        ensures { result ≡ corner_radii_offset self k }
    {
        CornerRadii {
            top_left: offset_corner(self.top_left, k),
            top_right: offset_corner(self.top_right, k),
            bottom_right: offset_corner(self.bottom_right, k),
            bottom_left: offset_corner(self.bottom_left, k),
        }
    }

    // The radii of a W3C box grown by k.
    fn grow(self, k: u32) -> CornerRadii
        requires radii_up_to { RadiiUpTo wide_radius self }
        requires k_le_wide_offset { k ≤ wide_offset }
        ensures { result ≡ grown self k }
    {
        CornerRadii {
            top_left: grow_corner(self.top_left, k),
            top_right: grow_corner(self.top_right, k),
            bottom_right: grow_corner(self.bottom_right, k),
            bottom_left: grow_corner(self.bottom_left, k),
        }
    }

    // The radii of a W3C box changed by k: outward they grow, inward they change like those of a crate
    // box.
    pub fn spread(self, k: i32) -> CornerRadii
        requires radii_up_to { RadiiUpTo wide_radius self }
        requires near { Near wide_offset k }
        ensures { result ≡ corner_radii_spread self k }
    {
        if k <= 0 {
            return self.offset(k);
        }
        self.grow(signed::floor0(k))
    }
}
