// The edges of a box, each with the radii along it, and the edge that decides each of the two rules
// that confine radii, after embedded-graphics 0.8.2 `rounded_rectangle/corner_radii.rs`.
ghost use Rattle.std.specs.Prelude.{◌≡◌};
ghost use Rattle.corner.specs.EdgeBounds.{BoundedEdge, BoundedEdges};
ghost use Rattle.corner.specs.Edge.{overlap as edge_overlap, further_over, most_over, tighter as edge_tighter, tightest as edge_tightest};

// An edge of a box: the sum of the two radii along it, S, and its length, L.
#[derive(Clone, Copy)]
pub struct Edge {
    pub sum: u32,
    pub length: u32,
}

// The edges of a box, in the order in which the rules take them.
#[derive(Clone, Copy)]
pub struct Edges {
    pub top: Edge,
    pub right: Edge,
    pub bottom: Edge,
    pub left: Edge,
}

// S − L, or 0 where the radii fit.
fn overlap(edge: Edge) -> u32
    ensures { result ≡ edge_overlap edge }
{
    if edge.length < edge.sum {
        edge.sum - edge.length
    } else {
        0
    }
}

// The edge with the larger overlap, the first of two equal ones.
fn further_over(first: Edge, next: Edge) -> Edge
    requires bounded_edge { BoundedEdge first }
    requires bounded_edge_2 { BoundedEdge next }
    ensures value { result ≡ further_over first next }
    ensures bounded_edge_3 { BoundedEdge result }
{
    if overlap(first) < overlap(next) {
        next
    } else {
        first
    }
}

// The edge with the smaller L / S among those with S > 0, the first of two equal ones. The ratios
// are compared by cross products, so that nothing is rounded.
fn tighter(first: Edge, next: Edge) -> Edge
    requires bounded_edge { BoundedEdge first }
    requires bounded_edge_2 { BoundedEdge next }
    ensures value { result ≡ edge_tighter first next }
    ensures bounded_edge_3 { BoundedEdge result }
{
    if next.sum == 0 {
        return first;
    }
    if first.sum == 0 {
        return next;
    }
    if next.length * first.sum < first.length * next.sum {
        next
    } else {
        first
    }
}

impl Edges {
    // The edge that decides the crate rule.
    pub fn most_over(self) -> Edge
        requires { BoundedEdges self }
        ensures value { result ≡ most_over self }
        ensures bounded_edge { BoundedEdge result }
    {
        let upper = further_over(self.top, self.right);
        further_over(further_over(upper, self.bottom), self.left)
    }

    // The edge that decides the W3C rule.
    pub fn tightest(self) -> Edge
        requires { BoundedEdges self }
        ensures value { result ≡ edge_tightest self }
        ensures bounded_edge { BoundedEdge result }
    {
        let upper = tighter(self.top, self.right);
        tighter(tighter(upper, self.bottom), self.left)
    }
}
