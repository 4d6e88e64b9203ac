// What is done with a box before its rows are asked for: its radii confined by either rule, which
// hands their fraction on with them, and its offset. After embedded-graphics 0.8.2
// `rounded_rectangle/mod.rs` (`OffsetOutline`, `confine_radii`); the W3C rules are not in the source.
ghost use Rattle.std.specs.Prelude.{◌≡◌};
ghost use Rattle.signed.specs.Signed.{Near};
ghost use Rattle.shape.specs.BoxBounds.{wide_offset, OwnBox, AreaBox, ConfinedAreaBox};
ghost use Rattle.shape.specs.BoxRules.{confined as box_rules_confined, confined_w3c, offset_box, offset_w3c_box};

use rounded_rectangle::{ConfinedBox, RoundedRectangle};

// A box with its radii confined by the crate rule.
#[tactic(auto, using(crate::proofs::Fields::confined_box_by_fields), unfolding(crate::specs::BoxRules::confined))]
pub fn confined(b: RoundedRectangle) -> ConfinedBox
    requires { AreaBox b }
    ensures { result ≡ box_rules_confined b }
{
    let rectangle = b.rectangle;
    let corners = b.corners;
    ConfinedBox {
        rectangle: rectangle,
        corners: corners.confine(rectangle.size),
    }
}

// The same by the W3C rule.
#[tactic(auto, using(crate::proofs::Fields::confined_box_by_fields), unfolding(crate::specs::BoxRules::confined_w3c))]
pub fn confined_w3c(b: RoundedRectangle) -> ConfinedBox
    requires { AreaBox b }
    ensures { result ≡ confined_w3c b }
{
    let rectangle = b.rectangle;
    let corners = b.corners;
    ConfinedBox {
        rectangle: rectangle,
        corners: corners.confine_w3c(rectangle.size),
    }
}

// A crate box offset about its centre, its radii with it.
#[tactic(auto, using(corner_radii::proofs::Bounds::radii_up_to_wider, crate::proofs::Fields::box_by_fields, crate::proofs::Within::own_area, crate::proofs::Within::area_bounded), unfolding(crate::specs::BoxRules::offset_box))]
pub fn offset_box(b: RoundedRectangle, k: i32) -> RoundedRectangle
    requires own_box { OwnBox b }
    requires near { Near wide_offset k }
    ensures { result ≡ offset_box b k }
{
    let rectangle = b.rectangle;
    let corners = b.corners;
    RoundedRectangle {
        rectangle: rectangle::bounded::offset(rectangle, k),
        corners: corners.offset(k),
    }
}

// A W3C box offset: confined, offset with its radii spread, which outward goes by Level 3's rule, and
// confined again.
pub fn offset_w3c_box(b: RoundedRectangle, k: i32) -> ConfinedBox
    requires own_box { OwnBox b }
    requires near { Near wide_offset k }
    ensures { (result ≡ offset_w3c_box b k) × ConfinedAreaBox result }
{
    let once = confined_w3c(b).plain();
    let rectangle = once.rectangle;
    let corners = once.corners;
    confined_w3c(RoundedRectangle {
        rectangle: rectangle::bounded::offset(rectangle, k),
        corners: corners.spread(k),
    })
}
