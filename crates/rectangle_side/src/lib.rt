// What is done with one side of a rectangle, after embedded-graphics 0.8.2 `rectangle/mod.rs`.
// `rectangle` does it with both.
#![tactic(auto)]

ghost use Rattle.std.specs.Prelude.{◌≡◌, ◌≤◌};
ghost use Rattle.signed.specs.Signed.{Near};
ghost use Rattle.rectangle_side.specs.Side.{wide_side, center_term, offset_side};

// How far the centre lies from a side's first pixel.
pub fn center_term(side: u32) -> u32
    ensures { result ≡ center_term side }
{
    if side == 0 { 0 } else { (side - 1) / 2 }
}

// A side with 2k added, never below 0. The Rust caps at the type's ends; here both ends are far.
pub fn offset_side(side: u32, k: i32) -> u32
    requires side_le_wide_side { side ≤ wide_side }
    requires near { Near wide_side k }
    ensures { result ≡ offset_side side k }
{
    let grown = signed::add(signed::from_u32(side), signed::add(k, k));
    signed::floor0(grown)
}
