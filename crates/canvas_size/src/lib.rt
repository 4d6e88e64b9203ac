// The width and height of a lent canvas, with the checks that every call on a canvas makes first
// (refusals 6 and 8). Document 01 adds it; the Rust has no such type.
#![tactic(auto)]

ghost use Rattle.std.specs.Prelude.{◌≡◌};
ghost use Rattle.canvas_size.specs.CanvasSize.{side_check, canvas_size_check, canvas_length_check};

use refusal::{Checked, Refusal, refuse_above};

#[derive(Clone, Copy)]
pub struct CanvasSize {
    pub width: u32,
    pub height: u32,
}

// Refusal 6 of one side.
fn check_side(side: u32) -> Checked
    ensures { result ≡ side_check side }
{
    if side < CanvasSize::MIN_SIDE {
        return Err(Refusal::CanvasSide);
    }
    refuse_above(CanvasSize::MAX_SIDE, side, Refusal::CanvasSide)
}

impl CanvasSize {
    // The smallest and the largest side of a canvas (refusal 6).
    pub const MIN_SIDE: u32 = 1;

    pub const MAX_SIDE: u32 = 1024;

    // Refusal 6.
    #[tactic(auto, unfolding(crate::specs::CanvasSize::canvas_size_check))]
    pub fn check(self) -> Checked
        ensures { result ≡ canvas_size_check self.width self.height }
    {
        check_side(self.width)?;
        check_side(self.height)
    }

    // Refusal 8 of a canvas that is length bytes long. The product of two sides of any size fits.
    #[tactic(auto, using(crate::proofs::Sides::product_fits), unfolding(crate::specs::CanvasSize::canvas_length_check))]
    pub fn check_length(self, length: usize) -> Checked
        ensures { result ≡ canvas_length_check self.width self.height length }
    {
        if length == self.width as usize * self.height as usize {
            Ok(())
        } else {
            Err(Refusal::CanvasLength)
        }
    }
}
