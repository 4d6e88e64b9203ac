// Styles, after embedded-graphics 0.8.2 `primitives/primitive_style.rs`. A colour is one byte, and the builder is
// left out.
#![tactic(auto)]

ghost use Rattle.std.specs.Prelude.{◌≡◌};
ghost use Rattle.style.specs.Style.{default_alignment, styled_by_default, aligned, style_check, outside_stroke_width, inside_stroke_width, widths_outcome, widths_call};

use refusal::{Checked, Refusal, refuse_above};

// Where the stroke lies about the outline.
#[derive(Clone, Copy)]
pub enum StrokeAlignment {
    Inside,
    Center,
    Outside,
}

impl StrokeAlignment {
    // The alignment of a style that is made without one.
    #[tactic(auto, unfolding(crate::specs::Style::default_alignment))]
    fn default_alignment() -> StrokeAlignment
        ensures { result ≡ default_alignment }
    {
        StrokeAlignment::Center
    }
}

#[derive(Clone, Copy)]
pub struct Style {
    pub stroke: Option<u8>,
    pub fill: Option<u8>,
    pub stroke_width: u32,
    pub alignment: StrokeAlignment,
}

// How a stroke width is shared out about the outline.
#[derive(Clone, Copy)]
pub struct Widths {
    pub outside: u32,
    pub inside: u32,
}

impl Style {
    // The largest stroke width (refusal 5).
    pub const MAX_STROKE_WIDTH: u32 = 256;

    // A style with the default alignment.
    pub fn new(stroke: Option<u8>, fill: Option<u8>, stroke_width: u32) -> Style
        ensures { result ≡ styled_by_default stroke fill stroke_width }
    {
        Style {
            stroke: stroke,
            fill: fill,
            stroke_width: stroke_width,
            alignment: StrokeAlignment::default_alignment(),
        }
    }

    // The style with an alignment that is named.
    pub fn with_alignment(self, alignment: StrokeAlignment) -> Style
        ensures { result ≡ aligned self alignment }
    {
        let stroke = self.stroke;
        let fill = self.fill;
        Style {
            stroke: stroke,
            fill: fill,
            stroke_width: self.stroke_width,
            alignment: alignment,
        }
    }

    // Refusal 5.
    #[tactic(auto, unfolding(crate::specs::Style::style_check))]
    pub fn check(self) -> Checked
        ensures { result ≡ style_check self }
    {
        refuse_above(Style::MAX_STROKE_WIDTH, self.stroke_width, Refusal::Offset)
    }

    // The part of the stroke width outside the outline, whatever the width. A host calls `widths`,
    // which refuses.
    #[tactic(auto, unfolding(crate::specs::Style::outside_stroke_width))]
    pub fn outside_stroke_width(self) -> u32
        ensures { result ≡ outside_stroke_width self }
    {
        let alignment = self.alignment;
        match alignment {
            StrokeAlignment::Inside => 0,
            StrokeAlignment::Center => self.stroke_width / 2,
            StrokeAlignment::Outside => self.stroke_width,
        }
    }

    // The part of the stroke width inside the outline, with Center's odd pixel. The Rust adds 1 and
    // halves, with a cap at the type's end; the remainder added to the half needs no cap.
    #[tactic(auto, unfolding(crate::specs::Style::inside_stroke_width))]
    pub fn inside_stroke_width(self) -> u32
        ensures { result ≡ inside_stroke_width self }
    {
        let alignment = self.alignment;
        let width = self.stroke_width;
        match alignment {
            StrokeAlignment::Inside => width,
            StrokeAlignment::Center => width / 2 + width % 2,
            StrokeAlignment::Outside => 0,
        }
    }

    // Refused by 5.
    pub fn widths(self) -> Result<Widths, Refusal>
        ensures { widths_outcome result ≡ widths_call self }
    {
        self.check()?;
        Ok(Widths {
            outside: self.outside_stroke_width(),
            inside: self.inside_stroke_width(),
        })
    }
}
