// The refusals of document 01's table and of document 02, and the checks that lead to them. A call
// makes its checks in the table's order (14 before all others), so the first that fails gives the number.
#![tactic(auto)]

ghost use Rattle.std.specs.Prelude.{◌≡◌};
ghost use Rattle.refusal.specs.Refusal.{number as refusal_number, refuse_if, above, beyond, room_check};

#[derive(Clone, Copy)]
pub enum Refusal {
    // A side above the limit.
    Side,
    // A corner radius above the limit.
    Radius,
    // A rectangle's x or y beyond the limit.
    Position,
    // An asked point or row beyond the limit.
    Asked,
    // A stroke width above the limit, or an offset beyond it.
    Offset,
    // A canvas width or height that is 0 or above the limit.
    CanvasSide,
    // The sheet given breaks a rule.
    SheetRule,
    // The canvas length is not width × height.
    CanvasLength,
    // Adding to a sheet that has all its layers.
    SheetFull,
    // No such layer.
    NoLayer,
    // The layer has no row left.
    NoRowLeft,
    // An earlier layer owes that row.
    RowOwed,
    // The lent list or file buffer is too short.
    BufferLength,
    // The file's header is not one of P4 or P5.
    FileHeader,
    // The file ends before its raster does.
    RasterLength,
}

impl Refusal {
    // The number that tells the shop what to mend.
    pub fn number(self) -> u32
        ensures { result ≡ refusal_number self }
    {
        match self {
            Refusal::Side => 1,
            Refusal::Radius => 2,
            Refusal::Position => 3,
            Refusal::Asked => 4,
            Refusal::Offset => 5,
            Refusal::CanvasSide => 6,
            Refusal::SheetRule => 7,
            Refusal::CanvasLength => 8,
            Refusal::SheetFull => 9,
            Refusal::NoLayer => 10,
            Refusal::NoRowLeft => 11,
            Refusal::RowOwed => 12,
            Refusal::BufferLength => 13,
            Refusal::FileHeader => 14,
            Refusal::RasterLength => 15,
        }
    }
}

// What a check finds; and what a call that gives no values answers: `Ok` where it is accepted.
pub type Checked = Result<(), Refusal>;

// Refuses a number above a limit.
pub fn refuse_above(limit: u32, value: u32, refusal: Refusal) -> Checked
    ensures { result ≡ refuse_if (above limit value) refusal }
{
    if limit < value { Err(refusal) } else { Ok(()) }
}

// Refuses a number further than a limit from 0.
pub fn refuse_beyond(limit: u32, value: i32, refusal: Refusal) -> Checked
    ensures { result ≡ refuse_if (beyond limit value) refusal }
{
    refuse_above(limit, signed::magnitude(value), refusal)
}

// Refuses a lent list or buffer that has `room` places where so many are needed (refusal 13).
pub fn check_room(needed: usize, room: usize) -> Checked
    ensures { result ≡ room_check needed room }
{
    if room < needed {
        Err(Refusal::BufferLength)
    } else {
        Ok(())
    }
}
