// The rows of a sheet's layers, by which the rules on two layers and the refusal of an owed row are
// tested. The paper adds them; the Rust has no such type.
ghost use Rattle.std.specs.Prelude.{◌≡◌, ◌≤◌, take, drop};
ghost use Rattle.geometry.specs.Limits.{max_layers};
ghost use Rattle.sheet_layers.specs.LayerRows.{rows_owe, some_rows_owe, rows_overtake, no_rows_overtake, rows_in_order};

// The rows of a layer: the first of its stroke area, its next row, and the one after its last.
#[derive(Clone, Copy)]
pub struct LayerRows {
    pub first: i32,
    pub next: i32,
    pub end: i32,
}

impl LayerRows {
    // How many layers a sheet has places for.
    pub const PLACES: usize = 16;

    // Whether y is among the rows and not painted yet.
    pub fn owes(self, y: i32) -> bool
        ensures { result ≡ rows_owe self y }
    {
        if y < self.first {
            return false;
        }
        if self.end <= y {
            return false;
        }
        self.next <= y
    }

    // Whether a later layer has painted a row that this one owes: the rows that it has painted and
    // those that are left here meet.
    pub fn is_overtaken(self, later: LayerRows) -> bool
        ensures { result ≡ rows_overtake self later }
    {
        if later.next <= later.first {
            return false;
        }
        if self.end <= later.first {
            return false;
        }
        if later.next <= self.next {
            return false;
        }
        self.next < self.end
    }
}

// Whether one of the first layers owes y.
pub fn some_owes(rows: [LayerRows; LayerRows::PLACES], layers: usize, y: i32) -> bool
    requires { layers ≤ max_layers }
    ensures { result ≡ some_rows_owe (take layers rows) y }
{
    for i in 0..layers {
        if rows[i].owes(y) {
            return true;
        }
    }
    false
}

// Whether no layer from this place up to the count overtakes an earlier one. One that is painted to its
// end owes nothing.
fn none_overtakes(
    earlier: LayerRows,
    rows: [LayerRows; LayerRows::PLACES],
    from: usize,
    count: usize,
) -> bool
    requires from_le_count { from ≤ count }
    requires count_le_max_layers { count ≤ max_layers }
    ensures { result ≡ no_rows_overtake earlier (drop from (take count rows)) }
{
    if earlier.end <= earlier.next {
        return true;
    }
    for i in from..count {
        if earlier.is_overtaken(rows[i]) {
            return false;
        }
    }
    true
}

// Whether none of the first layers overtakes an earlier one of them.
pub fn in_order(rows: [LayerRows; LayerRows::PLACES], count: usize) -> bool
    requires { count ≤ max_layers }
    ensures { result ≡ rows_in_order (take count rows) }
{
    for i in 0..count {
        if !none_overtakes(rows[i], rows, i + 1, count) {
            return false;
        }
    }
    true
}
