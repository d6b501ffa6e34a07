ghost use Rattle.std.specs.Prelude.{◌≡◌, ℕ, ◌+◌, ◌<◌, length, slice_index};

/// The table of refusals: an order and a place a row. The rows are command, length of the body asked for, length of the body
/// that is needed, range of the capabilities, of the data and of the enables.
pub struct FaultRows<const N: usize> {
    pub orders: [u8; N],
    /// Where the field stands that a row blames, counted from the packet's first byte.
    pub places: [u32; N],
}

/// The rows, in the order in which they are judged.
pub const FAULTS: FaultRows<6> = FaultRows {
    orders: [1, 2, 3, 4, 5, 6],
    places: [0, 4, 4, 24, 64, 72],
};

/// The orders of the rows rise from 1 to 6, so that the first row that applies is the fault.
pub fn orders_rise()
    ensures { (i : ℕ) → i < 6 → slice_index FAULTS.orders i ≡ i + 1 }
{}
