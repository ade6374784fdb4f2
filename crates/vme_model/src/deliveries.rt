//! What an interrupt acknowledge delivers.

/// A status/ID byte that went from an interrupter to a handler. Source: Std 1014, chapter 4.
#[derive(Clone, Copy, PartialEq, Eq, Debug)]
pub struct Delivery {
    /// The slot of the handler: the board whose address group is on.
    pub handler: u8,
    /// The level that was acknowledged, 1 to 7.
    pub level: u8,
    /// The slot of the board that answered.
    pub answered_by: u8,
    /// The status/ID byte of that board.
    pub status: u8,
}
