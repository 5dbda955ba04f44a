// What a seat knows.

/// What a seat knows, as clauses see it. No value of it is made: clauses and proofs alone speak of
/// it, and read each array as a list of any length.
pub struct SeatView<A> {
    /// Its number, 0 to 63, which no other seat of the gate has: 0 is the opened seat's.
    pub number: u32,
    /// What the value is about; None once the seat was joined into another.
    pub about: Option<A>,
    /// The greatest count that it has seen or been told of, below 2^62.
    pub seen: u64,
    /// The numbers that it hasn't given out yet, descending to 1; only the opened seat has any.
    pub spare: [u32; 0],
    /// The numbers that it gave out and that weren't joined back.
    pub away: [u32; 0],
    /// The words that its tries found, in order: twice the value's count, and one more while a seat
    /// is in a turn.
    pub found: [u64; 0],
    /// Whether it is in a turn.
    pub in_turn: bool,
}
