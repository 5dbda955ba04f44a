// How a run ends.

/// How a run ended: the number with which the program ends, 0 to 9. The meaning of each number is
/// that of `Ending` in `specs/Status.antt`, and those that the program uses have a name here.
#[derive(Clone, Copy, Debug, PartialEq, Eq)]
pub struct Status(pub u8);

impl Status {
    /// The command did what it is for: `solve` printed a cheapest architecture, `check` said yes to a
    /// log, `probability` printed two bounds of a failure mass.
    pub const DONE: Status = Status(0);
    /// No architecture meets the patterns and keeps the bounds on weights.
    pub const INFEASIBLE: Status = Status(1);
    /// The limit of branchings was spent before the search was over.
    pub const NODE_LIMIT: Status = Status(2);
    /// The bytes of the library file aren't a library.
    pub const LIBRARY_REFUSED: Status = Status(3);
    /// The words are no command, or name a sink that the library doesn't have.
    pub const WORDS_REFUSED: Status = Status(4);
    /// A read of a file failed.
    pub const READ_FAULT: Status = Status(5);
    /// A write failed: of a file, or the text couldn't be printed whole.
    pub const WRITE_FAULT: Status = Status(6);
    /// There was no memory.
    pub const NO_MEMORY: Status = Status(7);
    /// The checker says no: a line of the log breaks a rule, or the log has no end.
    pub const LOG_REFUSED: Status = Status(8);
    /// The bytes of the architecture file aren't an architecture of the library.
    pub const ARCHITECTURE_REFUSED: Status = Status(9);
}
