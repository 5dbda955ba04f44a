// The rules of a log, in the order in which they are judged.

/// A rule by which the lines of a log are judged. The variants stand in the order of judging; those
/// from `Worker` to `Refute` are about one entry.
#[derive(Clone, Copy, Debug, PartialEq, Eq)]
pub enum Rule {
    /// The log is too long.
    TooLarge,
    /// The line is too long.
    TooLong,
    /// The bytes end too early.
    End,
    /// The line has none of the shapes.
    Form,
    /// A number isn't one of its field.
    Number,
    /// A list of numbers doesn't ascend.
    Order,
    /// A closing line came before.
    After,
    /// A header line is wrong or comes later.
    Header,
    /// A worker's number is 64 or more.
    Worker,
    /// The node isn't in the state that the entry asks for, or is another worker's.
    Node,
    /// The number of cuts isn't that of this moment.
    Cuts,
    /// The bound isn't the best cost of this moment.
    Bound,
    /// A row is named that the node doesn't know.
    Row,
    /// A trace step's row forces nothing.
    Step,
    /// The variable isn't one, or isn't free.
    Free,
    /// The limit stands against it.
    Limit,
    /// The combination isn't refuted.
    Reason,
    /// A variable is free.
    Full,
    /// A base row is refuted.
    Broken,
    /// A requirement's weight is above its bound.
    Weight,
    /// The number isn't the candidate's cost.
    Cost,
    /// The cut isn't right for the candidate.
    Cut,
    /// The candidate doesn't refute the cut's row.
    Refute,
    /// The answer isn't that of the state.
    Answer,
}
