// What a finished search leaves.
use incumbent::Best;
use search_core::{Answer, History};

/// What a finished search leaves.
#[derive(Drop)]
pub struct Solved {
    /// The answer.
    pub answer: Answer,
    /// All entries, in order.
    pub history: History,
    /// The best architecture that was accepted, None where none was.
    pub best: Option<Best>,
    /// How many branchings there were.
    pub branchings: u32,
    /// How many cuts were learned.
    pub cuts: u32,
}
