// The first word of a line.
ghost use Rattle.std.specs.Prelude.{◌≡◌, ℕ, ◌≤◌, length, take, drop, IfSome, IfNone};
ghost use Rattle.proof_log.specs.Inner.Reading.{word_text, word_among, all_words, word_front, word_rest};

/// What kind of line it is, by its first word.
#[derive(Clone, Copy)]
pub enum Word {
    /// The version of the log.
    Version,
    /// The numbers of components and edges.
    Vars,
    /// The limit on branchings.
    Limit,
    /// A worker takes a node.
    Take,
    /// A node is split.
    Branch,
    /// A node is dropped.
    Prune,
    /// A node becomes a candidate.
    Offer,
    /// A worker studies a candidate.
    Study,
    /// A candidate teaches a cut.
    Publish,
    /// A candidate is accepted.
    Accept,
    /// A node is put aside.
    Park,
    /// The search goes on under a new limit.
    Reopen,
    /// The closing line.
    Answer,
}

impl Word {
    /// The word of that text.
    pub fn named(text: &[u8]) -> Option<Word>
        ensures some { IfSome result (λ w. text.now ≡ word_text w) }
        ensures none { IfNone result ((w : Word) → text.now ≡ word_text w → ⊥) }
    {
        match text {
            b"take" => Some(Word::Take),
            b"branch" => Some(Word::Branch),
            b"prune" => Some(Word::Prune),
            b"offer" => Some(Word::Offer),
            b"study" => Some(Word::Study),
            b"publish" => Some(Word::Publish),
            b"accept" => Some(Word::Accept),
            b"park" => Some(Word::Park),
            b"reopen" => Some(Word::Reopen),
            b"archex-log" => Some(Word::Version),
            b"vars" => Some(Word::Vars),
            b"limit" => Some(Word::Limit),
            b"answer" => Some(Word::Answer),
            _ => None,
        }
    }
}

// How many bytes stand before the first space, or in all where there is none.
fn word_len(line: &[u8]) -> usize
    ensures within { result ≤ length line.now }
    ensures front { take result line.now ≡ word_front line.now }
    ensures rest { drop result line.now ≡ word_rest line.now }
{
    for (len, byte) in line.iter().enumerate() {
        if *byte == b' ' {
            return len;
        }
    }
    line.len()
}

/// The first word of a line, or None where no line begins so, and the bytes from the first space on.
pub fn first_word(line: &[u8]) -> (Option<Word>, &[u8])
    ensures word { result.0 ≡ word_among all_words (word_front line.now) }
    ensures rest { result.1.now ≡ word_rest line.now }
{
    let (word, rest) = line.split_at(word_len(line));
    (Word::named(word), rest)
}
