// The text of a log, line by line.
ghost use Rattle.std.specs.Prelude.{◌≡◌, ◌++◌, map, length, OnOk, OnErr};
ghost use Rattle.std.specs.Fmt.{decimal};
ghost use Rattle.proof_log.specs.declared.parts.Part.TheVariants as part;
ghost use Rattle.proof_log.specs.Line.{version, vars, limits, takes, branches, prunes, offers};
ghost use Rattle.proof_log.specs.Value.{row_name, named_pair, text_of, ended, header_text};
ghost use Rattle.proof_log.specs.Value.{cut_line, entry_text, closing_text};
ghost use Rattle.proof_log.specs.Inner.Writing.{StaysInFront};

use crate::parts::{Part, write_line};
use arch_model::{Memory, VarId};
use redundancy_cut::Cut;
use rows::{Problem, Reason, Trace};
use search_core::{Answer, Entry};

// A number that fits 32 bits.
fn small(n: u32) -> Part<'static>
    ensures { result ≡ part.Number n }
{
    Part::Number(u64::from(n))
}

// Appends the header lines one after another.
fn push_header(components: usize, edges: usize, limit: u32, out: &mut Vec<u8>) -> Result<(), Memory>
    ensures ok { OnOk result (out.new.items ≡ out.old.items
        ++ (ended (text_of version) ++ ended (text_of (vars components edges))
        ++ ended (text_of (limits limit)))) }
    ensures err { OnErr result (StaysInFront out.old.items out.new.items) }
{
    write_line(b"archex-log", &[Part::Word(b"1")], out)?;
    let sizes = [Part::Number(components as u64), Part::Number(edges as u64)];
    write_line(b"vars", &sizes, out)?;
    write_line(b"limit", &[small(limit)], out)
}

/// Appends the three header lines of a log: the version, the numbers of components and edges, and
/// the limit on branchings. Where memory is wanting, nothing is appended.
pub fn header(problem: &Problem, limit: u32, out: &mut Vec<u8>) -> Result<(), Memory>
    ensures ok { OnOk result (out.new.items ≡ out.old.items ++ header_text problem.now limit) }
    ensures err { OnErr result (out.new.items ≡ out.old.items) }
{
    let library = problem.library();
    let before = out.len();
    let written = push_header(
        library.components().len(),
        library.edges().len(),
        limit,
        out,
    );
    if written.is_err() {
        out.truncate(before);
    }
    written
}

// Appends the line of a learned cut.
fn write_cut(worker: u32, node: u32, cut: &Cut, out: &mut Vec<u8>) -> Result<(), Memory>
    ensures ok { OnOk result (out.new.items ≡ out.old.items
        ++ ended (text_of (cut_line worker node cut.now))) }
    ensures err { OnErr result (out.new.items ≡ out.old.items) }
{
    match cut {
        Cut::Redundancy {
            requirement,
            set,
            far,
        } => {
            let parts = [
                small(worker),
                small(node),
                Part::Word(b"redundancy"),
                small(*requirement),
                Part::Members(set),
                Part::Components(far),
            ];
            write_line(b"publish", &parts, out)
        }
        Cut::NoGood { requirement, cone } => {
            let parts = [
                small(worker),
                small(node),
                Part::Word(b"nogood"),
                small(*requirement),
                Part::Components(cone),
            ];
            write_line(b"publish", &parts, out)
        }
    }
}

// A worker takes a node.
fn write_take(
    worker: u32,
    node: u32,
    cuts: u32,
    bound: Option<u64>,
    out: &mut Vec<u8>,
) -> Result<(), Memory>
    ensures ok { OnOk result (out.new.items ≡ out.old.items
        ++ ended (text_of (takes worker node cuts bound))) }
    ensures err { OnErr result (out.new.items ≡ out.old.items) }
{
    let parts = [
        small(worker),
        small(node),
        small(cuts),
        Part::Optional(bound),
    ];
    write_line(b"take", &parts, out)
}

// A node is split.
fn write_branch(
    worker: u32,
    node: u32,
    trace: &Trace,
    var: VarId,
    out: &mut Vec<u8>,
) -> Result<(), Memory>
    ensures ok { OnOk result (out.new.items ≡ out.old.items
        ++ ended (text_of (branches worker node (map row_name trace.now) var.0))) }
    ensures err { OnErr result (out.new.items ≡ out.old.items) }
{
    let parts = [
        small(worker),
        small(node),
        Part::Trace(trace.steps()),
        small(var.0),
    ];
    write_line(b"branch", &parts, out)
}

// A node is dropped.
fn write_prune(
    worker: u32,
    node: u32,
    trace: &Trace,
    reason: &Reason,
    out: &mut Vec<u8>,
) -> Result<(), Memory>
    ensures ok { OnOk result (out.new.items ≡ out.old.items
        ++ ended (text_of (prunes worker node (map row_name trace.now)
        (map named_pair reason.now)))) }
    ensures err { OnErr result (out.new.items ≡ out.old.items) }
{
    let parts = [
        small(worker),
        small(node),
        Part::Trace(trace.steps()),
        Part::Reason(reason.pairs()),
    ];
    write_line(b"prune", &parts, out)
}

// A node becomes a candidate.
fn write_offer(worker: u32, node: u32, trace: &Trace, out: &mut Vec<u8>) -> Result<(), Memory>
    ensures ok { OnOk result (out.new.items ≡ out.old.items
        ++ ended (text_of (offers worker node (map row_name trace.now)))) }
    ensures err { OnErr result (out.new.items ≡ out.old.items) }
{
    let parts = [small(worker), small(node), Part::Trace(trace.steps())];
    write_line(b"offer", &parts, out)
}

/// Appends the line of an entry. Where memory is wanting, nothing is appended. A cost of 2^63 or
/// more is written too, though `read_line` refuses it.
pub fn write_entry(entry: &Entry, out: &mut Vec<u8>) -> Result<(), Memory>
    ensures ok { OnOk result (out.new.items ≡ out.old.items ++ ended (entry_text entry.now)) }
    ensures err { OnErr result (out.new.items ≡ out.old.items) }
{
    match entry {
        Entry::Take {
            worker,
            node,
            cuts,
            bound,
        } => write_take(*worker, *node, *cuts, *bound, out),
        Entry::Branch {
            worker,
            node,
            trace,
            var,
        } => write_branch(*worker, *node, trace, *var, out),
        Entry::Prune {
            worker,
            node,
            trace,
            reason,
        } => write_prune(*worker, *node, trace, reason, out),
        Entry::Offer {
            worker,
            node,
            trace,
        } => write_offer(*worker, *node, trace, out),
        Entry::Study { worker, node } => {
            write_line(b"study", &[small(*worker), small(*node)], out)
        }
        Entry::Publish { worker, node, cut } => write_cut(*worker, *node, cut, out),
        Entry::Accept { worker, node, cost } => {
            let parts = [small(*worker), small(*node), Part::Number(*cost)];
            write_line(b"accept", &parts, out)
        }
        Entry::Park { worker, node } => write_line(b"park", &[small(*worker), small(*node)], out),
        Entry::Reopen { limit } => write_line(b"reopen", &[small(*limit)], out),
    }
}

/// Appends the closing line: the answer, and the numbers of branchings and of cuts. Where memory is
/// wanting, nothing is appended. A cost of 2^63 or more is written too, though `read_line` refuses
/// it.
pub fn closing(answer: &Answer, branchings: u32, cuts: u32, out: &mut Vec<u8>) -> Result<(), Memory>
    ensures ok { OnOk result (out.new.items ≡ out.old.items
        ++ ended (closing_text answer.now branchings cuts)) }
    ensures err { OnErr result (out.new.items ≡ out.old.items) }
{
    let (word, cost) = match answer {
        Answer::Optimal { cost } => (b"optimal".as_slice(), Part::Number(*cost)),
        Answer::Infeasible => (b"infeasible".as_slice(), Part::Word(b"none")),
        Answer::NodeLimit { incumbent } => (b"nodelimit".as_slice(), Part::Optional(*incumbent)),
    };
    let parts = [Part::Word(word), cost, small(branchings), small(cuts)];
    write_line(b"answer", &parts, out)
}
