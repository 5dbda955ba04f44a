// A state in words: its live nodes, its cuts, its branchings and their limit, and its best.
use crate::State;
use crate::nodes::NodeState;
use arch_model::{Memory, VarId};
use rows::Cube;
use std::alloc::Global;

// Writes what a node is: for a held one by whom, with how many cuts and below what cost.
fn push_state(text: &mut String, state: &NodeState) -> Result<(), Memory> {
    match state {
        NodeState::Open(_) => text.push_str("open")?,
        NodeState::Held {
            worker,
            cuts,
            bound,
            ..
        } => {
            write!(text, "held by {worker} with {cuts} ")?;
            match bound {
                Some(cost) => write!(text, "{cost}")?,
                None => text.push_str("none")?,
            }
        }
        NodeState::Pending(_) => text.push_str("pending")?,
        NodeState::Studied { worker, .. } => write!(text, "studied by {worker}")?,
        NodeState::Parked(_) => text.push_str("parked")?,
    }
    Ok(())
}

// Writes which of the first three variables a cube fixes.
fn push_cube(text: &mut String, cube: &Cube) -> Result<(), Memory> {
    for v in 0..3 {
        if let Some(value) = cube.value(VarId(v)) {
            let bit: u8 = if value { 1 } else { 0 };
            write!(text, " {v}={bit}")?;
        }
    }
    Ok(())
}

// Writes the live nodes below 8.
fn push_nodes(text: &mut String, state: &State) -> Result<(), Memory> {
    for number in 0..8 {
        if let Some(node) = state.nodes.get(number) {
            write!(text, "{number} ")?;
            push_state(text, &node)?;
            push_cube(text, &node.cube())?;
            text.push_str(", ")?;
        }
    }
    Ok(())
}

// Writes the number of cuts, the number of branchings with its limit, and the best cost.
fn push_counts(text: &mut String, state: &State) -> Result<(), Memory> {
    let cuts = state.cuts().len();
    let branchings = state.branchings();
    let limit = state.limit();
    write!(text, "{cuts} cuts, {branchings} of {limit} branchings")?;
    if let Some(best) = state.best() {
        let cost = best.cost;
        write!(text, ", best {cost}")?;
    }
    Ok(())
}

// The state in words.
pub(crate) fn text_of(alloc: Global, state: &State) -> Result<String, Memory> {
    let mut text = String::new(alloc);
    push_nodes(&mut text, state)?;
    push_counts(&mut text, state)?;
    Ok(text)
}
