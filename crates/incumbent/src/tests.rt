// What is kept of three offers.
ghost use Rattle.std.specs.Prelude.{◌<◌};
ghost use Rattle.arch_model.specs.declared.limits.TheConstants.{COMPONENTS};

use crate::{Best, offer};
use arch_model::{Architecture, CompId, CompSet, EdgeSet};
use std::test::Fail;

// The architecture of one component.
fn only(component: u32) -> Architecture
    requires { component < COMPONENTS }
{
    let mut comps = CompSet::new();
    comps.put(CompId(component));
    Architecture::new(comps, EdgeSet::new())
}

// The cost of a best, and whether component 1 is its own.
fn shown(best: &Option<Best>) -> Option<(u64, bool)> {
    match best {
        Some(best) => Some((best.cost, best.architecture.comps().has(CompId(1)))),
        None => None,
    }
}

// A first offer is taken, a cheaper one takes its place, and an equal one doesn't.
#[test]
fn the_earlier_of_the_cheapest_is_kept(rt: HostRuntime) -> Result<(), Fail> {
    let mut best = None;
    assert_eq!(rt; shown(&best), None);
    assert!(rt; offer(&mut best, 5, only(0)));
    assert_eq!(rt; shown(&best), Some((5, false)));
    assert!(rt; offer(&mut best, 3, only(1)));
    assert_eq!(rt; shown(&best), Some((3, true)));
    assert!(rt; !offer(&mut best, 3, only(0)));
    assert_eq!(rt; shown(&best), Some((3, true)));
    Ok(())
}
