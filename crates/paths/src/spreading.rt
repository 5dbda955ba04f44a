// Spreading a set of components over rows of successors.
ghost use Rattle.std.specs.Prelude.{◌≡◌, ℕ, ◌<◌, ◌&&◌, ◌||◌, ◌↔◌, IsTrue, List};
ghost use Rattle.std.specs.List.{list_any};
ghost use Rattle.arch_model.specs.Set as set;
ghost use Rattle.arch_model.specs.Inner.Walks.{IsWalk};
ghost use Rattle.paths.specs.Links.{is_next};

use arch_model::CompSet;
use arch_model::limits::COMPONENTS;

// The components that are up and in the row of one of some others.
pub(crate) fn entered(rows: &[CompSet; COMPONENTS], up: &CompSet, from: &CompSet) -> CompSet
    ensures { (c : ℕ) → set.has result c
        ≡ (set.has up.now c && list_any (λ a. is_next rows.now a c) (set.members_below from.now COMPONENTS)) }
{
    let mut found = CompSet::new();
    for a in from.members() {
        found = found.union(&rows[a.0 as usize]);
    }
    found.intersection(up)
}

// All to which a walk over the rows leads, from those of `first` over those that are up. Each round
// looks at the rows of what the round before reached first.
pub(crate) fn closure(rows: &[CompSet; COMPONENTS], up: &CompSet, first: &CompSet) -> CompSet
    requires { (c : ℕ) → IsTrue (set.has up.now c) → c < COMPONENTS }
    ensures { (c : ℕ) → IsTrue (set.has result c)
        ↔ ((rest : List ℕ) × IsWalk (set.has first.now) (set.has up.now) (is_next rows.now) c rest) }
{
    let mut reached = up.intersection(first);
    let mut newest = reached;
    for _round in 0..COMPONENTS {
        let found = entered(rows, up, &newest);
        let wider = reached.union(&found);
        if wider == reached {
            return reached;
        }
        newest = found.minus(&reached);
        reached = wider;
    }
    reached
}
