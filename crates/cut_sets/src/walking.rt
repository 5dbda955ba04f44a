// One step of an enumeration.
ghost use Rattle.std.specs.Prelude.{◌≡◌, ℕ, ◌+◌, ◌<◌, IsTrue, List, [], ◌∷◌, ◌++◌, length};
ghost use Rattle.arch_model.specs.Set as set;
ghost use Rattle.arch_model.specs.declared.limits.TheConstants.{FAILING, MEMBERS};
ghost use Rattle.cut_sets.specs.Inner.Upcoming.{IsNetwork, IsPlace, candidates_from, sets_beyond};
ghost use Rattle.cut_sets.specs.Inner.Turns.{IsTurn};

use crate::members::Members;
use crate::network::Network;
use crate::place::Place;
use arch_model::VarId;
use arch_model::limits::MEMBERS;

// A set was found, the enumeration stands at another place, or it has come to its end.
pub(crate) enum Turn {
    Given(Members),
    Passed,
    Ended,
}

// Leaves the last of the chosen members out, and so all choices with those that are chosen.
fn leave(net: &Network, place: &mut Place) -> Turn
    requires place { IsPlace net.now place.old }
    requires none { sets_beyond net.now place.old.chosen place.old.at ≡ [] }
    ensures place { IsPlace net.now place.new }
    ensures turn { IsTurn net.now place.old place.new result }
{
    let _ = net;
    if place.back() {
        Turn::Passed
    } else {
        place.skip_to(MEMBERS);
        Turn::Ended
    }
}

// Tries member v, the least that is not decided: the chosen members with it part the sink, and are
// a set or none, or it is chosen too.
fn choose(net: &Network, place: &mut Place, v: VarId) -> Turn
    requires network { IsNetwork net.now }
    requires place { IsPlace net.now place.old }
    requires candidates { candidates_from net.now place.old.at ≡ v.0 ∷ candidates_from net.now (v.0 + 1) }
    requires small { v.0 < MEMBERS }
    ensures place { IsPlace net.now place.new }
    ensures turn { IsTurn net.now place.old place.new result }
{
    let mut chosen = place.set();
    chosen.put(v);
    if !net.cuts(&chosen) {
        place.choose(v);
        return Turn::Passed;
    }
    if net.is_minimal(&chosen) {
        let found = place.with(v);
        place.skip_to(v.0 as usize + 1);
        Turn::Given(found)
    } else {
        place.skip_to(v.0 as usize + 1);
        Turn::Passed
    }
}

// Goes on to the next place.
pub(crate) fn advance(net: &Network, place: &mut Place) -> Turn
    requires network { IsNetwork net.now }
    requires place { IsPlace net.now place.old }
    ensures place { IsPlace net.now place.new }
    ensures turn { IsTurn net.now place.old place.new result }
{
    match net.next_useful(place) {
        Some(v) => {
            place.skip_to(v.0 as usize);
            choose(net, place, v)
        }
        None => leave(net, place),
    }
}
