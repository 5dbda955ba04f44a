// Conditioning on the members that are undecided, one by one.
ghost use Rattle.std.specs.Prelude.{◌≡◌, ℕ, ◌<◌, ◌≤◌, ◌^◌, false, IsTrue};
ghost use Rattle.std.specs.Option.{option_map};
ghost use Rattle.arch_model.specs.Set as set;
ghost use Rattle.arch_model.specs.Set.{IsNext};
ghost use Rattle.fail_mass.specs.Inner.Networks.{IsNetwork, AreMembers, is_parted, enclosure_from};

use crate::mixing::{MILLION, both, settled};
use crate::network::Network;
use arch_model::limits::MEMBERS;
use arch_model::{MemberSet, VarId, fail};

// A set with one more member.
fn with(members: &MemberSet, v: VarId) -> MemberSet
    requires { v.0 < MEMBERS }
    ensures { result ≡ set.put members.now v.0 }
{
    let mut more = *members;
    more.put(v);
    more
}

// A set without one member.
fn but(members: &MemberSet, v: VarId) -> MemberSet
    requires { v.0 < MEMBERS }
    ensures rest { result ≡ set.minus members.now (set.put set.empty v.0) }
    ensures inside { (k : ℕ) → IsTrue (set.has result k) → IsTrue (set.has members.now k) }
{
    members.minus(&with(&MemberSet::new(), v))
}

// The least of some members from a number on.
fn next_of(members: &MemberSet, from: usize) -> Option<VarId>
    ensures { IsNext members.now from (option_map (λ v. v.0) result) }
{
    let v = members.next_from(from)?;
    Some(VarId(v as u32))
}

/// The enclosure over the failures of the undecided members from a number on, where those of
/// `failed` have failed, in units of 10^-18.
#[cycle(conditioning)]
pub(crate) fn where_failed(
    net: &Network,
    failed: &MemberSet,
    undecided: &MemberSet,
    from: usize,
) -> (u64, u64)
    requires network { IsNetwork net.now }
    requires in_range { AreMembers net.now undecided.now }
    ensures value { result ≡ enclosure_from net.now failed.now undecided.now from }
    ensures low { result.0 ≤ 10 ^ 18 }
    ensures high { result.1 ≤ 10 ^ 18 }
{
    match net.mattering(failed, undecided) {
        None => settled(true),
        Some(left) => split(net, failed, &left, from),
    }
}

// The same where the sink is still reached, as in a case in which a member works. Fewer members may
// fail then, so the sink may be safe: one search settles all cases that are left. A case in which a
// member fails needs no such search, since what has failed or may fail is together as before.
#[cycle(conditioning)]
fn where_reached(
    net: &Network,
    failed: &MemberSet,
    undecided: &MemberSet,
    from: usize,
) -> (u64, u64)
    requires network { IsNetwork net.now }
    requires in_range { AreMembers net.now undecided.now }
    requires reached { is_parted net.now failed.now ≡ false }
    ensures value { result ≡ enclosure_from net.now failed.now undecided.now from }
    ensures low { result.0 ≤ 10 ^ 18 }
    ensures high { result.1 ≤ 10 ^ 18 }
{
    if net.is_parted(&failed.union(undecided)) {
        split(net, failed, undecided, from)
    } else {
        settled(false)
    }
}

// The same by the two cases of the next undecided member. Where it works, nothing more has failed,
// so the others matter as before.
#[cycle(conditioning)]
fn split(net: &Network, failed: &MemberSet, undecided: &MemberSet, from: usize) -> (u64, u64)
    requires network { IsNetwork net.now }
    requires in_range { AreMembers net.now undecided.now }
    requires reached { is_parted net.now failed.now ≡ false }
    ensures value { result ≡ enclosure_from net.now failed.now undecided.now from }
    ensures low { result.0 ≤ 10 ^ 18 }
    ensures high { result.1 ≤ 10 ^ 18 }
{
    match next_of(undecided, from) {
        None => settled(false),
        Some(member) => {
            let rest = but(undecided, member);
            let after = member.0 as usize + 1;
            let failing = where_failed(net, &with(failed, member), &rest, after);
            let ppm = fail(net.lib, member);
            if ppm == MILLION {
                return failing;
            }
            let working = where_reached(net, failed, &rest, after);
            both(ppm, failing, working)
        }
    }
}
