// The groups of a number.
ghost use Rattle.std.specs.Prelude.{◌≡◌, ◌-◌, IfOk};
ghost use Rattle.generate.specs.Generated.{group_of, groups_of};

use arch_model::Memory;
use rand_xoshiro::SplitMix64;
use rand_xoshiro::rand_core::SeedableRng;
use rand_xoshiro::rand_core::utils::NextWord;
use std::alloc::Global;

/// A source that may stand twice, a sink, a link between them, and a requirement.
#[derive(Clone, Copy, Debug, PartialEq, Eq)]
pub struct Group {
    /// Its number, from 0: its source is s and its sink l, each followed by this number.
    pub number: u32,
    /// What an instance of its source costs: 10 to 109 cost units.
    pub cost: u64,
    /// What its sink may weigh: 10^12 or 10^15, in units of 10^-18.
    pub bound: u64,
}

impl Group {
    // The group that a word makes.
    fn of_word(number: u32, word: u64) -> Group
        ensures { result ≡ group_of number word }
    {
        let needs_both = word / 100 % 2 == 1;
        Group {
            number,
            cost: 10 + word % 100,
            bound: if needs_both {
                1_000_000_000_000
            } else {
                1_000_000_000_000_000
            },
        }
    }
}

// The groups of a number, in order.
pub fn groups_of(alloc: Global, number: u64, size: u32) -> Result<Vec<Group>, Memory>
    ensures { IfOk result (λ groups. groups.items ≡ groups_of number size) }
{
    let mut words = SplitMix64::seed_from_u64(number);
    let mut groups = Vec::new(alloc);
    for i in 0..size {
        let word = words.next_word();
        groups.push(Group::of_word(i, word))?;
    }
    Ok(groups)
}
