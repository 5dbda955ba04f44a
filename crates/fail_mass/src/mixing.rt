// The values of cases: where nothing more matters, and of a member's two cases.
ghost use Rattle.std.specs.Prelude.{◌≡◌, ℕ, ◌≤◌, ◌/◌, ◌^◌};
ghost use Rattle.arch_model.specs.Mass as mass;
ghost use Rattle.arch_model.specs.Weight.{ceil_div};
ghost use Rattle.fail_mass.specs.Inner.Cases.{end_value};

// What stands for 1.
const ONE: u64 = 1_000_000_000_000_000_000;

/// How many parts a rate is counted in.
pub(crate) const MILLION: u32 = 1_000_000;

/// Both values where nothing more matters: 1 where the sink is parted, else 0.
pub(crate) fn settled(parted: bool) -> (u64, u64)
    ensures low { result.0 ≡ end_value parted }
    ensures high { result.1 ≡ end_value parted }
    ensures low_small { result.0 ≤ 10 ^ 18 }
    ensures high_small { result.1 ≤ 10 ^ 18 }
{
    if parted { (ONE, ONE) } else { (0, 0) }
}

// p ppm of the value where a member failed and the rest of 10^6 of the other, before it is divided.
fn mixed(ppm: u32, failed: u64, working: u64) -> u128
    requires rate { ppm ≤ 10 ^ 6 }
    requires failed { failed ≤ 10 ^ 18 }
    requires working { working ≤ 10 ^ 18 }
    ensures value { result ≡ mass.mixed ppm failed working }
    ensures small { result ≤ 10 ^ 24 }
{
    ppm as u128 * failed as u128 + (MILLION - ppm) as u128 * working as u128
}

// The value of a member that fails at some ppm, of the values where it failed and where it works,
// rounded down.
fn mixed_down(ppm: u32, failed: u64, working: u64) -> u64
    requires rate { ppm ≤ 10 ^ 6 }
    requires failed { failed ≤ 10 ^ 18 }
    requires working { working ≤ 10 ^ 18 }
    ensures value { result ≡ mass.mixed ppm failed working / 10 ^ 6 }
    ensures small { result ≤ 10 ^ 18 }
{
    (mixed(ppm, failed, working) / MILLION as u128) as u64
}

// The same, rounded up.
fn mixed_up(ppm: u32, failed: u64, working: u64) -> u64
    requires rate { ppm ≤ 10 ^ 6 }
    requires failed { failed ≤ 10 ^ 18 }
    requires working { working ≤ 10 ^ 18 }
    ensures value { result ≡ ceil_div (mass.mixed ppm failed working) (10 ^ 6) }
    ensures small { result ≤ 10 ^ 18 }
{
    ((mixed(ppm, failed, working) + (MILLION as u128 - 1)) / MILLION as u128) as u64
}

/// Both values of a member that fails at some ppm, of those where it failed and where it works.
pub(crate) fn both(ppm: u32, failed: (u64, u64), working: (u64, u64)) -> (u64, u64)
    requires rate { ppm ≤ 10 ^ 6 }
    requires failed_low { failed.0 ≤ 10 ^ 18 }
    requires failed_high { failed.1 ≤ 10 ^ 18 }
    requires working_low { working.0 ≤ 10 ^ 18 }
    requires working_high { working.1 ≤ 10 ^ 18 }
    ensures low { result.0 ≡ mass.mixed ppm failed.0 working.0 / 10 ^ 6 }
    ensures high { result.1 ≡ ceil_div (mass.mixed ppm failed.1 working.1) (10 ^ 6) }
    ensures low_small { result.0 ≤ 10 ^ 18 }
    ensures high_small { result.1 ≤ 10 ^ 18 }
{
    (
        mixed_down(ppm, failed.0, working.0),
        mixed_up(ppm, failed.1, working.1),
    )
}
