// The cheapest architecture that was offered so far.
ghost use Rattle.std.specs.Prelude.{◌≡◌, ◌↔◌, IsTrue};
ghost use Rattle.incumbent.specs.Best.{IsCheaper, best_after};

use arch_model::Architecture;

/// An architecture and its cost, in cost units.
#[derive(Clone, Copy)]
pub struct Best {
    /// The cost, in cost units.
    pub cost: u64,
    /// The architecture.
    pub architecture: Architecture,
}

/// Takes what is offered as the best where there is none yet or where it costs less, and answers
/// whether it did.
pub fn offer(best: &mut Option<Best>, cost: u64, architecture: Architecture) -> bool
    ensures taken { IsTrue result ↔ IsCheaper cost best.old }
    ensures best { best.new ≡ best_after best.old cost architecture }
{
    let cheaper = match best {
        None => true,
        Some(found) => cost < found.cost,
    };
    if cheaper {
        *best = Some(Best { cost, architecture });
    }
    cheaper
}
