// Sets of numbers, as the lists of a line.
ghost use Rattle.std.specs.Prelude.{◌≡◌, ℕ, ◌<◌};
ghost use Rattle.arch_model.specs.Set as set;
ghost use Rattle.arch_model.specs.Set.{Set};

use arch_model::{CompId, CompSet, MemberSet, VarId};

/// A set that a line lists by its numbers.
pub trait NumberSet: Drop {
    /// What its numbers stay below.
    ghost room: { ℕ };

    /// The set of its numbers.
    ghost numbers: { Self → Set };

    /// The set without numbers.
    fn empty() -> Self
        ensures { numbers result ≡ set.empty };

    /// Puts a number in.
    fn put_number(&mut self, n: u32)
        requires { n < room }
        ensures { numbers self.new ≡ set.put (numbers self.old) n };
}

impl NumberSet for MemberSet {
    ghost use Rattle.arch_model.specs.declared.limits.TheConstants.{MEMBERS};

    ghost room = { MEMBERS };

    ghost numbers = { λ s. s };

    fn empty() -> Self {
        MemberSet::new()
    }

    fn put_number(&mut self, n: u32) {
        self.put(VarId(n));
    }
}

impl NumberSet for CompSet {
    ghost use Rattle.arch_model.specs.declared.limits.TheConstants.{COMPONENTS};

    ghost room = { COMPONENTS };

    ghost numbers = { λ s. s };

    fn empty() -> Self {
        CompSet::new()
    }

    fn put_number(&mut self, n: u32) {
        self.put(CompId(n));
    }
}
