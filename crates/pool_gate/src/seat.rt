// A seat at a gate.
ghost use Rattle.std.specs.Prelude.{◌≡◌, ◌≢◌, None};
ghost use Rattle.pool_gate.specs.Places.{lent};

use crate::held::Held;
use crate::view::SeatView;
use atomic_table::Seat;
use std::marker::Model;

/// A seat at a gate: who takes turns. It knows what the value is about and which count it has seen,
/// and has no value unless it is in a turn.
#[derive(Drop)]
pub struct GateSeat<V: Held> {
    pub(crate) number: u32,
    pub(crate) spare: u32,
    pub(crate) inner: Seat<Option<V>, SeatView<V::About>>,
}

impl<V: Held> Model for GateSeat<V> {
    ghost use Rattle.std.specs.Prelude.{◌≡◌, ◌≢◌, None};
    ghost use Rattle.pool_gate.specs.Places.{Place, lent};
    ghost use Rattle.pool_gate.specs.Views.{down_from};

    ghost Value = { Place V.About };

    ghost view = { λ s. record { gate = s.inner.table_id; view = s.inner.me.0 } };

    ghost invariant = { λ s. (s.inner.me.0.number ≡ s.number) × (s.inner.me.0.spare ≡ down_from s.spare)
        × (s.inner.me.1 ≡ lent s.inner.me.0.in_turn) × (s.inner.me.0.about ≢ None) };
}

impl<V: Held> GateSeat<V> {
    /// Its number: 0 for the seat that came with the gate.
    pub fn number(&self) -> u32
        ensures { result ≡ self.now.view.number }
    {
        self.number
    }

    pub(crate) fn into_inner(self) -> Seat<Option<V>, SeatView<V::About>>
        ensures { (result.table_id ≡ self.gate) × (result.me ≡ (self.view, lent self.view.in_turn))
            × (self.view.about ≢ None) }
    {
        let Self {
            number: _,
            spare: _,
            inner,
        } = self;
        inner
    }
}
