// The gate's rule, and what each step tells.
ghost use Rattle.pool_gate.specs.Views.{opened_view, parted, fresh, joined, spent};
ghost use Rattle.pool_gate.specs.Between.{Between};
ghost use Rattle.pool_gate.specs.Plays.{Tried, GaveBack};

use crate::held::Held;
use crate::view::SeatView;
use atomic_table::{Join, Play, Split, TableRule};
use std::snapshot::Snapshot;

/// The opening value, as clauses see it, and the number of seats.
#[derive(Drop)]
pub struct Opening<V> {
    /// The value.
    pub value: Snapshot<V>,
    /// How many seats there may be, 1 to 64.
    pub seats: u32,
}

pub struct GateRule;

impl<V: Held> TableRule<Option<V>, SeatView<V::About>, Opening<V>> for GateRule {
    ghost holds = { λ _. Between V.about V.count };

    ghost first = { λ key. opened_view (V.about key.value.value) (V.count key.value.value) key.seats };
}

pub(crate) struct Try;

impl<V: Held> Play<Option<V>, SeatView<V::About>> for Try {
    ghost then = { Tried V.about V.count };
}

pub(crate) struct GiveBack;

impl<V: Held> Play<Option<V>, SeatView<V::About>> for GiveBack {
    ghost then = { GaveBack };
}

pub(crate) struct Cut;

impl<A> Split<SeatView<A>> for Cut {
    ghost left = { parted };

    ghost right = { fresh };
}

pub(crate) struct Glue;

impl<A> Join<SeatView<A>> for Glue {
    ghost both = { joined };

    ghost spent = { spent };
}
