// The gate and its calls.
ghost use Rattle.std.specs.Prelude.{◌≡◌, ◌≢◌, ℕ, ◌+◌, ◌*◌, ◌%◌, ◌<◌, ◌≤◌, ◌⊎◌, List, [], ◌∷◌, ◌++◌, true, false};
ghost use Rattle.std.specs.Prelude.{All, Contains, IfOk, IfErr, IsOk, Option, Some};
ghost use Rattle.pool_gate.specs.Places.{Place};
ghost use Rattle.pool_gate.specs.Views.{opened_view, tried, begun, given, parted, fresh, joined};

use crate::held::Held;
use crate::plays::{Cut, GateRule, GiveBack, Glue, Opening, Try};
use crate::seat::GateSeat;
use crate::view::SeatView;
use atomic_table::{Refused, Table};
use std::alloc::Global;
use std::marker::Model;
use std::snapshot::Snapshot;
use std::sync::Wait;

/// One value that seats take turns at. A clause sees which gate it is, so that a call can ask for
/// seats of this gate.
#[derive(Drop)]
pub struct Gate<V: Held> {
    table: Table<Option<V>, SeatView<V::About>, Opening<V>, GateRule, Global>,
}

impl<V: Held> Model for Gate<V> {
    ghost use Rattle.std.specs.Prelude.{◌≡◌};
    ghost use Rattle.atomic_table.specs.Seated.{TableId, table_id_coded};

    ghost Value = { TableId };

    ghost coded = { table_id_coded };

    ghost view = { λ g. g.table.shared.table_id };

    ghost invariant = { λ g. (g.table.shared.table_id.words ≡ 1) × (g.table.shared.table_id.slots ≡ 1) };
}

/// A turn: it owns the value and the seat until both are given back. It can't be dropped:
/// `Gate::give` ends it.
pub struct Turn<V: Held> {
    /// The value, which may be changed, but only to one about the same and of the same count or one
    /// more.
    pub value: V,
    /// The seat whose turn it is.
    pub seat: GateSeat<V>,
}

/// Another seat was in a turn.
#[derive(Drop)]
pub struct Busy<V: Held> {
    /// The word that showed it: an odd one, twice the value's count and one more.
    pub word: u64,
    /// The seat, which has found that word.
    pub seat: GateSeat<V>,
}

/// There was no memory for a gate.
#[derive(Drop)]
pub struct Unopened<V: Held> {
    /// The value that it was to be for.
    pub value: V,
}

/// How many seats a gate may have.
pub const SEATS: u32 = 64;

/// A gate for a value, and its first seat, with number 0 and the numbers from 1 up to the number of
/// seats to give out. The only error is want of memory, and hands the value back.
pub fn open_gate<V: Held>(
    alloc: Global,
    value: V,
    seats: u32,
) -> Result<(Gate<V>, GateSeat<V>), Unopened<V>>
    requires { (1 ≤ seats) × (seats ≤ SEATS) }
    ensures gate { IfOk result (λ g. g.1.gate ≡ g.0) }
    ensures seat { IfOk result (λ g. g.1.view ≡ opened_view (V.about value) (V.count value) seats) }
    ensures unopened { IfErr result (λ u. u.value ≡ value) }
{
    let half = value.count();
    let about = Opening {
        value: Snapshot::of(&value),
        seats,
    };
    let mut slots = match Vec::with_capacity(alloc, 1) {
        Ok(slots) => slots,
        Err(_) => return Err(Unopened { value }),
    };
    if let Err(failed) = slots.push(Some(value)) {
        let Some(value) = failed.value else {
            unreachable!()
        };
        return Err(Unopened { value });
    }
    match Table::new(alloc, &[2 * half], slots, &about) {
        Ok((table, inner)) => {
            let seat = GateSeat {
                number: 0,
                spare: seats - 1,
                inner,
            };
            Ok((Gate { table }, seat))
        }
        Err(Refused { slots: mut back }) => {
            let Some(Some(value)) = back.pop() else {
                unreachable!()
            };
            Err(Unopened { value })
        }
    }
}

impl<V: Held> Gate<V> {
    /// Tries to take a turn, by one step: a fetch_or of the word with 1, and the seat's `found`
    /// grows by the word that it found. A turn comes exactly where that word is even, and is then
    /// twice the value's count. Busy comes exactly where it is odd, so while no number of seat 0 is
    /// away, never to seat 0.
    pub fn try_turn(&self, seat: GateSeat<V>) -> Result<Turn<V>, Busy<V>>
        requires gate { seat.gate ≡ self.now }
        requires free { seat.view.in_turn ≡ false }
        ensures turn { IfOk result (λ t. (t.seat.gate ≡ self.now) × (t.seat.view ≡ begun seat.view (V.count t.value))) }
        ensures newer { IfOk result (λ t. seat.view.seen ≤ V.count t.value) }
        ensures about { IfOk result (λ t. seat.view.about ≡ Some (V.about t.value)) }
        ensures busy { IfErr result (λ b. (b.seat.gate ≡ self.now) × (b.seat.view ≡ tried seat.view b.word)) }
        ensures odd { IfErr result (λ b. b.word % 2 ≡ 1) }
        ensures alone { seat.view.number ≡ 0 → seat.view.away ≡ [] → IsOk result }
    {
        let mut seat = seat;
        let word = self.table.shared.fetch_or::<Try>(&mut seat.inner, 0, 1);
        if word % 2 == 1 {
            return Err(Busy { word, seat });
        }
        let held = self.table.shared.exchange(&mut seat.inner, 0, None);
        let Some(value) = held else { unreachable!() };
        Ok(Turn { value, seat })
    }

    /// Ends a turn: the value goes back, and the seat comes back and has seen its count.
    pub fn give(&self, turn: Turn<V>) -> GateSeat<V>
        requires gate { turn.seat.gate ≡ self.now }
        requires in_turn { turn.seat.view.in_turn ≡ true }
        requires about { turn.seat.view.about ≡ Some (V.about turn.value) }
        requires count { (V.count turn.value ≡ turn.seat.view.seen) ⊎ (V.count turn.value ≡ turn.seat.view.seen + 1) }
        ensures gate { result.gate ≡ self.now }
        ensures seat { result.view ≡ given turn.seat.view (V.count turn.value) }
    {
        let Turn { value, mut seat } = turn;
        let half = value.count();
        let held = self.table.shared.exchange(&mut seat.inner, 0, Some(value));
        let None = held else { unreachable!() };
        self.table
            .shared
            .swap::<GiveBack>(&mut seat.inner, 0, 2 * half);
        self.table.shared.wake_one(0);
        seat
    }

    /// A new seat, with the greatest spare number of the old one and what that has seen. The number
    /// is then away.
    pub fn split(&self, seat: &mut GateSeat<V>) -> GateSeat<V>
        requires gate { seat.old.gate ≡ self.now }
        requires free { seat.old.view.in_turn ≡ false }
        requires spare { seat.old.view.spare ≢ [] }
        ensures old { (seat.new.gate ≡ self.now) × (seat.new.view ≡ parted seat.old.view) }
        ensures new { (result.gate ≡ self.now) × (result.view ≡ fresh seat.old.view) }
        ensures spare { Contains seat.old.view.spare result.view.number }
        ensures greatest { All (λ n. n ≤ result.view.number) seat.old.view.spare }
    {
        let number = seat.spare;
        let inner = self.table.shared.split_seat::<Cut>(&mut seat.inner);
        seat.spare = number - 1;
        GateSeat {
            number,
            spare: 0,
            inner,
        }
    }

    /// Joins a seat back into the one that it was split off: that has then seen what both saw, and
    /// the number is no longer away.
    pub fn join(&self, into: &mut GateSeat<V>, from: GateSeat<V>)
        requires gate { (into.old.gate ≡ self.now) × (from.gate ≡ self.now) }
        requires free { (into.old.view.in_turn ≡ false) × (from.view.in_turn ≡ false) }
        requires away { Contains into.old.view.away from.view.number }
        ensures gate { into.new.gate ≡ self.now }
        ensures seat { into.new.view ≡ joined into.old.view from.view }
    {
        self.table
            .shared
            .join_seat::<Glue>(&mut into.inner, from.into_inner());
    }

    /// Closes the gate once every other seat was joined back into seat 0, and hands out the value.
    pub fn close(self, seat: GateSeat<V>) -> V
        requires gate { seat.gate ≡ self }
        requires first { seat.view.number ≡ 0 }
        requires alone { seat.view.away ≡ [] }
        requires free { seat.view.in_turn ≡ false }
        ensures about { seat.view.about ≡ Some (V.about result) }
        ensures newer { seat.view.seen ≤ V.count result }
    {
        let Gate { table } = self;
        let mut closed = table.close_with(seat.into_inner());
        let held = closed.take(0);
        closed.free();
        let Some(value) = held else { unreachable!() };
        value
    }

    /// Takes a turn: tries until a try finds an even word, and sleeps between tries. The seat's
    /// `found` grows by all that they found. It may wait for ever.
    pub fn turn<R: Wait>(&self, rt: &R, seat: GateSeat<V>) -> Turn<V>
        requires gate { seat.gate ≡ self.now }
        requires free { seat.view.in_turn ≡ false }
        ensures gate { result.seat.gate ≡ self.now }
        ensures turn { (odds : List ℕ) × All (λ n. n % 2 ≡ 1) odds
            × (result.seat.view ≡ begun (record seat.view { found = seat.view.found ++ odds }) (V.count result.value)) }
        ensures newer { seat.view.seen ≤ V.count result.value }
        ensures about { seat.view.about ≡ Some (V.about result.value) }
    {
        let mut seat = seat;
        for _ in rt.forever() {
            match self.try_turn(seat) {
                Ok(turn) => return turn,
                Err(Busy { word, seat: back }) => {
                    self.table.shared.park(rt, 0, (word % 0x1_0000_0000) as u32);
                    seat = back;
                }
            }
        }
        unreachable!()
    }
}
