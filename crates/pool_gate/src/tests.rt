// Two seats on one thread, and then on two.
ghost use Rattle.std.specs.Prelude.{◌≡◌, ℕ, ◌+◌, ◌^◌, ◌<◌, ◌≤◌, [], ◌∷◌, false, Some};

use crate::{Busy, Gate, GateSeat, Held, Turn, open_gate};
use std::alloc::Global;
use std::sync::Wait;
use std::thread;
use std::thread::Threads;

// A count of what is about a topic.
#[derive(Drop)]
struct Tally {
    topic: u8,
    total: u64,
    ghost small: { total < 2 ^ 62 },
}

impl Held for Tally {
    type About = u8;

    ghost about = { λ t. t.topic };

    ghost count = { λ t. t.total };

    fn count(&self) -> u64 {
        self.total
    }
}

fn raised(tally: Tally) -> Tally
    requires { tally.total + 1 < 2 ^ 62 }
    ensures { (result.topic ≡ tally.topic) × (result.total ≡ tally.total + 1) }
{
    let Tally { topic, total } = tally;
    Tally {
        topic,
        total: total + 1,
    }
}

#[test]
fn two_seats_take_turns_on_one_thread(rt: HostRuntime) {
    let opening = Tally { topic: 7, total: 0 };
    let Ok((gate, mut first)) = open_gate(rt.alloc(), opening, 2) else {
        panic!(rt; "there is memory")
    };
    let second = gate.split(&mut first);
    assert!(rt; first.number() == 0 && second.number() == 1);
    let Turn { value, seat: first } = match gate.try_turn(first) {
        Ok(turn) => turn,
        Err(_) => panic!(rt; "nobody is in a turn"),
    };
    let Busy { word, seat: second } = match gate.try_turn(second) {
        Ok(turn) => {
            gate.give(turn);
            panic!(rt; "the first seat is in a turn")
        }
        Err(busy) => busy,
    };
    assert!(rt; word == 1 && value.total == 0);
    let value = raised(value);
    let mut first = gate.give(Turn { value, seat: first });
    let turn = match gate.try_turn(second) {
        Ok(turn) => turn,
        Err(_) => panic!(rt; "nobody is in a turn"),
    };
    assert!(rt; turn.value.total == 1);
    let second = gate.give(turn);
    gate.join(&mut first, second);
    let last = gate.close(first);
    assert!(rt; last.topic == 7 && last.total == 1);
}

fn may_cross<T: Send>(_: &T) {}

fn may_be_shared<T: Sync>(_: &T) {}

// What is behind a bound crosses where the value may.
fn crosses<V: Held + Send>(gate: &Gate<V>, seat: &GateSeat<V>) {
    may_cross(gate);
    may_be_shared(gate);
    may_cross(seat);
}

fn raise_once<R: Wait>(rt: &R, gate: &Gate<Tally>, seat: GateSeat<Tally>) -> GateSeat<Tally>
    requires { (seat.gate ≡ gate.now) × (seat.view.in_turn ≡ false) }
    ensures { (result.gate ≡ gate.now) × (result.view.in_turn ≡ false) × (result.view.number ≡ seat.view.number)
        × (result.view.away ≡ seat.view.away) × (result.view.about ≡ seat.view.about) }
{
    let Turn { value, seat } = gate.turn(rt, seat);
    if value.total < 1000 {
        gate.give(Turn {
            value: raised(value),
            seat,
        })
    } else {
        gate.give(Turn { value, seat })
    }
}

// A hundred turns, one after another, each of which raises the count.
fn raise_often<R: Wait>(rt: &R, gate: &Gate<Tally>, seat: GateSeat<Tally>) -> GateSeat<Tally>
    requires { (seat.gate ≡ gate.now) × (seat.view.in_turn ≡ false) }
    ensures { (result.gate ≡ gate.now) × (result.view.in_turn ≡ false) × (result.view.number ≡ seat.view.number)
        × (result.view.away ≡ seat.view.away) × (result.view.about ≡ seat.view.about) }
{
    let mut seat = seat;
    for _ in 0..100 {
        seat = raise_once(rt, gate, seat);
    }
    seat
}

fn two_threads<R: Threads + Wait + Sync>(rt: &R, alloc: Global) -> Option<u64> {
    let opening = Tally { topic: 7, total: 0 };
    let Ok((gate, mut first)) = open_gate(alloc, opening, 2) else {
        return None;
    };
    let second = gate.split(&mut first);
    let shared = &gate;
    let (mut first, second) = thread::join(
        rt,
        move || { raise_often(rt, shared, first) },
        move || { raise_often(rt, shared, second) },
    );
    gate.join(&mut first, second);
    let last = gate.close(first);
    Some(last.total)
}

#[test]
fn two_seats_take_turns_on_two_threads(rt: HostRuntime) {
    assert!(rt; two_threads(&rt, rt.alloc()) == Some(200));
}
