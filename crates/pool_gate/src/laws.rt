//! Laws of the gate's rule, each the contract of a function without a body.
ghost use Rattle.std.specs.Prelude.{◌≡◌, ◌≢◌, ℕ, ◌+◌, ◌*◌, ◌%◌, ◌≤◌, ◌⊎◌, [], ◌∷◌, false, true, Option, Some, None};
ghost use Rattle.std.specs.Prelude.{Contains, slice_index, bit_or};
ghost use mathlib.Core.Option as maybe;
ghost use Rattle.atomic_table.specs.Table.{State, Me, Allows, Splits, Joins, opening, step};
ghost use Rattle.pool_gate.specs.Views.{opened_view, parted, fresh, joined, spent};
ghost use Rattle.pool_gate.specs.Rule.{Sits, RuleHolds};
ghost use Rattle.pool_gate.specs.Between.{Between};
ghost use Rattle.pool_gate.specs.Plays.{Tried, GaveBack};

use crate::held::Held;
use crate::view::SeatView;

/// The rule in the form that steps keep, `Between`, gives the form that a reader has to believe,
/// `RuleHolds`. That `Between` is kept is what `every_step_keeps_the_rule` says, and `atomic_table`
/// makes a step only where it is.
pub fn the_rule_holds<V: Held>()
    ensures { (s : State (Option V) (SeatView V.About)) → Between V.about V.count s → RuleHolds V.about V.count s }
{}

/// A gate opens with the rule in the form `Between`, and each kind of step keeps that form, whatever
/// the other seats did before: a try for the turn, the return of a value, a split and a join.
pub fn every_step_keeps_the_rule<V: Held>()
    ensures opening { (value : V) (seats : ℕ) → Between V.about V.count
        (opening (2 * V.count value ∷ []) (Some value ∷ [])
        (opened_view (V.about value) (V.count value) seats)) }
    ensures tries { (slots id : ℕ) (me : Me (Option V) (SeatView V.About)) → me.0.in_turn ≡ false → me.1 ≡ []
        → me.0.about ≢ None → Allows (Between V.about V.count) slots id me 0 (λ n. bit_or n 1)
        (Tried V.about V.count (step slots 0 1 0 maybe.none) me) }
    ensures gives { (slots id : ℕ) (me : Me (Option V) (SeatView V.About)) (value : V) → me.0.in_turn ≡ true
        → me.1 ≡ (0, Some value) ∷ [] → me.0.about ≡ Some (V.about value)
        → (V.count value ≡ me.0.seen) ⊎ (V.count value ≡ me.0.seen + 1)
        → Allows (Between V.about V.count) slots id me 0 (λ _. 2 * V.count value)
        (GaveBack (step slots 0 (2 * V.count value) 0 maybe.none) me) }
    ensures splits { (id : ℕ) (v : SeatView V.About) → v.in_turn ≡ false → v.about ≢ None → v.spare ≢ []
        → Splits (Between V.about V.count) id v (parted v) (fresh v) }
    ensures joins { (id other : ℕ) (v w : SeatView V.About) → (v.in_turn ≡ false) × (w.in_turn ≡ false)
        → (v.about ≢ None) × (w.about ≢ None) → Contains v.away w.number
        → Joins (Between V.about V.count) id v other w (joined v w) spent }
{}

/// A turn changes the slot twice, by exchanges that are no steps of the table: the value is taken out
/// of the slot, and put back. Each needs the slot to be lent to its seat, and while a seat is in a
/// turn, the slot is lent and no other seat is in a turn. From that a reader concludes that both
/// exchanges leave the rule as it is: what stands in the slot meanwhile is in no fact of the rule,
/// and no other seat can see it.
pub fn the_slot_is_lent_in_a_turn<V: Held>()
    ensures lent { (s : State (Option V) (SeatView V.About)) (between : Between V.about V.count s) (i : ℕ)
        (v : SeatView V.About) → Sits between.topic s.views i v → v.in_turn ≡ true → s.homes ≡ maybe.none ∷ [] }
    ensures alone { (s : State (Option V) (SeatView V.About)) (between : Between V.about V.count s) (i j : ℕ)
        (v w : SeatView V.About) → Sits between.topic s.views i v → Sits between.topic s.views j w
        → v.in_turn ≡ true → w.in_turn ≡ true → i ≡ j }
{}

/// What the calls promise follows from the rule: a seat that finds the word even finds a value
/// about what it knows, no older than what it has seen, whose count the word is twice; and the
/// opened seat, out of a turn and with no number away, finds it even.
pub fn the_rule_gives_what_turns_promise<V: Held>()
    ensures value { (s : State (Option V) (SeatView V.About)) (rule : RuleHolds V.about V.count s) (i : ℕ)
        (v : SeatView V.About) → Sits rule.topic s.views i v → slice_index s.words 0 % 2 ≡ 0
        → (value : V) × (s.homes ≡ maybe.some (Some value) ∷ []) × (slice_index s.words 0 ≡ 2 * V.count value)
        × (v.seen ≤ V.count value) × (v.about ≡ Some (V.about value)) }
    ensures alone { (s : State (Option V) (SeatView V.About)) (rule : RuleHolds V.about V.count s) (i : ℕ)
        (v : SeatView V.About) → Sits rule.topic s.views i v → v.number ≡ 0 → v.away ≡ [] → v.in_turn ≡ false
        → slice_index s.words 0 % 2 ≡ 0 }
{}
