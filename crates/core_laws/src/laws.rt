//! How the core's tables follow a journal. The functions do nothing: each is a law.
ghost use Rattle.std.specs.Prelude.{◌≡◌, ◌/◌, ℕ, List, ◌∷◌, Some, true, false};
ghost use Rattle.run_plan.specs.declared.plan.Kind.{Kind};
ghost use Rattle.run_plan.specs.declared.plan.Plan.{Plan};
ghost use Rattle.exec_journal.specs.declared.attempt.Attempt.{Attempt};
ghost use Rattle.exec_journal.specs.declared.call.Call.{Call};
ghost use Rattle.exec_journal.specs.declared.call.Call.TheVariants.{Ask};
ghost use Rattle.exec_journal.specs.Entries.{is_kept};
ghost use Rattle.exec_journal.specs.Entry.{Entry};
ghost use Rattle.exec_journal.specs.Lawful.{Asked, Told};
ghost use Rattle.exec_journal.specs.Scripts.{seat_script};
ghost use Rattle.retry_rules.specs.Stands as counts;
ghost use Rattle.ready_order.specs.Stands as queues;
ghost use Rattle.core_tables.specs.declared.berth_group.BerthGroup.{BerthGroup};
ghost use Rattle.core_tables.specs.Lanes.{allows_by};
ghost use Rattle.core_state.specs.declared.choice.Choice.{Choice};
ghost use Rattle.core_state.specs.declared.state.State.{State};
ghost use Rattle.core_state.specs.Machine.{CanCarry, carried, carried_reply};
ghost use Rattle.core_state.specs.Noted.{noted_after};
ghost use Rattle.core_state.specs.Steps.{CanMake, is_report, made, made_reply};
ghost use Rattle.core_laws.specs.Ends.{chain_counts, chain_states};
ghost use Rattle.core_laws.specs.Premises.{AllBegun, EndsTogether};
ghost use Rattle.core_laws.specs.Stands.{MayCall, SeatFits, Stands};

/// The lanes allow exactly the calls in their scripts, regardless of the kind of the lines at their
/// berths.
pub fn scripts_are_kept()
    ensures { (p : Plan) (seats : ℕ) (k : Kind) (s : State) (j : List Entry) (lane : ℕ) (c : Call)
        → Stands p seats s j → allows_by p k s.lanes lane c
        ≡ seat_script seats (λ _. k) p j lane c }
{}

/// After an entry with which several attempts end, the end of each is called, in any order. This
/// includes attempts that have ended before.
pub fn ends_come_together()
    ensures counts { (p : Plan) (seats : ℕ) (s : State) (j : List Entry) (e : Entry)
        (ts : List Attempt) → Stands p seats s j → AllBegun p j ts → EndsTogether j e ts
        → counts.Stands p (chain_counts s.race s.attempts ts) (e ∷ j) }
    ensures states { (p : Plan) (seats : ℕ) (s : State) (j : List Entry) (e : Entry)
        (ts : List Attempt) → Stands p seats s j → AllBegun p j ts → EndsTogether j e ts
        → queues.Stands p (chain_states p s.race s.attempts s.ready ts) (e ∷ j) }
{}

/// The state follows an Ask, for any choice. If the Ask's reply has its reasons and is recorded,
/// the state after the choice was applied stands for the journal with the Ask's entry.
pub fn asks_are_kept()
    ensures { (p : Plan) (seats : ℕ) (s : State) (j : List Entry) (lane : ℕ) (x : Choice)
        → Stands p seats s j → MayCall p seats j lane Ask
        → Asked p j (lane / 2) (carried_reply s (lane / 2) x)
        → is_kept (carried_reply s (lane / 2) x) ≡ true
        → Stands p seats (noted_after (carried s (lane / 2) x) lane Ask
        (carried_reply s (lane / 2) x))
        (record { lane = lane; call = Ask; reply = carried_reply s (lane / 2) x } ∷ j) }
{}

/// Each call but an Ask and a Look gets its own reply. If the reply is recorded, the state after
/// the call stands for the journal with its entry.
pub fn calls_are_kept()
    ensures told { (p : Plan) (seats : ℕ) (s : State) (j : List Entry) (lane : ℕ)
        (seat : BerthGroup)
        (c : Call) → Stands p seats s j → SeatFits p j (lane / 2) seat → is_report c ≡ true
        → MayCall p seats j lane c → Told p j lane c (made_reply s lane seat c) }
    ensures stands { (p : Plan) (seats : ℕ) (s : State) (j : List Entry) (lane : ℕ)
        (seat : BerthGroup)
        (c : Call) → Stands p seats s j → SeatFits p j (lane / 2) seat → is_report c ≡ true
        → MayCall p seats j lane c → is_kept (made_reply s lane seat c) ≡ true
        → Stands p seats (noted_after (made s lane seat c) lane c (made_reply s lane seat c))
        (record { lane = lane; call = c; reply = made_reply s lane seat c } ∷ j) }
{}

/// All requirements of a call in its lane's script on the tables hold. So do those of applying a
/// choice whose reply has its reasons.
pub fn calls_may_be_made()
    ensures calls { (p : Plan) (seats : ℕ) (s : State) (j : List Entry) (lane : ℕ)
        (seat : BerthGroup)
        (c : Call) → Stands p seats s j → MayCall p seats j lane c → CanMake s lane seat c }
    ensures asks { (p : Plan) (seats : ℕ) (s : State) (j : List Entry) (lane : ℕ) (x : Choice)
        → Stands p seats s j → MayCall p seats j lane Ask
        → Asked p j (lane / 2) (carried_reply s (lane / 2) x) → CanCarry s (lane / 2) x }
{}
