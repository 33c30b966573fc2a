//! The choices are the orders of the rules. The functions do nothing: each is a law.
ghost use Rattle.std.specs.Prelude.{◌≡◌, ◌/◌, ◌<◌, ℕ, List, Option, Some, true, option_map, unwrap_or};
ghost use Rattle.run_plan.specs.declared.plan.Plan.{Plan};
ghost use Rattle.run_plan.specs.Groups.{berths};
ghost use Rattle.list_lemmas.specs.Options.{or_else};
ghost use Rattle.exec_journal.specs.declared.attempt.Attempt.{Attempt};
ghost use Rattle.exec_journal.specs.declared.call.Call.TheVariants.{Ask};
ghost use Rattle.exec_journal.specs.declared.reply.Reply.{Reply};
ghost use Rattle.exec_journal.specs.declared.reply.Reply.TheVariants as reply;
ghost use Rattle.exec_journal.specs.Entry.{Entry};
ghost use Rattle.exec_journal.specs.Lawful.{IsNextOf, in_script};
ghost use Rattle.exec_journal.specs.Legal.{Legal};
ghost use Rattle.exec_journal.specs.Rules.{ask_of, rule};
ghost use Rattle.exec_journal.specs.Scripts.{script};
ghost use Rattle.exec_journal.specs.Words.{last_line};
ghost use Rattle.core_tables.specs.declared.berth_group.BerthGroup.{BerthGroup};
ghost use Rattle.core_state.specs.declared.state.State.{State};
ghost use Rattle.core_state.specs.Machine.{carried_reply};
ghost use Rattle.core_laws.specs.Stands.{SeatFits, Stands};
ghost use Rattle.earliest_first.specs.Choices.{chosen, first_choice};

/// The choice for an Ask gives the rules' reply, if the tables stand for a legal journal on the
/// plan's own berths.
pub fn choices_are_the_rules()
    ensures { (p : Plan) (s : State) (j : List Entry) (lane : ℕ) → Stands p (berths p) s j
        → Legal p j → script p j lane Ask ≡ true
        → carried_reply s (lane / 2) (chosen s (lane / 2)) ≡ rule p j lane Ask }
{}

/// The first rules' choice, or `more` if they choose nothing, gives what the rules order. This
/// holds on any berth whose last line the seat describes, regardless of a policy's launches.
pub fn first_choices_are_the_rules()
    ensures { (p : Plan) (seats : ℕ) (s : State) (j : List Entry) (lane : ℕ) (seat : BerthGroup)
        (next : Option Attempt) (more : Option Reply) → Stands p seats s j
        → in_script p j lane Ask ≡ true → lane / 2 < seats → SeatFits p j (lane / 2) seat
        → ((t : Attempt) → next ≡ Some t → IsNextOf p j seat.group t)
        → unwrap_or (or_else (option_map (carried_reply s (lane / 2))
        (first_choice s (lane / 2) seat next)) more) reply.Idle
        ≡ ask_of p j (lane / 2) seat.kind seat.group (last_line j (lane / 2)) next more }
{}
