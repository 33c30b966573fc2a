//! The policy, which decides what a core orders next.
ghost use Rattle.std.specs.Prelude.{◌≡◌, ◌<◌, ◌≤◌, ◌/◌, ℕ, List, Option, true};
ghost use Rattle.run_plan.specs.declared.plan.Plan.{Plan};
ghost use Rattle.run_plan.specs.Sound.{Sound};
ghost use Rattle.exec_journal.specs.declared.call.Call.TheVariants as call;
ghost use Rattle.exec_journal.specs.Entry.{Entry};
ghost use Rattle.exec_journal.specs.declared.reply.Reply.{Reply};
ghost use Rattle.exec_journal.specs.Legal.{after};
ghost use Rattle.core_tables.specs.declared.berth_group.BerthGroup.{BerthGroup};
ghost use Rattle.core_state.specs.declared.choice.Choice.{Choice};
ghost use Rattle.core_state.specs.declared.state.State.{State};
ghost use Rattle.core_state.specs.Machine.{carried_reply};
ghost use Rattle.core_contract.specs.Disciplines.{IsDiscipline, LegalBy, script_of};
ghost use Rattle.core_contract.specs.Discipline.{Discipline};
ghost use Rattle.spawn_core.specs.Policies.{SaysSeat, StandsBy};

use core_state::{Choice, State};
use core_tables::BerthGroup;
use exec_journal::{Call, Plan, Reply};

/// A scheduling policy. From a core's tables, it decides the group of each berth and the next order
/// for a lane that asks. Its choices are what its discipline orders, and so are its replies to
/// Ticks.
///
/// A policy may have its own tables, and learns of each call in a script with its reply. A law
/// about its behavior requires that its tables and the core's stand for a legal journal.
pub trait Policy: Sized + Drop {
    /// The data that a policy depends on. It never changes, and no value of it is made at run time.
    type Basis;

    // Some basis.
    ghost blank: { Self.Basis };

    // The basis of this policy, if the core's tables are of this plan of actions.
    ghost basis: { Self → Plan → Self.Basis };

    // Its discipline: its berths, the scripts of its lanes, and its reply to each call.
    ghost discipline: { Self.Basis → Discipline };

    // Its own tables stand for this journal, whose newest entry comes first.
    ghost stands: { Self.Basis → Self → List Entry → Type 0 };

    // The properties of a journal's orders, in addition to those that hold for every discipline.
    ghost kept: { Self.Basis → List Entry → Type 0 };

    // The parts of the core's tables that it reads are present.
    ghost reads: { Self → State → Type 0 };

    // Its answer about a berth, as a function of the tables.
    ghost seated: { Self → State → ℕ → Option BerthGroup };

    // Its choice for a berth, as a function of the tables.
    ghost chosen: { Self → State → ℕ → Choice };

    // Its reply to a Tick, as a function of the tables.
    ghost ticked: { Self → State → Reply };

    /// Returns the number of berths on this plan.
    fn berths(&self, plan: &Plan) -> u32
        requires { Sound plan.now }
        ensures { result ≡ (discipline (basis self.now plan.now)).seats };

    /// Returns the kind, the group and the cancellation of the line at the berth, or `None` if
    /// there is no such berth.
    fn seat(&self, state: &State, berth: u32) -> Option<BerthGroup>
        requires { reads self.now state.now }
        ensures { result ≡ seated self.now state.now berth };

    /// Returns the decision for the Ask of this berth's proxy lane.
    fn choose(&self, state: &State, berth: u32) -> Choice
        requires reads { reads self.now state.now }
        requires berth { berth < (discipline (basis self.now state.now.plan)).seats }
        ensures { result ≡ chosen self.now state.now berth };

    /// Returns true if the lane makes Ticks. Then it may make one whenever it may ask.
    fn ticks(&self, plan: &Plan, lane: u32) -> bool
        requires { Sound plan.now }
        ensures { result ≡ (discipline (basis self.now plan.now)).ticks lane };

    /// Returns the reply to a Tick of a lane that makes them: Noted, Idle or Stop.
    fn tick(&self, state: &State) -> Reply
        requires { reads self.now state.now }
        ensures { result ≡ ticked self.now state.now };

    /// Notes a call in its lane's script with its reply, once the core's tables have noted it. The
    /// policy's basis stays the same.
    fn note(&mut self, state: &State, lane: u32, call: &Call, reply: &Reply)
        ensures basis { (plan : Plan) → basis self.new plan ≡ basis self.old plan }
        ensures stands { (b : Self.Basis) (j : List Entry) → stands b self.old j
            → StandsBy (discipline b) state.now (after j lane call.now reply.now)
            → stands b self.new (after j lane call.now reply.now) };

    // Each order of the discipline has its reasons, and its other replies are those of every
    // discipline.
    ghost is_discipline: { (b : Self.Basis) → IsDiscipline (discipline b) };

    // A sound plan has at most 128 berths.
    ghost few_berths: { (b : Self.Basis) → Sound (discipline b).plan
        → (discipline b).seats ≤ 128 };

    // If a policy stands for a journal by a basis, that is its own basis.
    ghost basis_is: { (b : Self.Basis) (m : Self) (j : List Entry) → stands b m j
        → basis m (discipline b).plan ≡ b };

    // Its discipline has the plan of the core's tables.
    ghost plan_is: { (m : Self) (plan : Plan) → (discipline (basis m plan)).plan ≡ plan };

    // The parts that it reads are present if the tables stand for a legal journal.
    ghost reads_are: { (b : Self.Basis) (m : Self) (s : State) (j : List Entry)
        → StandsBy (discipline b) s j → stands b m j → reads m s };

    // Its answer about a berth is true.
    ghost seats_are: { (b : Self.Basis) (m : Self) (s : State) (j : List Entry) (w : ℕ)
        → StandsBy (discipline b) s j → stands b m j → w < (discipline b).seats
        → SaysSeat (discipline b) j w (seated m s w) };

    // Applying its choice gives the discipline's reply.
    ghost choices_are: { (b : Self.Basis) (m : Self) (s : State) (j : List Entry) (lane : ℕ)
        → StandsBy (discipline b) s j → stands b m j
        → script_of (discipline b) j lane call.Ask ≡ true
        → carried_reply s (lane / 2) (chosen m s (lane / 2))
        ≡ (discipline b).rule j lane call.Ask };

    // Its reply to a Tick of a lane that makes them is the discipline's reply.
    ghost ticks_are: { (b : Self.Basis) (m : Self) (s : State) (j : List Entry) (lane : ℕ)
        → StandsBy (discipline b) s j → stands b m j → (discipline b).ticks lane ≡ true
        → ticked m s ≡ (discipline b).rule j lane call.Tick };

    // The properties of its orders hold for each legal journal.
    ghost kept_is: { (b : Self.Basis) (j : List Entry) → Sound (discipline b).plan
        → LegalBy (discipline b) j → kept b j };
}
