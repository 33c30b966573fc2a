// The core as its callers see it. It always stands for some journal.
ghost use Rattle.std.specs.Prelude.{◌≡◌, List, [], IfOk, false};
ghost use Rattle.run_plan.specs.Sound.{Sound};
ghost use Rattle.exec_journal.specs.Entry.{Entry};
ghost use Rattle.exec_journal.specs.declared.reply.Reply.TheVariants as reply;
ghost use Rattle.exec_journal.specs.Clean.{Clean};
ghost use Rattle.exec_journal.specs.Legal.{after};
ghost use Rattle.exec_journal.specs.Words.{halted};
ghost use Rattle.journal_laws.specs.Finished.{Finished};
ghost use Rattle.core_contract.specs.Ruled.{journal_of};
ghost use Rattle.discipline_laws.proofs.OfRules as laws;
ghost use Rattle.spawn_core.specs.Answers.{Replies, answer_by};
ghost use Rattle.spawn_core.specs.Histories.{basis_of};
ghost use Rattle.spawn_core.specs.Laws as own_laws;
ghost use Rattle.spawn_core.specs.News as news;
ghost use Rattle.spawn_core.specs.Orderly.{Complete, Orderly};
ghost use Rattle.spawn_core.specs.Outlook.{has_news, has_news_by};
ghost use Rattle.spawn_core.specs.Stands.{Stands, StandsIn};
ghost use Rattle.spawn_core.specs.Turns.{orders_of};

use crate::earliest::EarliestFirst;
use crate::lanes::lane_owes;
use crate::outlook::{is_awaited, may_question};
use crate::policy::Policy;
use crate::tables::{action_tables, lane_tables, line_tables};
use crate::turn::step;
use core_contract::Rules;
use core_state::State;
use core_tables::Files;
use exec_journal::{Call, Plan, Reply};
use plain_values::NoMemory;
use run_progress::Notes;
use std::alloc::Global;
use std::marker::Model;

/// The scheduling core of a run with this policy. A contract sees its contents. It always stands
/// for some journal.
#[derive(Drop)]
pub struct Core<P: Policy> {
    policy: P,
    state: State,
    files: Files,
    // The number of paid entries that are still to come.
    owed: u64,
}

impl<P: Policy> Model for Core<P> {
    ghost use Rattle.spawn_core.specs.Stands.{KeptBy, HasHistory};

    ghost Value = { KeptBy P };

    ghost view = { λ a. record {
      policy = a.policy;
      state = a.state;
      files = a.files;
      owed = a.owed;
    } };

    ghost invariant = { λ a. HasHistory P.discipline P.stands (record {
      policy = a.policy;
      state = a.state;
      files = a.files;
      owed = a.owed;
    }) };
}

impl Core<EarliestFirst> {
    /// Creates the core of a run on the plan's own berths, before any call. Makes the room for all
    /// that later calls need.
    ///
    /// # Errors
    ///
    /// Returns `NoMemory` if memory runs out.
    pub fn new(alloc: Global, plan: Plan) -> Result<Core<EarliestFirst>, NoMemory>
        requires { Sound plan }
        ensures { IfOk result (λ c. Stands plan c []) }
    {
        Core::with_policy(alloc, EarliestFirst, plan)
    }
}

impl<P: Policy> Core<P> {
    /// Creates the core of a run with this policy, before any call. Makes the room for all that
    /// later calls need.
    ///
    /// # Errors
    ///
    /// Returns `NoMemory` if memory runs out.
    pub fn with_policy(alloc: Global, policy: P, plan: Plan) -> Result<Core<P>, NoMemory>
        requires sound { Sound plan }
        requires begins { P.stands (P.basis policy plan) policy [] }
        ensures { IfOk result (λ c. StandsIn (P.discipline (P.basis policy plan))
            (P.stands (P.basis policy plan)) c []) }
    {
        let berths = policy.berths(&plan) as usize;
        let files = Files::new(alloc, &plan)?;
        let (pool, requests, cancels) = line_tables(alloc, &plan, berths)?;
        let (ready, race, attempts) = action_tables(alloc, &plan)?;
        let (lanes, last, greetings, matches) = lane_tables(alloc, berths)?;
        let state = State {
            plan,
            pool,
            requests,
            cancels,
            ready,
            race,
            attempts,
            lanes,
            last,
            greetings,
            matches,
            halted: false,
        };
        let owed = 2 * berths as u64;
        Ok(Core {
            policy,
            state,
            files,
            owed,
        })
    }

    /// Returns the reply to a lane's call: the discipline's reply, or Astray if the call isn't in
    /// its lane's script. Only a Look takes memory. If memory runs out, the reply to a Look may
    /// report this instead of a file.
    ///
    /// If a lane is told to stop and none has halted, the run is finished. If every worker also did
    /// its part, every action has success.
    pub fn step(&mut self, lane: u32, call: &Call) -> Reply
        ensures plan { self.new.state.plan ≡ self.old.state.plan }
        ensures basis { basis_of P.basis self.new ≡ basis_of P.basis self.old }
        ensures reply { (b : P.Basis) (j : List Entry)
            → StandsIn (P.discipline b) (P.stands b) self.old j
            → Replies (answer_by (P.discipline b) j lane call.now) result }
        ensures stands { (b : P.Basis) (j : List Entry)
            → StandsIn (P.discipline b) (P.stands b) self.old j
            → StandsIn (P.discipline b) (P.stands b) self.new (after j lane call.now result) }
        ensures orderly { (b : P.Basis) (j : List Entry)
            → StandsIn (P.discipline b) (P.stands b) self.new j
            → Orderly (P.discipline b) (P.kept b) j }
        ensures stop { (b : P.Basis) (j : List Entry)
            → StandsIn (P.discipline b) (P.stands b) self.old j → result ≡ reply.Stop
            → halted j ≡ false → Finished (P.discipline b).plan j }
        ensures complete { (b : P.Basis) (j : List Entry)
            → StandsIn (P.discipline b) (P.stands b) self.old j → result ≡ reply.Stop
            → halted j ≡ false → Clean j → Complete (P.discipline b).plan j }
    {
        let before = lane_owes(&self.state, lane);
        let reply = step(
            &mut self.policy,
            &mut self.state,
            &mut self.files,
            lane,
            call,
        );
        let after = lane_owes(&self.state, lane);
        self.owed = self.owed - before + after;
        reply
    }

    /// Records the run's progress in `notes` from now on. Replies don't depend on it.
    pub fn watch(&mut self, notes: Notes)
        ensures { self.new ≡ self.old }
    {
        self.state.ready.watch(notes);
    }
}

impl<P: Policy> Rules for Core<P> {
    type Plan = P::Basis;

    ghost plan = { basis_of P.basis };

    ghost blank = { P.blank };

    ghost discipline = { P.discipline };

    ghost kept = { P.kept };

    ghost stands = { λ m h. StandsIn (P.discipline (basis_of P.basis m))
        (P.stands (basis_of P.basis m)) m (journal_of h) };

    ghost news = { λ m lane. has_news_by m.state (P.seated m.policy m.state)
        (orders_of P.chosen P.ticked m.policy m.state lane)
        (P.discipline (basis_of P.basis m)).ticks lane };

    // Makes the core's own step, whose clauses are about journals.
    fn step(&mut self, lane: u32, call: &Call) -> Reply {
        Core::step(self, lane, call)
    }

    fn has_news(&self, lane: u32) -> bool
        ensures exact { result ≡ has_news_by self.now.state
            (P.seated self.now.policy self.now.state)
            (orders_of P.chosen P.ticked self.now.policy self.now.state lane)
            (P.discipline (basis_of P.basis self.now)).ticks lane }
        ensures news { (b : P.Basis) (j : List Entry)
            → StandsIn (P.discipline b) (P.stands b) self.now j
            → result ≡ has_news (P.discipline b) j lane }
    {
        may_question(&self.policy, &self.state, lane) && is_awaited(&self.policy, &self.state, lane)
    }

    fn owed(&self) -> u64 {
        self.owed
    }

    fn berths(&self) -> u32 {
        self.policy.berths(&self.state.plan)
    }

    // Returns the number of possible attempts: one line for each attempt of either branch of each
    // action.
    fn most_lines(&self) -> u32 {
        let actions = self.state.plan.actions.as_slice().len() as u32;
        2 * actions * self.state.plan.limit
    }

    ghost came = { λ m h s. own_laws.came_about (P.discipline (basis_of P.basis m))
        (P.stands (basis_of P.basis m)) m h s };

    ghost news_are = { λ m h lane s. news.news_are (P.discipline (basis_of P.basis m)) m.state h
        (P.seated m.policy m.state) (P.chosen m.policy m.state) (P.ticked m.policy m.state) lane
        s.both.tables s.both.legal (record {
          is = P.is_discipline (basis_of P.basis m);
          seats = λ w lt. P.seats_are (basis_of P.basis m) m.policy m.state (journal_of h) w
              (record { tables = s.both.tables; legal = s.both.legal }) s.both.own lt;
          choices = λ k may. P.choices_are (basis_of P.basis m) m.policy m.state (journal_of h) k
              (record { tables = s.both.tables; legal = s.both.legal }) s.both.own may;
          ticks = λ k yes. P.ticks_are (basis_of P.basis m) m.policy m.state (journal_of h) k
              (record { tables = s.both.tables; legal = s.both.legal }) s.both.own yes;
        }) };

    ghost keeps = { λ b. laws.keeps (P.discipline b) (P.is_discipline b) (P.few_berths b) };

    ghost kept_is = { P.kept_is };
}
