//! The trait of a scheduling core.
ghost use Rattle.std.specs.Prelude.{◌≡◌, ℕ, Bool, List};
ghost use Rattle.plain_values.specs.declared.entry.Entry.{Entry};
ghost use Rattle.seat_desk.specs.History.{Owes};
ghost use Rattle.exec_journal.specs.Entry as journal;
ghost use Rattle.exec_journal.specs.declared.call.Call.{Call};
ghost use Rattle.exec_journal.specs.declared.reply.Reply.{Reply};
ghost use Rattle.run_plan.specs.Sound.{Sound};
ghost use Rattle.core_contract.specs.Discipline.{Discipline, line_room};
ghost use Rattle.core_contract.specs.Disciplines.{LegalBy};
ghost use Rattle.core_contract.specs.Keeps.{Keeps};
ghost use Rattle.core_contract.specs.Laws.{StepReplies, StepStands};
ghost use Rattle.core_contract.specs.News.{SaysNews};
ghost use Rattle.core_contract.specs.Ruled.{CameAbout, answer_after, owes_after};

use exec_journal::{Call, Reply};

/// A scheduling core: it answers the calls of the lanes. Its replies are those of its discipline, a
/// function of the history of the recorded calls.
///
/// Lane `2w` is the proxy lane of the berth `w`, and lane `2w + 1` its tap lane. A call that isn't in
/// its lane's script is answered `Astray`.
pub trait Rules: Sized + Drop {
    /// The basis of a core. It never changes, and no value of it is made at run time.
    type Plan;

    // The basis of this core.
    ghost plan: { Self → Self.Plan };

    // Some basis.
    ghost blank: { Self.Plan };

    // The discipline of a basis: its berths, the scripts of its lanes, and the reply to each call.
    ghost discipline: { Self.Plan → Discipline };

    // The properties of a journal's orders, in addition to those that hold for every discipline.
    ghost kept: { Self.Plan → List journal.Entry → Type 0 };

    // The core stands for this history, the oldest call first: these calls may have led to its
    // state.
    ghost stands: { Self → List (Entry Call Reply) → Type 0 };

    // True if a lane has news, as a function of the core's state.
    ghost news: { Self → ℕ → Bool };

    /// Answers the call of this lane. If the reply should be a file, it may be lack of memory
    /// instead.
    fn step(&mut self, lane: u32, call: &Call) -> Reply
        ensures plan { plan self.new ≡ plan self.old }
        ensures reply { StepReplies stands (answer_after (discipline (plan self.old))) self.old
            lane call.now result }
        ensures stands { StepStands stands self.old lane call.now result self.new };

    /// Returns true if the lane has news: it owes nothing, so it may ask, and it would get more
    /// than Idle.
    fn has_news(&self, lane: u32) -> bool
        ensures { result ≡ news self.now lane };

    /// Returns the number of paid entries that are still to come.
    fn owed(&self) -> u64
        ensures { Owes stands (owes_after (discipline (plan self.now))) self.now result };

    /// Returns the number of berths.
    fn berths(&self) -> u32
        ensures { result ≡ (discipline (plan self.now)).seats };

    /// Returns the most lines that may be ordered.
    fn most_lines(&self) -> u32
        ensures { result ≡ line_room (discipline (plan self.now)) };

    // A history for which a core stands is legal by its discipline.
    ghost came: { (m : Self) (h : List (Entry Call Reply))
        → stands m h → CameAbout (discipline (plan m)) h };

    // `news` is true exactly if the lane may ask and would get more than Idle.
    ghost news_are: { (m : Self) (h : List (Entry Call Reply)) (lane : ℕ)
        → stands m h → SaysNews (discipline (plan m)) h lane (news m lane) };

    // The discipline of each basis keeps all that lanes rely on.
    ghost keeps: { (b : Self.Plan) → Keeps (discipline b) };

    // The properties of the orders hold for each legal journal.
    ghost kept_is: { (b : Self.Plan) (j : List journal.Entry) → Sound (discipline b).plan
        → LegalBy (discipline b) j → kept b j };
}
