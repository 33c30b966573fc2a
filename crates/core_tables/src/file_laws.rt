//! How the table follows a journal. The functions do nothing. Each one is a law, for a program that
//! keeps a table of a journal.
ghost use Rattle.std.specs.Prelude.{◌≡◌, ℕ, List, [], ◌∷◌, Some, None};
ghost use Rattle.run_plan.specs.declared.plan.Plan.{Plan};
ghost use Rattle.exec_journal.specs.declared.attempt.Attempt.{Attempt};
ghost use Rattle.exec_journal.specs.declared.call.Call.{Call};
ghost use Rattle.exec_journal.specs.declared.call.Found.{Found};
ghost use Rattle.exec_journal.specs.Entry.{Entry};
ghost use Rattle.exec_journal.specs.declared.reply.Reply.{Reply};
ghost use Rattle.exec_journal.specs.Entries.{granted_in};
ghost use Rattle.exec_journal.specs.Words.{grant_of};
ghost use Rattle.core_tables.specs.Slots.{Facts, Follows, IsNewFiles};
ghost use Rattle.core_tables.specs.Stands.{Stands};

/// A new table stands for the empty journal.
pub fn new_tables_stand()
    ensures { (p : Plan) (f : Facts) → IsNewFiles p.actions f → Stands p f [] }
{}

/// After an entry, `keep` is called, if an action is granted only once.
pub fn entries_are_kept()
    ensures { (p : Plan) (f g : Facts) (j : List Entry) (lane : ℕ) (c : Call) (r : Reply)
        → Stands p f j → ((x : Attempt × Found) → granted_in c r ≡ Some x
        → grant_of j x.0.action ≡ None) → Follows p c r f g
        → Stands p g (record { lane = lane; call = c; reply = r } ∷ j) }
{}
