//! How the table follows a journal. The functions do nothing. Each one is a law, for a program that
//! keeps a table of a journal.
ghost use Rattle.std.specs.Prelude.{◌≡◌, ◌≢◌, ◌<◌, ℕ, List, ◌∷◌, Some, is_some, length};
ghost use Rattle.exec_journal.specs.declared.call.Call.TheVariants.{Claim, Committed};
ghost use Rattle.exec_journal.specs.declared.call.CommitEnd.{CommitEnd};
ghost use Rattle.exec_journal.specs.declared.call.Found.{Found};
ghost use Rattle.exec_journal.specs.Entry.{Entry};
ghost use Rattle.run_plan.specs.declared.plan.Branch.{Branch};
ghost use Rattle.run_plan.specs.declared.plan.Plan.{Plan};
ghost use Rattle.exec_journal.specs.declared.reply.Reply.{Reply};
ghost use Rattle.exec_journal.specs.declared.reply.Reply.TheVariants.{Granted};
ghost use Rattle.exec_journal.specs.Rules.{is_other};
ghost use Rattle.exec_journal.specs.Words.{grant_of};
ghost use Rattle.race_core.specs.declared.Won.{Won};
ghost use Rattle.race_core.specs.Entries.{IsOpen, WonBy, SameRace};
ghost use Rattle.race_core.specs.Rows.{winner_of, with_claim, with_commit};
ghost use Rattle.race_core.specs.Stands.{Stands, branch_in, is_done};

/// After a granted Claim, `claim` is called once.
pub fn grants_are_kept()
    ensures { (p : Plan) (rows : List Won) (j : List Entry) (lane a t : ℕ) (b : Branch)
        (found : Found) → Stands p rows j → IsOpen j a
        → Stands p (with_claim rows a b)
        (record { lane = lane; call = Claim a b t found; reply = Granted } ∷ j) }
{}

/// After a Committed of the winner, `committed` is called once.
pub fn commits_are_kept()
    ensures { (p : Plan) (rows : List Won) (j : List Entry) (lane a : ℕ) (b : Branch)
        (how : CommitEnd) (reply : Reply) → Stands p rows j → WonBy j a b
        → Stands p (with_commit rows a (is_done how))
        (record { lane = lane; call = Committed a b how; reply = reply } ∷ j) }
{}

/// After any other entry, nothing is called.
pub fn others_change_nothing()
    ensures { (p : Plan) (rows : List Won) (j k : List Entry) → Stands p rows j → SameRace j k
        → Stands p rows k }
{}

/// The table's winner is the journal's. So if the claiming branch isn't the winner, there is a
/// winner exactly if the other branch was granted.
pub fn winners_are_the_journals()
    ensures winner { (p : Plan) (rows : List Won) (j : List Entry) (a : ℕ) → Stands p rows j
        → a < length p.actions → winner_of rows a ≡ branch_in (grant_of j a) }
    ensures other { (p : Plan) (rows : List Won) (j : List Entry) (a : ℕ) (b : Branch)
        → Stands p rows j → a < length p.actions → winner_of rows a ≢ Some b
        → is_other b (grant_of j a) ≡ is_some (winner_of rows a) }
{}
