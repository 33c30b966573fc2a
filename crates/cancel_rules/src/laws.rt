//! How the table follows a journal. The functions do nothing. Each one is a law, for a program that
//! keeps a table of a journal.
ghost use Rattle.std.specs.Prelude.{◌≡◌, ◌<◌, ℕ, ℤ, List, ◌∷◌, Some, None, true, false, ◌&&◌, not, option_map, length, filter};
ghost use Rattle.exec_journal.specs.declared.attempt.Attempt.{Attempt};
ghost use Rattle.exec_journal.specs.declared.call.Answer.{Answer};
ghost use Rattle.exec_journal.specs.declared.call.Call.TheVariants as call;
ghost use Rattle.exec_journal.specs.declared.call.Found.{Found};
ghost use Rattle.exec_journal.specs.declared.call.HowEnded.{HowEnded};
ghost use Rattle.exec_journal.specs.declared.call.Written.{Written};
ghost use Rattle.exec_journal.specs.Entry.{Entry};
ghost use Rattle.run_plan.specs.declared.plan.Branch.{Branch};
ghost use Rattle.run_plan.specs.declared.plan.Plan.{Plan};
ghost use Rattle.exec_journal.specs.declared.reply.Reply.{Reply};
ghost use Rattle.exec_journal.specs.declared.reply.Reply.TheVariants as reply;
ghost use Rattle.exec_journal.specs.Entries.{Request, attempt_of, consumed_in, granted_in, is_unwritten};
ghost use Rattle.exec_journal.specs.Rules.{oldest, is_unwanted};
ghost use Rattle.exec_journal.specs.Words.{pending, has_cancel, wrote, order_of};
ghost use Rattle.request_table.specs.Entries.{IsNewRequest, IsKnownBy, NoneIsPending, is_still, is_calm};
ghost use Rattle.request_table.specs.Rows.{line_room};
ghost use Rattle.cancel_rules.specs.Entries.{WantedByGrant};
ghost use Rattle.cancel_rules.specs.Marks.{Facts, rows_of, with_sent, with_gone, with_ended, with_asked, with_unwanted, cancel_of};
ghost use Rattle.cancel_rules.specs.Stands.{Stands};

/// After a Send, `sent` is called.
pub fn sends_are_kept()
    ensures { (p : Plan) (f : Facts) (j : List Entry) (lane l : ℕ) (n : ℤ) (a : ℕ) (b : Branch)
        (t : ℕ) → Stands p f j → IsNewRequest j l (attempt_of a b t)
        → Stands p (with_sent f l n a)
        (record { lane = lane; call = call.Ask; reply = reply.Send l n a b t } ∷ j) }
{}

/// After a consumed Answer, whether its reply is Matched or Late, `gone` is called.
pub fn answers_are_kept()
    ensures { (p : Plan) (f : Facts) (j : List Entry) (lane l : ℕ) (x : Answer) (r : Reply)
        (s : Attempt) → Stands p f j → consumed_in r ≡ Some s → IsKnownBy j l x.number s
        → Stands p (with_gone f l x.number)
        (record { lane = lane; call = call.Answer l x; reply = r } ∷ j) }
{}

/// After a Wrote which reports that a pending request wasn't written, `gone` is called.
pub fn faults_are_kept()
    ensures { (p : Plan) (f : Facts) (j : List Entry) (lane l : ℕ) (n : ℤ) (how : Written)
        (q : Request) → Stands p f j → order_of j lane ≡ Some q → is_unwritten how ≡ true
        → wrote j q.attempt ≡ None → IsKnownBy j l n q.attempt
        → Stands p (with_gone f l n)
        (record { lane = lane; call = call.Wrote l n how; reply = reply.Noted } ∷ j) }
{}

/// After any other Wrote, nothing is called. It may report that the request was written, or be
/// about a request that was answered or whose line has ended.
pub fn other_writes_change_nothing()
    ensures written { (p : Plan) (f : Facts) (j : List Entry) (lane l : ℕ) (n : ℤ)
        (how : Written) → Stands p f j → is_unwritten how ≡ false
        → Stands p f (record { lane = lane; call = call.Wrote l n how; reply = reply.Noted } ∷ j) }
    ensures past { (p : Plan) (f : Facts) (j : List Entry) (lane l : ℕ) (n : ℤ) (how : Written)
        → Stands p f j → NoneIsPending j (order_of j lane)
        → Stands p f (record { lane = lane; call = call.Wrote l n how; reply = reply.Noted } ∷ j) }
{}

/// After a Cancel, `asked` is called.
pub fn cancels_are_kept()
    ensures { (p : Plan) (f : Facts) (j : List Entry) (lane l : ℕ) (n : ℤ) → Stands p f j
        → Stands p (with_asked f l n)
        (record { lane = lane; call = call.Ask; reply = reply.Cancel l n } ∷ j) }
{}

/// After an Ended, `ended` is called, whether or not attempts end with it.
pub fn ends_are_kept()
    ensures { (p : Plan) (f : Facts) (j : List Entry) (lane l : ℕ) (how : HowEnded)
        → Stands p f j
        → Stands p (with_ended f l)
        (record { lane = lane; call = call.Ended l how; reply = reply.Noted } ∷ j) }
{}

/// After a granted Claim, `unwanted` is called.
pub fn grants_are_kept()
    ensures { (p : Plan) (f : Facts) (j : List Entry) (lane a : ℕ) (b : Branch) (t : ℕ)
        (found : Found) → Stands p f j
        → Stands p (with_unwanted f a)
        (record { lane = lane; call = call.Claim a b t found; reply = reply.Granted } ∷ j) }
{}

/// After any other entry, including an Answer that isn't consumed, nothing is called.
pub fn others_change_nothing()
    ensures { (p : Plan) (f : Facts) (j : List Entry) (e : Entry) → Stands p f j
        → is_still e.reply ≡ true → is_calm e.call ≡ true → granted_in e.call e.reply ≡ None
        → Stands p f (e ∷ j) }
{}

/// The request that `cancel_order` names is the rules', and as many places are taken as requests
/// are pending.
pub fn orders_are_the_journals()
    ensures order { (p : Plan) (f : Facts) (j : List Entry) (l : ℕ) → Stands p f j
        → l < line_room p → WantedByGrant p j l
        → cancel_of f l ≡ option_map (λ r. r.number) (oldest (filter
        (λ r. is_unwanted p j r && not (has_cancel j r)) (pending j l))) }
    ensures places { (p : Plan) (f : Facts) (j : List Entry) (l : ℕ) → Stands p f j
        → l < line_room p → length (rows_of f l) ≡ length (pending j l) }
{}
