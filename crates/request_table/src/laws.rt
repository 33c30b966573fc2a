//! How the table follows a journal. The functions do nothing. Each one is a law, for a program that
//! keeps a table of a journal.
ghost use Rattle.std.specs.Prelude.{Option, ◌≡◌, ◌+◌, ◌<◌, ◌≤◌, ◌/◌, ℕ, ℤ, List, ◌∷◌, Some, None, true, false, filter, length, map, pos, reverse};
ghost use Rattle.std.specs.List.{find};
ghost use Rattle.std.specs.Ordering.{int_eq};
ghost use Rattle.exec_journal.specs.declared.attempt.Attempt.{Attempt};
ghost use Rattle.exec_journal.specs.declared.call.Answer.{Answer};
ghost use Rattle.exec_journal.specs.declared.call.Call.TheVariants as call;
ghost use Rattle.exec_journal.specs.declared.call.HowEnded.{HowEnded};
ghost use Rattle.exec_journal.specs.declared.call.Written.{Written};
ghost use Rattle.exec_journal.specs.Entry.{Entry};
ghost use Rattle.run_plan.specs.declared.plan.Branch.{Branch};
ghost use Rattle.run_plan.specs.declared.plan.Plan.{Plan};
ghost use Rattle.exec_journal.specs.declared.reply.Reply.{Reply};
ghost use Rattle.exec_journal.specs.declared.reply.Reply.TheVariants as reply;
ghost use Rattle.exec_journal.specs.Entries.{Request, consumed_in, is_unwritten};
ghost use Rattle.exec_journal.specs.Rules.{head, number_of};
ghost use Rattle.exec_journal.specs.Seated.{kind_in};
ghost use Rattle.run_plan.specs.Groups.{capacity};
ghost use Rattle.exec_journal.specs.Words.{sends, pending, wrote, order_of};
ghost use Rattle.request_table.specs.Entries.{IsOfGroup, NumberedBy, IsNextSend, IsKnownBy, NoneIsPending, is_still, is_calm, finds_none};
ghost use Rattle.request_table.specs.Rows.{Facts, is_open, line_room, last_of, next_number, open_of, places_of, single_of, capacity_of, matching_of, with_send, with_answer, with_reopened, with_unwritten, with_cancelled, with_ended};
ghost use Rattle.request_table.specs.Stands.{Stands, Numbered, of_sent, of_pending, request_row};

/// After a Send, `send` is called.
pub fn sends_are_kept()
    ensures { (p : Plan) (f : Facts) (j : List Entry) (lane : ℕ) (g : Option ℕ) (l : ℕ)
        (n : ℤ) (a : ℕ) (b : Branch) (t : ℕ) → Stands p f j → l < line_room p
        → IsNextSend p j g l n a b t
        → Stands p (with_send f l a b t)
        (record { lane = lane; call = call.Ask; reply = reply.Send l n a b t } ∷ j) }
{}

/// After a consumed Answer, whether its reply is Matched or Late, `answer` is called.
pub fn answers_are_kept()
    ensures { (p : Plan) (f : Facts) (j : List Entry) (lane l : ℕ) (x : Answer) (r : Reply)
        (s : Attempt) → Stands p f j → consumed_in r ≡ Some s → IsKnownBy j l x.number s
        → Stands p (with_answer f l x.number)
        (record { lane = lane; call = call.Answer l x; reply = r } ∷ j) }
{}

/// After an Answer that found a pending request and yet is a Breach, `answer` and then `reopened`
/// are called.
pub fn breaches_are_taken_back()
    ensures { (p : Plan) (f : Facts) (j : List Entry) (lane l : ℕ) (x : Answer) (r : Reply)
        → Stands p f j → is_still r ≡ true
        → Stands p (with_reopened (with_answer f l x.number) l x.number)
        (record { lane = lane; call = call.Answer l x; reply = r } ∷ j) }
{}

/// After an Answer that finds no pending request, `answer` is called.
pub fn strays_change_nothing()
    ensures { (p : Plan) (f : Facts) (j : List Entry) (lane l : ℕ) (x : Answer) (r : Reply)
        → Stands p f j → is_still r ≡ true → finds_none (matching_of f l x.number) ≡ true
        → Stands p (with_answer f l x.number)
        (record { lane = lane; call = call.Answer l x; reply = r } ∷ j) }
{}

/// After a Wrote which reports that a pending request wasn't written, `unwritten` is called.
pub fn faults_are_kept()
    ensures { (p : Plan) (f : Facts) (j : List Entry) (lane l : ℕ) (n : ℤ) (how : Written)
        (q : Request) → Stands p f j → order_of j lane ≡ Some q → is_unwritten how ≡ true
        → wrote j q.attempt ≡ None → IsKnownBy j l n q.attempt
        → Stands p (with_unwritten f l n)
        (record { lane = lane; call = call.Wrote l n how; reply = reply.Noted } ∷ j) }
{}

/// After any other Wrote, nothing is called. It may report that the request was written, or be
/// about a request that was answered or whose line has ended.
pub fn other_writes_change_nothing()
    ensures written { (p : Plan) (f : Facts) (j : List Entry) (lane l : ℕ) (n : ℤ)
        (how : Written) → Stands p f j → is_unwritten how ≡ false
        → Stands p f (record { lane = lane; call = call.Wrote l n how; reply = reply.Noted } ∷ j) }
    ensures past { (p : Plan) (f : Facts) (j : List Entry) (lane l : ℕ) (n : ℤ) (how : Written)
        → Stands p f j → NoneIsPending j (order_of j lane)
        → Stands p f (record { lane = lane; call = call.Wrote l n how; reply = reply.Noted } ∷ j) }
{}

/// After a Cancel, `cancelled` is called.
pub fn cancels_are_kept()
    ensures { (p : Plan) (f : Facts) (j : List Entry) (lane l : ℕ) (n : ℤ) → Stands p f j
        → Stands p (with_cancelled f l n)
        (record { lane = lane; call = call.Ask; reply = reply.Cancel l n } ∷ j) }
{}

/// After an Ended, `ended` is called, whether or not attempts end with it.
pub fn ends_are_kept()
    ensures { (p : Plan) (f : Facts) (j : List Entry) (lane l : ℕ) (how : HowEnded)
        → Stands p f j
        → Stands p (with_ended f l)
        (record { lane = lane; call = call.Ended l how; reply = reply.Noted } ∷ j) }
{}

/// After any other entry, nothing is called.
pub fn others_change_nothing()
    ensures { (p : Plan) (f : Facts) (j : List Entry) (e : Entry) → Stands p f j
        → is_still e.reply ≡ true → is_calm e.call ≡ true → Stands p f (e ∷ j) }
{}

/// The number that `send` returns is the rules', and what `send` requires holds. The numbers so far
/// leave room for it, as many places are taken as requests are pending, and the line's capacity is
/// the rules'.
pub fn numbers_are_the_journals()
    ensures number { (p : Plan) (f : Facts) (j : List Entry) (g : Option ℕ) (l a : ℕ)
        (b : Branch) → Stands p f j → l < line_room p → IsOfGroup p g a b → NumberedBy p j g l
        → pos (next_number f l a b) ≡ number_of j (kind_in p g) l }
    ensures fewer { (p : Plan) (f : Facts) (j : List Entry) (l : ℕ) → Stands p f j
        → l < line_room p → length (sends j l) < line_room p → last_of f l < length f.lines }
    ensures places { (p : Plan) (f : Facts) (j : List Entry) (l : ℕ) → Stands p f j
        → l < line_room p → length (open_of f l) ≡ length (pending j l) }
    ensures capacity { (p : Plan) (f : Facts) (j : List Entry) (g : Option ℕ) (a : ℕ)
        (b : Branch) → Stands p f j → IsOfGroup p g a b
        → capacity_of (single_of f a b) ≡ capacity (kind_in p g) }
{}

/// The request that `answer` finds is the one that the rules find. On a Single line it is the
/// pending request, and on every other line the request with the answer's number.
pub fn answers_are_the_journals()
    ensures multi { (p : Plan) (f : Facts) (j : List Entry) (l : ℕ) (z : ℤ) → Stands p f j
        → l < line_room p → Numbered false (sends j l)
        → matching_of f l z ≡ of_sent j (find (λ r. int_eq r.number z) (sends j l)) }
    ensures single { (p : Plan) (f : Facts) (j : List Entry) (l : ℕ) → Stands p f j
        → l < line_room p → Numbered true (sends j l) → length (pending j l) ≤ 1
        → matching_of f l (pos 0) ≡ of_pending j l (head (pending j l)) }
{}

/// The pending requests among those that `places` returns are the line's pending requests, the
/// earliest first.
pub fn places_are_the_journals()
    ensures { (p : Plan) (f : Facts) (j : List Entry) (l : ℕ) → Stands p f j → l < line_room p
        → filter is_open (places_of f l) ≡ reverse (map (request_row j) (pending j l)) }
{}
