//! The replies of the journal's rules after a history. The functions do nothing: each is a law.
ghost use Rattle.std.specs.Prelude.{◌≡◌, ◌≤◌, ◌<◌, ◌+◌, ◌/◌, ℕ, ℤ, true, false, List, [], ◌∷◌, ◌++◌, length, Some, None};
ghost use Rattle.plain_values.specs.declared.entry.Entry.{Entry};
ghost use Rattle.seat_desk.specs.History.{entry, calls_by};
ghost use Rattle.exec_journal.specs.declared.call.Call.{Call};
ghost use Rattle.exec_journal.specs.declared.call.Call.TheVariants as call;
ghost use Rattle.exec_journal.specs.declared.call.CommitEnd.{CommitEnd};
ghost use Rattle.exec_journal.specs.declared.call.Found.TheVariants as found;
ghost use Rattle.exec_journal.specs.declared.call.Started.TheVariants as start;
ghost use Rattle.exec_journal.specs.declared.call.Wanted.TheVariants as wanted;
ghost use Rattle.exec_journal.specs.declared.reply.Reply.{Reply};
ghost use Rattle.exec_journal.specs.declared.reply.Reply.TheVariants as reply;
ghost use Rattle.exec_journal.specs.Entries.{is_kept};
ghost use Rattle.exec_journal.specs.Entry as entries;
ghost use Rattle.exec_journal.specs.Kept.{Kept};
ghost use Rattle.run_plan.specs.declared.plan.Branch.{Branch};
ghost use Rattle.run_plan.specs.declared.plan.Plan.{Plan};
ghost use Rattle.run_plan.specs.Groups.{is_remote};
ghost use Rattle.run_plan.specs.Sound.{Sound};
ghost use Rattle.exec_journal.specs.declared.attempt.Attempt.{Attempt};
ghost use Rattle.core_contract.specs.Laws.{InScript, Fits, tap_lane, hearing_of, may_hear, Hears, Over, tells_of, OrderFits, OrderHolds, claimed, lines_in, is_taken, says_file};
ghost use Rattle.core_contract.specs.Shelf.{child_at, tap_at, place_at, Fresh, Away};
ghost use Rattle.core_contract.specs.Duties.{proxy_lane, duty_of, is_maker, may_do, may_make, Asks, Sends, Commits, Left};
ghost use Rattle.core_contract.specs.Discipline.{Discipline, makers_in};
ghost use Rattle.core_contract.specs.Ruled.{CameAbout, IsPaidAfter, answer_after, journal_of, owes_after};
ghost use Rattle.discipline_laws.specs.Owed.{DutyIs};
ghost use Rattle.core_contract.specs.Disciplines.{IsDiscipline, LegalBy};
ghost use Rattle.discipline_laws.specs.OwnOrders.{IsOrder, Order, discipline_by};

/// In the journal of any history, a lane has left exactly if it received Stop or has halted; otherwise it
/// owes what its newest work requires.
pub fn duties_are_newest_works()
    ensures { (h : List (Entry Call Reply)) (lane : ℕ)
        → DutyIs (duty_of (calls_by lane h)) (journal_of h) lane }
{}

/// A call in its lane's script gets a reply of its kind.
pub fn replies_fit()
    ensures { (q : Discipline) → IsDiscipline q
        → (h : List (Entry Call Reply)) (lane : ℕ) (c : Call)
        → Fits c (answer_after q h lane c) }
{}

/// A call in a script belongs to a lane of the plan, and entries of other lanes leave it there.
pub fn scripts_are_lanes()
    ensures known { (q : Discipline) → IsDiscipline q
        → (h : List (Entry Call Reply)) (lane : ℕ) (c : Call)
        → InScript (answer_after q) h lane c → lane / 2 < q.seats }
    ensures stays { (q : Discipline) → IsDiscipline q
        → (h more : List (Entry Call Reply)) (lane : ℕ) (c : Call)
        → calls_by lane more ≡ [] → InScript (answer_after q) h lane c
        → InScript (answer_after q) (h ++ more) lane c }
{}

/// A proxy lane's own entries alone determine its script. It contains the calls that the lane's
/// duty requires. Otherwise, it contains only a Halt if the lane owes a Committed, a Committed if
/// it has left, and a Tick if it makes Ticks and owes nothing. Its Halt is paid for until it has
/// received Stop or has halted. The Committed that it owes is paid for too.
pub fn proxies_do_their_duties()
    ensures does { (q : Discipline) → IsDiscipline q
        → (h : List (Entry Call Reply)) (w : ℕ) (c : Call) → w < q.seats
        → may_do (q) w (duty_of (calls_by (proxy_lane w) h)) c ≡ true
        → InScript (answer_after q) h (proxy_lane w) c }
    ensures does_only { (q : Discipline) → IsDiscipline q
        → (h : List (Entry Call Reply)) (w : ℕ) (c : Call)
        → InScript (answer_after q) h (proxy_lane w) c
        → may_make (q) w (duty_of (calls_by (proxy_lane w) h)) c ≡ true }
    ensures ticks { (q : Discipline) → IsDiscipline q
        → (h : List (Entry Call Reply)) (w : ℕ) → w < q.seats
        → q.ticks (proxy_lane w) ≡ true → duty_of (calls_by (proxy_lane w) h) ≡ Asks
        → InScript (answer_after q) h (proxy_lane w) call.Tick }
    ensures halts { (q : Discipline) → IsDiscipline q
        → (h : List (Entry Call Reply)) (w : ℕ) → w < q.seats
        → (duty_of (calls_by (proxy_lane w) h) ≡ Left → ⊥)
        → IsPaidAfter q h (proxy_lane w) call.Halt }
    ensures commits { (q : Discipline) → IsDiscipline q
        → (h : List (Entry Call Reply)) (w a : ℕ) (b : Branch)
        (fs : List (List ℕ)) (how : CommitEnd) → w < q.seats
        → duty_of (calls_by (proxy_lane w) h) ≡ Commits a b fs
        → IsPaidAfter q h (proxy_lane w) (call.Committed a b how) }
{}

/// Only a tap lane's own entries determine its script: these calls, and after a legal history no others.
/// Its Halt is paid for until it has received Stop or has halted. An Answer and an Ended come from the tap
/// lane that reads the line.
pub fn taps_are_heard()
    ensures hears { (q : Discipline) → IsDiscipline q
        → (h : List (Entry Call Reply)) (w : ℕ) (c : Call) → w < q.seats
        → may_hear (hearing_of (calls_by (tap_lane w) h)) c ≡ true
        → InScript (answer_after q) h (tap_lane w) c }
    ensures hears_only { (q : Discipline) → IsDiscipline q
        → (h : List (Entry Call Reply)) (w : ℕ) (c : Call)
        → CameAbout q h → InScript (answer_after q) h (tap_lane w) c
        → may_hear (hearing_of (calls_by (tap_lane w) h)) c ≡ true }
    ensures halts { (q : Discipline) → IsDiscipline q
        → (h : List (Entry Call Reply)) (w : ℕ) → w < q.seats
        → (hearing_of (calls_by (tap_lane w) h) ≡ Over → ⊥)
        → IsPaidAfter q h (tap_lane w) call.Halt }
    ensures only { (q : Discipline) → IsDiscipline q
        → (h : List (Entry Call Reply)) (lane : ℕ) (c : Call) (l : ℕ)
        → tells_of l c ≡ true → InScript (answer_after q) h lane c
        → hearing_of (calls_by lane h) ≡ Hears l }
{}

/// A paid call gets the reply Noted, stays paid for after entries of other lanes, and reduces the
/// number of owed calls by one. Any call raises that number by at most two.
pub fn paid_calls_are_counted()
    ensures noted { (q : Discipline) → IsDiscipline q
        → (h : List (Entry Call Reply)) (lane : ℕ) (c : Call)
        → CameAbout q h → IsPaidAfter q h lane c → answer_after q h lane c ≡ reply.Noted }
    ensures stays { (q : Discipline) → IsDiscipline q
        → (h more : List (Entry Call Reply)) (lane : ℕ) (c : Call)
        → calls_by lane more ≡ [] → IsPaidAfter q h lane c → IsPaidAfter q (h ++ more) lane c }
    ensures less { (q : Discipline) → IsDiscipline q
        → (h : List (Entry Call Reply)) (lane : ℕ) (c : Call)
        → IsPaidAfter q h lane c
        → owes_after q (h ++ entry lane c reply.Noted ∷ []) + 1 ≡ owes_after q h }
    ensures more { (q : Discipline) → IsDiscipline q
        → (h : List (Entry Call Reply)) (lane : ℕ) (c : Call)
        → is_kept (answer_after q h lane c) ≡ true
        → owes_after q (h ++ entry lane c (answer_after q h lane c) ∷ []) ≤ owes_after q h + 2 }
{}

/// If a lane is ordered to launch or to stop, there is no child on the shelf for its berth. If it
/// must send, cancel or kill, the child of that line is there. A new line has the next number, and
/// a Send or a Gather names an action of the plan.
pub fn orders_hold()
    ensures { (q : Discipline) → IsDiscipline q
        → (h : List (Entry Call Reply)) (lane : ℕ) → CameAbout q h
        → OrderHolds (length q.plan.actions) (child_at (lane / 2) h) (lines_in h)
        (answer_after q h lane call.Ask) }
{}

/// An order's attempt is run by a group of the plan. This group is an executor's exactly if the
/// lane's berth is.
pub fn orders_fit()
    ensures { (q : Discipline) → IsDiscipline q
        → (h : List (Entry Call Reply)) (lane : ℕ) → CameAbout q h
        → OrderFits q.plan (is_remote (q.kinds (lane / 2))) (answer_after q h lane call.Ask) }
{}

/// The shelf has nothing for the berth when a line is put there.
pub fn lines_find_room()
    ensures { (q : Discipline) → IsDiscipline q
        → (h : List (Entry Call Reply)) (lane l : ℕ) → CameAbout q h
        → InScript (answer_after q) h lane (call.Launched l start.Done)
        → (child_at (lane / 2) h ≡ None) × (tap_at (lane / 2) h ≡ None) }
{}

/// A line is given to a tap lane while its tap is on the shelf for its berth, and never twice.
pub fn taps_are_given_once()
    ensures there { (q : Discipline) → IsDiscipline q
        → (h : List (Entry Call Reply)) (lane l : ℕ) → CameAbout q h
        → answer_after q h lane call.Take ≡ reply.Line l → tap_at (lane / 2) h ≡ Some l }
    ensures once { (q : Discipline) → IsDiscipline q
        → (h : List (Entry Call Reply)) (lane l : ℕ)
        → answer_after q h lane call.Take ≡ reply.Line l → is_taken l h ≡ false }
{}

/// Files are granted at most once for each action, and only for actions of the plan. A Committed comes from
/// the lane that was granted the action's files, and the files are those of its last grant.
pub fn files_are_granted_once()
    ensures grants { (q : Discipline) → IsDiscipline q
        → (h : List (Entry Call Reply)) (lane a : ℕ) (b : Branch) (t : ℕ)
        (fs : List (List ℕ)) → CameAbout q h
        → answer_after q h lane (call.Claim a b t (found.Files fs)) ≡ reply.Granted
        → (a < length q.plan.actions) × (place_at a h ≡ Fresh) }
    ensures commits { (q : Discipline) → IsDiscipline q
        → (h : List (Entry Call Reply)) (lane a : ℕ) (b : Branch)
        (how : CommitEnd) → CameAbout q h
        → InScript (answer_after q) h lane (call.Committed a b how)
        → place_at a h ≡ Away (claimed (calls_by lane h)) }
{}

/// The made inputs of an ordered request are present when its lane looks at them.
pub fn inputs_are_there()
    ensures { (q : Discipline) → IsDiscipline q
        → (h : List (Entry Call Reply)) (w l : ℕ) (n : ℤ) (t : Attempt) (c o : ℕ)
        → CameAbout q h → duty_of (calls_by (proxy_lane w) h) ≡ Sends l n t
        → is_maker (makers_in q.plan t.action) c o ≡ true
        → says_file (answer_after q h (proxy_lane w) (call.Look (wanted.Made c o))) ≡ true }
{}

/// A legal history without its last entry is legal. That entry's reply is the rule's, and is
/// recorded.
pub fn histories_grow_by_rule()
    ensures { (q : Discipline) → IsDiscipline q
        → (h : List (Entry Call Reply)) (e : Entry Call Reply)
        → CameAbout q (h ++ e ∷ []) → CameAbout q h
        × (e.reply ≡ answer_after q h e.lane e.call) × (is_kept e.reply ≡ true) }
{}

/// Own berths are a discipline for any order in which a group's queued branches are called, and each of its
/// journals keeps the promises of every discipline.
pub fn any_order_is_a_discipline()
    ensures discipline { (next : Order) → IsOrder next → (p : Plan)
        → IsDiscipline (discipline_by next p) }
    ensures kept { (next : Order) → IsOrder next → (p : Plan) (j : List entries.Entry)
        → Sound p → LegalBy (discipline_by next p) j → Kept p j }
{}
