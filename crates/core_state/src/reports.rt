// The messages that a tap lane reads, and the outcomes of writes.
ghost use Rattle.std.specs.Prelude.{◌≡◌, ◌<◌, ◌≤◌, length, Some};
ghost use Rattle.request_table.specs.declared.RequestRow.{RequestRow};
ghost use Rattle.core_state.specs.Choices.{row_at};
ghost use Rattle.core_state.specs.Machine.{CanEnd};
ghost use Rattle.core_state.specs.Reports.{CanEndPlaces, PlaceFits, place_counts, place_states, places_counts, places_states, is_open_for, sent_in, CanAnswer, CanHear, CanEndAll, CanWrite, breached, branch_in, attempt_in, told_reply, told_with, is_greeting_by, answer_reply_by, answered_with, new_match, consumed_reply, consumed_with, unmatched_reply, unmatched_with, unwritten_with, unwritten_by, lost_from, broken_by_feed, fed_attempt, ended_if, fed_with, wrote_with, ended_with};
ghost use Rattle.exec_journal.specs.Words.{end_cause};
ghost use Rattle.core_state.specs.Machine.{order_at};
ghost use Rattle.std.specs.List.{list_any};

use crate::State;
use crate::state::end_attempt;
use core_tables::{BerthGroup, Greeting, Match, Owed};
use exec_journal::{
    Answer, Attempt, Branch, BreachWhy, Cause, HowEnded, Kind, Plan, Reply, StrayWhy, Written,
};
use race_core::Race;
use ready_order::Ready;
use request_table::{Matching, RequestRow};
use retry_rules::Attempts;

impl State {
    /// Handles Answer: an answer that the tap lane of this berth has read from its line.
    pub fn answer(&mut self, berth: u32, seat: BerthGroup, line: u32, answer: &Answer) -> Reply
        requires { CanAnswer self.old berth seat line answer.now.number }
        ensures reply { result ≡ answer_reply_by self.old berth seat line answer.now }
        ensures state { self.new ≡ answered_with self.old berth seat line answer.now }
    {
        if self.pool.line(line).broken {
            return self.breach(berth, line, BreachWhy::Broken);
        }
        if is_greeting(seat, self.greetings.of(berth), answer) {
            return Reply::Greeted;
        }
        self.answer_to(berth, seat, line, answer)
    }

    // Handles an answer that comes from an unbroken line and is no greeting.
    fn answer_to(&mut self, berth: u32, seat: BerthGroup, line: u32, answer: &Answer) -> Reply
        requires { CanAnswer self.old berth seat line answer.now.number }
        ensures reply { result ≡ told_reply self.old seat line answer.now }
        ensures state { self.new ≡ told_with self.old berth seat line answer.now }
    {
        if seat.kind == Kind::Single && answer.number != 0 {
            return self.breach(berth, line, BreachWhy::WrongNumber);
        }
        match self.requests.answer(line, answer.number) {
            Matching::Pending(action, attempt) => {
                if answer.cancelled {
                    self.requests.reopened(line, answer.number);
                    return self.breach(berth, line, BreachWhy::NotCancelled);
                }
                let attempt = self.attempt_in(seat, action, attempt);
                self.consume(berth, line, answer, attempt)
            }
            Matching::Cancelled(action, attempt) => {
                let attempt = self.attempt_in(seat, action, attempt);
                self.consume(berth, line, answer, attempt)
            }
            Matching::Closed => self.unmatched(berth, seat, line, StrayWhy::Closed),
            Matching::Never => self.unmatched(berth, seat, line, StrayWhy::Never),
        }
    }

    fn breach(&mut self, berth: u32, line: u32, why: BreachWhy) -> Reply
        requires line { line < length self.old.pool.lines }
        requires last { berth < length self.old.last }
        ensures reply { result ≡ Reply.Breach why }
        ensures state { self.new ≡ breached self.old berth line }
    {
        self.pool.broke(line);
        self.last.broke(berth, Cause::Breach);
        Reply::Breach(why)
    }

    // Handles an answer that finds no request. On a Single line it is a Breach.
    fn unmatched(&mut self, berth: u32, seat: BerthGroup, line: u32, why: StrayWhy) -> Reply
        requires line { line < length self.old.pool.lines }
        requires last { berth < length self.old.last }
        ensures reply { result ≡ unmatched_reply seat why }
        ensures state { self.new ≡ unmatched_with self.old berth seat line }
    {
        if seat.kind == Kind::Single {
            self.breach(berth, line, BreachWhy::Unasked)
        } else {
            Reply::Stray(why)
        }
    }

    // Returns the attempt of this number. Its branch is the one that the line's group runs.
    fn attempt_in(&self, seat: BerthGroup, action: u32, number: u32) -> Attempt
        ensures { result ≡ attempt_in self.now.plan seat action number }
    {
        Attempt {
            action,
            branch: branch_in(&self.plan, action, seat.group),
            number,
        }
    }

    fn consume(&mut self, berth: u32, line: u32, answer: &Answer, attempt: Attempt) -> Reply
        requires { CanHear self.old berth line answer.now.number attempt }
        ensures reply { result ≡ consumed_reply self.old attempt }
        ensures state { self.new ≡ consumed_with self.old berth line answer.now attempt }
    {
        self.pool.freed(line);
        self.cancels.gone(line, answer.number);
        if self.race.winner(attempt.action).is_some() {
            return Reply::Late {
                action: attempt.action,
                branch: attempt.branch,
                attempt: attempt.number,
            };
        }
        self.matches
            .matched(berth, new_match(line, answer, attempt));
        Reply::Matched {
            action: attempt.action,
            branch: attempt.branch,
            attempt: attempt.number,
        }
    }

    /// Handles Wrote: the outcome of the lane's order to write, on its berth's last line.
    pub fn wrote(&mut self, lane: u32, berth: u32, line: u32, number: i32, how: Written) -> Reply
        requires { CanWrite self.old lane berth line (sent_in (order_at self.old lane)) }
        ensures reply { result ≡ Reply.Noted }
        ensures state { self.new ≡ wrote_with self.old lane berth line number how }
    {
        match how {
            Written::Done => Reply::Noted,
            Written::FeedFault => self.feed_fault(lane, berth, line),
            _ => self.not_written(lane, berth, line, number),
        }
    }

    // Handles a feed that takes nothing more: the line broke. If the line had ended before, the
    // attempt is lost with it.
    fn feed_fault(&mut self, lane: u32, berth: u32, line: u32) -> Reply
        requires { CanWrite self.old lane berth line (sent_in (order_at self.old lane)) }
        ensures reply { result ≡ Reply.Noted }
        ensures state { self.new ≡ fed_with self.old lane berth line }
    {
        let order = self.lanes.state(lane).order;
        self.break_feed(berth, line);
        match order {
            Owed::Send { attempt, .. } => self.feed_lost(berth, line, attempt),
            _ => Reply::Noted,
        }
    }

    fn break_feed(&mut self, berth: u32, line: u32)
        requires line { line < length self.old.pool.lines }
        requires last { berth < length self.old.last }
        ensures { self.new ≡ broken_by_feed self.old berth line }
    {
        self.pool.broke(line);
        self.last.broke(berth, Cause::Feed);
    }

    fn feed_lost(&mut self, berth: u32, line: u32, attempt: Attempt) -> Reply
        requires line { line < length self.old.pool.lines }
        requires last { berth < length self.old.last }
        requires ends { CanEnd self.old attempt }
        ensures reply { result ≡ Reply.Noted }
        ensures state { self.new ≡ ended_if (row_at self.old line).ended
            (fed_attempt self.old berth attempt) attempt }
    {
        let over = self.pool.line(line).ended;
        self.last.fed(berth, attempt);
        self.matches.spent(attempt);
        if over {
            self.end(attempt);
            return Reply::Noted;
        }
        Reply::Noted
    }

    fn not_written(&mut self, lane: u32, berth: u32, line: u32, number: i32) -> Reply
        requires { CanWrite self.old lane berth line (sent_in (order_at self.old lane)) }
        ensures reply { result ≡ Reply.Noted }
        ensures state { self.new ≡ unwritten_by self.old berth line number
            (sent_in (order_at self.old lane)) }
    {
        match self.lanes.state(lane).order {
            Owed::Send { attempt, .. } => self.unwritten(lane, berth, line, number, attempt),
            _ => Reply::Noted,
        }
    }

    // Handles a request that wasn't written. If it was answered already, its line broke.
    fn unwritten(
        &mut self,
        lane: u32,
        berth: u32,
        line: u32,
        number: i32,
        attempt: Attempt,
    ) -> Reply
        requires { CanWrite self.old lane berth line (Some attempt) }
        ensures reply { result ≡ Reply.Noted }
        ensures state { self.new ≡ unwritten_with self.old berth line number attempt }
    {
        self.lose(lane, berth, line, number, attempt);
        self.matches.spent(attempt);
        self.end(attempt);
        Reply::Noted
    }

    fn lose(&mut self, lane: u32, berth: u32, line: u32, number: i32, attempt: Attempt)
        requires { CanWrite self.old lane berth line (Some attempt) }
        ensures { self.new ≡ lost_from self.old berth line number attempt }
    {
        if is_waiting(self.requests.places(line), attempt) {
            self.requests.unwritten(line, number);
            self.cancels.gone(line, number);
            self.pool.freed(line);
            return;
        }
        self.pool.broke(line);
        self.last.broke(berth, Cause::Breach);
    }

    /// Handles Ended: ends every attempt that is pending on the berth's last line, bound to it, or
    /// not fully written to it.
    pub fn ended(&mut self, berth: u32, seat: BerthGroup, line: u32, how: HowEnded) -> Reply
        requires { CanEndAll self.old berth seat line }
        ensures reply { result ≡ Reply.Noted }
        ensures state { self.new ≡ ended_with self.old berth seat line how }
    {
        let row = self.last.of(berth);
        end_places(
            &self.plan,
            &self.race,
            &mut self.attempts,
            &mut self.ready,
            self.requests.places(line),
            seat,
        );
        if let Some(attempt) = row.fed {
            self.end(attempt);
        }
        if self.pool.line(line).bound {
            if let Some(attempt) = row.attempt {
                self.end(attempt);
            }
        }
        self.pool.ended(line);
        self.requests.ended(line);
        self.cancels.ended(line);
        self.last.broke(berth, end_cause(how));
        Reply::Noted
    }
}

// Returns true if this is an executor's first answer, with the number 0 and the version 2 or more.
fn is_greeting(seat: BerthGroup, said: Greeting, answer: &Answer) -> bool
    ensures { result ≡ is_greeting_by seat (Some said) answer.now }
{
    seat.kind == Kind::Remote && answer.number == 0 && answer.version >= 2 && !said.spoken
}

fn new_match(line: u32, answer: &Answer, attempt: Attempt) -> Match
    ensures { result ≡ new_match line answer.now attempt }
{
    Match {
        line,
        number: answer.number,
        attempt,
        exit: answer.exit,
        refused: !answer.refusal.as_str().is_empty(),
        spent: false,
    }
}

// Ends the attempt of each pending request.
fn end_places(
    plan: &Plan,
    race: &Race,
    attempts: &mut Attempts,
    ready: &mut Ready,
    places: &[RequestRow],
    seat: BerthGroup,
)
    requires { CanEndPlaces plan.now race.now attempts.old ready.old seat places.now }
    ensures counts { attempts.new ≡ places_counts plan.now race.now attempts.old seat places.now }
    ensures states { ready.new ≡ places_states plan.now race.now attempts.old ready.old seat
        places.now }
{
    for place in places {
        end_place(plan, race, attempts, ready, place, seat);
    }
}

fn end_place(
    plan: &Plan,
    race: &Race,
    attempts: &mut Attempts,
    ready: &mut Ready,
    place: &RequestRow,
    seat: BerthGroup,
)
    requires { PlaceFits plan.now race.now attempts.old ready.old seat place.now }
    ensures counts { attempts.new ≡ place_counts plan.now race.now attempts.old seat place.now }
    ensures states { ready.new ≡ place_states plan.now race.now attempts.old ready.old seat
        place.now }
{
    if place.pending {
        let attempt = Attempt {
            action: place.action,
            branch: branch_in(plan, place.action, seat.group),
            number: place.attempt,
        };
        end_attempt(plan, race, attempts, ready, attempt);
    }
}

fn branch_in(plan: &Plan, action: u32, group: u32) -> Branch
    ensures { result ≡ branch_in plan.now action group }
{
    match plan.actions.as_slice().get(action as usize) {
        Some(work) if work.local == Some(group) => Branch::Local,
        _ => Branch::Remote,
    }
}

// Returns true if the attempt's request is pending.
fn is_waiting(places: &[RequestRow], attempt: Attempt) -> bool
    ensures { result ≡ list_any (is_open_for attempt) places.now }
{
    places.iter().any(|place| place.pending
        && place.action == attempt.action
        && place.attempt == attempt.number)
}

fn end_cause(how: HowEnded) -> Cause
    ensures { result ≡ end_cause how }
{
    match how {
        HowEnded::End => Cause::Died,
        HowEnded::TapFault => Cause::Tap,
        HowEnded::BadFrame => Cause::Frame,
        HowEnded::Long => Cause::Long,
    }
}
