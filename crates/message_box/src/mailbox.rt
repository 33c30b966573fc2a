//! The machine.
ghost use Rattle.std.specs.Prelude.{◌≡◌, ◌+◌, ◌==◌, ◌&&◌, ℕ, List, [], true, false, None};
ghost use Rattle.std.specs.Prelude.{Option, IfSome};
ghost use Rattle.seat_desk.specs.History.{entry};
ghost use Rattle.message_box.specs.States.{state_of, answer_to, is_kept, is_short, named_by, owed_in};
ghost use Rattle.message_box.specs.States.{Matches, GoesIn, ComesOut, IsPaid, MayBeShort};
ghost use Rattle.message_box.specs.States.{TurnsSo, IsAdded, Gives, taken_from, not_stopped};
ghost use Rattle.message_box.specs.States.{reader};
ghost use Rattle.message_box.specs.StateLaws.{short_not_kept, paid_not_short, pays_one, owes_two};

use seat_desk::Machine;
use std::alloc::Global;
use std::mem;
use std::snapshot::Snapshot;

/// The number of the lane that reads messages and puts them in.
pub const READER: u32 = 0;

/// The number of the lane that takes them out.
pub const TAKER: u32 = 1;

/// The number of waiting messages from which there is no room for more.
pub const AHEAD: usize = 4_096;

/// The reason why the reader has stopped.
#[derive(Clone, Copy, PartialEq, Eq)]
pub enum Stop {
    /// The input has ended.
    AtEnd,
    /// Memory ran out.
    NoMemory,
    /// The next bytes of the input spell no message.
    BadInput,
    /// The input can't be read.
    InputFault,
    /// The number of pieces has reached its limit, so no more are read.
    TooLong,
}

/// A call of a mailbox.
#[derive(Drop)]
pub enum Ask<X> {
    /// Puts these messages in. They are handed over with the call.
    Put(Snapshot<Vec<X>>),
    /// Asks for room for more.
    Room,
    /// Reports how the reader has stopped.
    Stop(Stop),
    /// Asks if the taker has left.
    Left,
    /// Takes out all waiting messages.
    Take,
    /// Leaves, so that nothing more will be put in.
    Leave,
}

/// The reply to a call.
#[derive(Clone, Copy, PartialEq, Eq)]
pub enum Answer {
    /// The call is carried out.
    Done,
    /// There is room.
    Open,
    /// There is nothing to do now.
    Idle,
    /// The mailbox is empty, and nothing more will come.
    Stopped(Stop),
    /// The taker has left, or this lane may not make the call.
    Gone,
    /// Memory ran out, so the messages weren't put in.
    NoRoom,
}

/// The basis of a machine that has none.
#[derive(Drop)]
pub struct Nothing;

/// The waiting messages, how the reader has stopped, and if the taker has left.
#[derive(Drop)]
pub struct Mailbox<X> {
    alloc: Global,
    waiting: Vec<X>,
    stop: Option<Stop>,
    left: bool,
}

impl<X: Drop> Mailbox<X> {
    /// Returns a mailbox with no waiting messages.
    pub fn new(alloc: Global) -> Mailbox<X>
        ensures { Matches result (state_of []) }
    {
        Mailbox {
            alloc,
            waiting: Vec::new(alloc),
            stop: None,
            left: false,
        }
    }

    // Returns true if this lane may still put messages in.
    fn reads(&self, lane: u32) -> bool
        ensures { result ≡ ((lane == reader) && not_stopped self.now.stop) }
    {
        lane == READER && self.stop.is_none()
    }

    // Appends messages to the waiting ones.
    fn add(&mut self, batch: Option<Vec<X>>) -> Answer
        ensures rest { (self.new.stop ≡ self.old.stop) × (self.new.left ≡ self.old.left) }
        ensures added { IfSome batch (λ b.
            IsAdded self.old.waiting.items b.items result self.new.waiting.items) }
    {
        let Some(mut batch) = batch else {
            return Answer::Gone;
        };
        match self.waiting.append(&mut batch) {
            Ok(()) => Answer::Done,
            Err(_) => Answer::NoRoom,
        }
    }

    // Takes out all waiting messages.
    fn take_out(&mut self) -> (Answer, Option<Vec<X>>)
        ensures rest { (self.new.stop ≡ self.old.stop) × (self.new.left ≡ self.old.left) }
        ensures taken { (result.0 ≡ taken_from self.old.waiting.items self.old.stop)
            × (self.new.waiting.items ≡ []) }
        ensures gives { Gives self.old.waiting.items result.0 result.1 }
    {
        if self.waiting.is_empty() {
            return (self.stop.map_or(Answer::Idle, Answer::Stopped), None);
        }
        let messages = mem::replace(&mut self.waiting, Vec::new(self.alloc));
        (Answer::Done, Some(messages))
    }
}

impl<X: Drop> Machine for Mailbox<X> {
    type Call = Ask<X>;

    type Reply = Answer;

    type Good = Vec<X>;

    type Basis = Nothing;

    ghost basis = { λ m. record {} };

    ghost blank = { record {} };

    ghost stands = { λ m h. Matches m (state_of h) };

    ghost next = { λ q h lane c. answer_to (state_of h) lane c };

    ghost keeps = { λ e. is_kept e.reply };

    ghost paid = { λ q h lane c. IsPaid c };

    ghost short = { is_short };

    ghost may_be_short = { λ q h lane c. MayBeShort c };

    ghost goes_in = { λ q h lane c g. GoesIn c g };

    ghost comes_out = { λ q h lane c r g. ComesOut (state_of h) c r g };

    ghost owes = { λ q h. owed_in (state_of h) };

    ghost hints = { λ m lane r lanes. lanes ≡ named_by lane r };

    ghost short_is_not_kept = { λ e s. short_not_kept e.reply s };

    ghost paid_is_not_short = { λ m h lane c s p. paid_not_short (state_of h) lane c p };

    ghost paid_stays = { λ m h more lane c s e p. p };

    ghost owes_less = { λ m h lane c s p k. pays_one h lane c p k };

    ghost owes_more = { λ m h lane c s k. owes_two h lane c };

    ghost suits_still = { λ m h more lane c g s e p. p };

    fn is_kept(_lane: u32, _call: &Ask<X>, reply: &Answer) -> bool {
        matches!(reply, Answer::Done)
    }

    fn copy(reply: &Answer) -> Answer {
        *reply
    }

    fn turn(&mut self, lane: u32, call: &Ask<X>, put: Option<Vec<X>>) -> (Answer, Option<Vec<X>>)
        ensures turns { TurnsSo self.old lane call.now put result.0 result.1 self.new }
    {
        if self.left {
            return (Answer::Gone, None);
        }
        let reads = self.reads(lane);
        match call {
            Ask::Put(_) if reads => (self.add(put), None),
            Ask::Stop(stop) if reads => {
                self.stop = Some(*stop);
                (Answer::Done, None)
            }
            Ask::Take if lane == TAKER => self.take_out(),
            Ask::Leave if lane == TAKER => {
                self.left = true;
                (Answer::Done, None)
            }
            Ask::Room if self.waiting.len() < AHEAD => (Answer::Open, None),
            Ask::Room | Ask::Left => (Answer::Idle, None),
            Ask::Put(_) | Ask::Stop(_) | Ask::Take | Ask::Leave => (Answer::Gone, None),
        }
    }

    /// A change made by a call of one lane may be news for the other.
    fn stirs(&self, lane: u32, reply: &Answer) -> u128 {
        match reply {
            Answer::Done if lane == READER => 1 << TAKER,
            Answer::Done => 1 << READER,
            _ => 0,
        }
    }

    fn owed(&self) -> u64 {
        u64::from(self.stop.is_none()) + u64::from(!self.left)
    }
}
