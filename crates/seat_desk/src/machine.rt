//! The machine that a desk holds.
ghost use Rattle.std.specs.Prelude.{◌≡◌, ◌⊎◌, ◌≤◌, ◌+◌, ◌^◌, ◌<◌, ℕ, Bool, true, false, List, [], ◌∷◌, ◌++◌, Option};
ghost use Rattle.plain_values.specs.declared.entry.Entry.{Entry};
ghost use Rattle.seat_desk.specs.History.{entry, calls_by, Copies, Ready, Replies, Stands, ComesOut, Owes};

/// A sequential object that many lanes call through a desk.
///
/// Its meaning is given by a list of entries, the history of the recorded calls. `next` is the
/// reply of each call after a history. The machine's basis is the data that it depends on and never
/// changes, for example a plan that is known only at run time.
///
/// A good may go in with a call, and one may come out with its reply. A reply that reports a lack
/// of memory is *short*. The history may have *paid for* a call. Such a call never gets a short
/// reply, and the desk has made the room for its entry beforehand.
pub trait Machine: Sized + Drop {
    /// A call of a lane.
    type Call: Drop;

    /// The reply to a call.
    type Reply: Drop;

    /// A good, which goes in with a call or comes out with a reply.
    type Good: Drop;

    /// The data that a machine depends on. It never changes, and no value of it is made at run
    /// time.
    type Basis;

    // The basis of this machine.
    ghost basis: { Self → Self.Basis };

    // Some basis, for the seat of a pass that was joined.
    ghost blank: { Self.Basis };

    // The machine stands for this history: these calls may have led to its state.
    ghost stands: { Self → List (Entry Self.Call Self.Reply) → Type 0 };

    // The reply to this lane's call after a history.
    ghost next: { Self.Basis → List (Entry Self.Call Self.Reply) → ℕ → Self.Call → Self.Reply };

    // True if the entry joins the history.
    ghost keeps: { Entry Self.Call Self.Reply → Bool };

    // The calls of a lane that a history has paid for.
    ghost paid: { Self.Basis → List (Entry Self.Call Self.Reply) → ℕ → Self.Call → Type 0 };

    // The replies that report a lack of memory.
    ghost short: { Self.Reply → Bool };

    // The calls of a lane that may get a short reply after a history.
    ghost may_be_short: { Self.Basis → List (Entry Self.Call Self.Reply) → ℕ → Self.Call → Type 0 };

    // The goods that may go in with a call after a history, or none.
    ghost goes_in: { Self.Basis → List (Entry Self.Call Self.Reply) → ℕ → Self.Call
        → Option Self.Good → Type 0 };

    // The goods that may come out with the reply of a call that was made after a history, or none.
    ghost comes_out: { Self.Basis → List (Entry Self.Call Self.Reply) → ℕ → Self.Call
        → Self.Reply → Option Self.Good → Type 0 };

    // The number of paid entries that are still to come after a history.
    ghost owes: { Self.Basis → List (Entry Self.Call Self.Reply) → ℕ };

    // The lanes that the machine hints at after this reply to this lane, a bit for each.
    ghost hints: { Self → ℕ → Self.Reply → ℕ → Type 0 };

    /// Returns true if the entry of this call joins the history.
    fn is_kept(lane: u32, call: &Self::Call, reply: &Self::Reply) -> bool
        ensures { result ≡ keeps (entry lane call.now reply.now) };

    /// Returns an equal reply, if an entry with it is recorded. The function takes no memory.
    fn copy(reply: &Self::Reply) -> Self::Reply
        ensures { Copies keeps reply.now result };

    /// Makes the call of this lane, and may let a good come out.
    ///
    /// The clauses cover every history that the machine stands for. After each, the reply is `next`
    /// or a short one, and the good that comes out suits. The machine then stands for the history
    /// with the entry, if it is recorded.
    fn turn(
        &mut self,
        lane: u32,
        call: &Self::Call,
        put: Option<Self::Good>,
    ) -> (Self::Reply, Option<Self::Good>)
        requires { Ready stands (goes_in (basis self.old)) self.old lane call.now put }
        ensures basis { basis self.new ≡ basis self.old }
        ensures reply { Replies stands (goes_in (basis self.old)) (next (basis self.old)) short
            (may_be_short (basis self.old)) self.old lane call.now put result.0 }
        ensures stands { Stands stands (goes_in
            (basis self.old)) keeps self.old lane call.now put result.0 self.new }
        ensures good { ComesOut stands (goes_in (basis self.old)) (comes_out
            (basis self.old)) self.old lane call.now put result.0 result.1 };

    /// Returns the lanes that may have news after this reply to this lane. Each lane has a bit: bit
    /// `k` is lane `k`. The set is a hint for callers that wake waiting lanes.
    fn stirs(&self, lane: u32, reply: &Self::Reply) -> u128
        ensures { hints self.now lane reply.now result };

    /// Returns the number of paid entries that are still to come.
    fn owed(&self) -> u64
        ensures { Owes stands (owes (basis self.now)) self.now result };

    // A short reply is not recorded.
    ghost short_is_not_kept: { (e : Entry Self.Call Self.Reply) → short e.reply ≡ true
        → keeps e ≡ false };

    // A paid call gets no short reply, and may get none.
    ghost paid_is_not_short: { (m : Self) (h : List (Entry Self.Call Self.Reply)) (lane : ℕ)
        (c : Self.Call) → stands m h → paid (basis m) h lane c → (may_be_short (basis m) h lane c
        → ⊥) × (short (next (basis m) h lane c) ≡ false) };

    // A call that a history has paid for stays paid for after entries of other lanes.
    ghost paid_stays: { (m : Self) (h more : List (Entry Self.Call Self.Reply)) (lane : ℕ)
        (c : Self.Call) → stands m (h ++ more) → calls_by lane more ≡ []
        → paid (basis m) h lane c → paid (basis m) (h ++ more) lane c };

    // A paid call whose entry is recorded lowers the number of owed entries by one.
    ghost owes_less: { (m : Self) (h : List (Entry Self.Call Self.Reply)) (lane : ℕ)
        (c : Self.Call) → stands m h → paid (basis m) h lane c
        → keeps (entry lane c (next (basis m) h lane c)) ≡ true
        → owes (basis m) (h ++ entry lane c (next (basis m) h lane c) ∷ []) + 1 ≡ owes
        (basis m) h };

    // Any call raises that number by at most two.
    ghost owes_more: { (m : Self) (h : List (Entry Self.Call Self.Reply)) (lane : ℕ)
        (c : Self.Call) → stands m h → keeps (entry lane c (next (basis m) h lane c)) ≡ true
        → owes (basis m) (h ++ entry lane c (next (basis m) h lane c) ∷ []) ≤ owes
        (basis m) h + 2 };

    // A good that suits a call still suits it after entries of other lanes.
    ghost suits_still: { (m : Self) (h more : List (Entry Self.Call Self.Reply)) (lane : ℕ)
        (c : Self.Call) (g : Option Self.Good) → stands m (h ++ more) → calls_by lane more ≡ []
        → goes_in (basis m) h lane c g → goes_in (basis m) (h ++ more) lane c g };
}

/// The work of a lane between two calls of one turn.
pub trait Then<M: Machine> {
    // The relation between the value before, the reply, the good that came out, the answer and the
    // value after.
    ghost meets: { Self → M.Reply → Option M.Good → Option (M.Call × Option M.Good) → Self
        → Type 0 };

    /// Returns the call that should follow in the same turn, with the good that goes in with it, or
    /// `None`. It runs while the machine is held, so it must not call the desk.
    fn then(
        &mut self,
        reply: &M::Reply,
        good: Option<M::Good>,
    ) -> Option<(M::Call, Option<M::Good>)>
        ensures { meets self.old reply.now good result self.new };
}
