//! The desk, and the calls at it.
ghost use Rattle.std.specs.Prelude.{ℕ, ◌≡◌, ◌≢◌, ◌<◌, ◌≤◌, ◌-◌, ◌^◌, false, [], ◌∷◌, ◌++◌, length, vec_len, vec_capacity, IfOk, IfErr, None, Some};
ghost use Rattle.seat_desk.specs.History.{StandsUnder, StartsWith};
ghost use Rattle.seat_desk.specs.Helds.{log_of, IsGood, LiesAlone};
ghost use Rattle.seat_desk.specs.Turns.{AllJoined, NoneFrom};
ghost use Rattle.seat_desk.specs.Desks.{IsIdle, IsRoot, Draws, WaitsFor, IsServed, MayEnd, HasEnded};

use crate::entry::HistoryEntry;
use crate::held::Held;
use crate::machine::{Machine, Then};
use crate::pieces::Pieces;
use crate::plays::{Cut, Draw, End, Gather, Glue, Look};
use crate::rule::Turns;
use crate::turn::{follow, step};
use crate::view::{Role, Stage, View};
use atomic_table::{Seat, Table};
use plain_values::NoMemory;
use std::alloc::Global;
use std::snapshot::Snapshot;
use std::sync::{Mutex, Wait};
use std::thread::yield_now;

/// The number of entries that one call may need room for: its own, and two that the machine may owe
/// after it.
const ROOM_OF_A_CALL: u64 = 3;

/// The right to call on one lane.
///
/// The entries that it has seen are a front of the one history. In them, the entries of its lane
/// are exactly the calls that were made with this pass.
#[derive(Drop)]
pub struct Pass<M: Machine> {
    lane: u32,
    stirs: u128,
    seat: Seat<Option<Held<M, M::Call, M::Reply>>, View<M::Call, M::Reply, M::Basis>>,
    pub ghost idle: { IsIdle lane seat.me },
}

/// The root of a desk, which splits passes off, joins them again and closes the desk.
#[derive(Drop)]
pub struct Root<M: Machine> {
    made: u32,
    seat: Seat<Option<Held<M, M::Call, M::Reply>>, View<M::Call, M::Reply, M::Basis>>,
    pub ghost idle: { IsRoot made seat.me },
}

/// The machine of a closed desk, and the one history.
#[derive(Drop)]
pub struct Closed<M: Machine> {
    /// The machine, as the last call left it.
    pub machine: M,
    /// The recorded calls, the oldest first.
    pub history: Vec<HistoryEntry<M>>,
}

/// A ticket lock around a machine and its history.
///
/// Each turn is made while the `gate` is held, so its ticket is served at once. A first-come ticket
/// alone costs a context switch a turn once there are more lanes than processors. No proof rests on
/// the gate.
#[derive(Drop)]
pub struct Desk<M: Machine> {
    table: Table<
        Option<Held<M, M::Call, M::Reply>>,
        View<M::Call, M::Reply, M::Basis>,
        Snapshot<M>,
        Turns<M>,
        Global,
    >,
    gate: Mutex<()>,
    pub ghost sized: { (table.shared.table_id.words ≡ 2) × (table.shared.table_id.slots ≡ 1) },
}

/// A call that was not made because there was no memory for its entries.
#[derive(Drop)]
pub struct Refused<M: Machine> {
    /// The call that was not made.
    pub call: M::Call,
    /// The good that should have gone in with the call.
    pub put: Option<M::Good>,
}

/// The slots of a desk's table.
type Slots<M> = Vec<Option<Held<M, <M as Machine>::Call, <M as Machine>::Reply>>>;

// Makes room for the slot of a desk, and for a history with room for `owed` entries.
fn room_for<M: Machine>(
    alloc: Global,
    owed: u64,
) -> Result<(Slots<M>, Pieces<HistoryEntry<M>>), NoMemory>
    ensures slot { IfOk result (λ r. (r.0.items ≡ []) × (vec_len r.0 ≡ 0)
        × (1 ≤ vec_capacity r.0)) }
    ensures history { IfOk result (λ r. (r.1.items ≡ []) × (owed ≤ r.1.room)) }
{
    let slots = Vec::with_capacity(alloc, 1)?;
    let mut history = Pieces::new(alloc);
    history.reserve(owed as usize)?;
    Ok((slots, history))
}

// Returns the machine in the one slot.
fn machine_in<M: Machine>(slots: Slots<M>) -> M
    requires { (m : M) × LiesAlone m slots.items }
    ensures { LiesAlone result slots.items }
{
    let mut slots = slots;
    match slots.pop() {
        Some(Some(held)) => held.machine,
        _ => unreachable!(),
    }
}

impl<M: Machine> Pass<M> {
    /// Returns the number of the pass's lane.
    pub fn lane(&self) -> u32
        ensures { result ≡ self.now.lane }
    {
        self.lane
    }

    /// Returns the lanes that may have news after the last call of this pass, or after its last two
    /// if one turn made both, as bits: the machine's hint (`Machine::stirs`).
    pub fn stirs(&self) -> u128
        ensures { result ≡ self.now.stirs }
    {
        self.stirs
    }
}

impl<M: Machine> Desk<M> {
    ghost use Rattle.seat_desk.specs.Passes.{IsPassOf, IsRootOf, IsSamePass, IsSameRoot, IsNewRoot, IsNewPass, SplitsOne, Suits, IsPaidFor, MakesCall, MakesPaidCall, MakesNoCall, MayMakeThen, MakesCallThen, Stirs, joined, mine, seen, root_basis, root_seen};

    /// Creates a desk for this machine, which stands for the empty history, and the desk's root.
    ///
    /// # Errors
    ///
    /// Returns `NoMemory` if memory runs out for the table, or for the entries that the machine
    /// owes at first.
    pub fn new(alloc: Global, machine: M) -> Result<(Desk<M>, Root<M>), NoMemory>
        requires { M.stands machine [] }
        ensures { IfOk result (λ d. IsRootOf d.0 d.1 × IsNewRoot (M.basis machine) d.1) }
    {
        match Desk::new_or_back(alloc, machine) {
            Ok(opened) => Ok(opened),
            Err(_machine) => Err(NoMemory),
        }
    }

    /// Same as [`Desk::new`], but hands the machine back.
    ///
    /// # Errors
    ///
    /// Returns the machine, unchanged, if memory runs out.
    pub fn new_or_back(alloc: Global, machine: M) -> Result<(Desk<M>, Root<M>), M>
        requires { M.stands machine [] }
        ensures desk { IfOk result (λ d. IsRootOf d.0 d.1 × IsNewRoot (M.basis machine) d.1) }
        ensures back { IfErr result (λ m. m ≡ machine) }
    {
        let Ok((mut slots, history)) = room_for(alloc, machine.owed()) else {
            return Err(machine);
        };
        let about = Snapshot::of(&machine);
        slots.push_reserved(Some(Held { machine, history }));
        match Table::new(alloc, &[0, 0], slots, &about) {
            Ok((table, seat)) => {
                let gate = Mutex::new(());
                Ok((Desk { table, gate }, Root { made: 0, seat }))
            }
            Err(refused) => Err(machine_in(refused.slots)),
        }
    }

    /// Splits off the pass of a new lane. Lanes are numbered from 0 upwards. The pass has seen what
    /// the root has seen. The function takes no memory.
    pub fn split<R>(&self, rt: &R, root: &mut Root<M>) -> Pass<M>
        requires desk { IsRootOf self.now root.old }
        requires room { root.old.made < 2 ^ 32 - 1 }
        ensures root { SplitsOne root.old root.new }
        ensures pass { IsNewPass root.old result }
    {
        let _ = rt;
        let seat = self.table.shared.split_seat::<Cut>(&mut root.seat);
        let lane = root.made;
        root.made += 1;
        Pass {
            lane,
            stirs: 0,
            seat,
        }
    }

    /// Makes the call in its own turn. Returns the machine's reply and the good that came out.
    ///
    /// # Errors
    ///
    /// Returns `Refused` if memory runs out for the call's entry and for the entries that the
    /// machine may owe after it. Then the turn ended without a call.
    pub fn call<R: Wait>(
        &self,
        rt: &R,
        pass: &mut Pass<M>,
        call: M::Call,
        put: Option<M::Good>,
    ) -> Result<(M::Reply, Option<M::Good>), Refused<M>>
        requires desk { IsPassOf self.now pass.old }
        requires suits { Suits pass.old call put }
        ensures same { IsSamePass pass.old pass.new }
        ensures answer { IfOk result (λ r. MakesCall pass.old call r.0 r.1 pass.new) }
        ensures stirs { IfOk result (λ r. Stirs pass.old r.0 pass.new) }
        ensures refused { IfErr result (λ e. (e.call ≡ call) × (e.put ≡ put)
            × MakesNoCall pass.old pass.new) }
    {
        let lane = pass.lane;
        let _gate = self.gate.lock(rt);
        let mut held = self.enter(rt, &mut pass.seat);
        let room = held.machine.owed().saturating_add(ROOM_OF_A_CALL);
        if held.history.reserve(room as usize).is_err() {
            self.leave(&mut pass.seat, held);
            pass.stirs = 0;
            return Err(Refused { call, put });
        }
        let (reply, good) = step(&mut held, lane, call, put);
        let stirs = held.machine.stirs(lane, &reply);
        self.leave(&mut pass.seat, held);
        pass.stirs = stirs;
        Ok((reply, good))
    }

    /// Makes a call that the pass's history has paid for. The call takes no memory, and its reply
    /// is not short.
    pub fn call_paid<R: Wait>(
        &self,
        rt: &R,
        pass: &mut Pass<M>,
        call: M::Call,
        put: Option<M::Good>,
    ) -> (M::Reply, Option<M::Good>)
        requires desk { IsPassOf self.now pass.old }
        requires suits { Suits pass.old call put }
        requires paid { IsPaidFor pass.old call }
        ensures same { IsSamePass pass.old pass.new }
        ensures answer { MakesPaidCall pass.old call result.0 result.1 pass.new }
        ensures stirs { Stirs pass.old result.0 pass.new }
        ensures not_short { M.short result.0 ≡ false }
    {
        let lane = pass.lane;
        let _gate = self.gate.lock(rt);
        let mut held = self.enter(rt, &mut pass.seat);
        let (reply, good) = step(&mut held, lane, call, put);
        let stirs = held.machine.stirs(lane, &reply);
        self.leave(&mut pass.seat, held);
        pass.stirs = stirs;
        (reply, good)
    }

    /// Makes the call. If `work` returns a second call for its reply, makes that call too, in the
    /// same turn. Returns the reply of the last call that was made. The good is the one that came
    /// out of the second call, or none if only one call was made. No other lane's call comes between
    /// the two.
    ///
    /// # Errors
    ///
    /// Returns `Refused` as [`Desk::call`] does. The work is unchanged.
    pub fn call_then<W: Then<M>, R: Wait>(
        &self,
        rt: &R,
        pass: &mut Pass<M>,
        call: M::Call,
        work: &mut W,
    ) -> Result<(M::Reply, Option<M::Good>), Refused<M>>
        requires desk { IsPassOf self.now pass.old }
        requires suits { Suits pass.old call None }
        requires may { MayMakeThen W.meets pass.old call work.old }
        ensures same { IsSamePass pass.old pass.new }
        ensures answer { IfOk result (λ r.
            MakesCallThen W.meets pass.old call work.old r.0 r.1 work.new pass.new) }
        ensures refused { IfErr result (λ e. (e.call ≡ call) × (e.put ≡ None)
            × (work.new ≡ work.old) × MakesNoCall pass.old pass.new) }
    {
        let lane = pass.lane;
        let _gate = self.gate.lock(rt);
        let mut held = self.enter(rt, &mut pass.seat);
        let room = held.machine.owed().saturating_add(ROOM_OF_A_CALL);
        if held.history.reserve(room as usize).is_err() {
            self.leave(&mut pass.seat, held);
            pass.stirs = 0;
            return Err(Refused { call, put: None });
        }
        let (reply, good) = step(&mut held, lane, call, None);
        let first = held.machine.stirs(lane, &reply);
        let (reply, good) = follow(&mut held, lane, reply, good, work);
        let stirs = first | held.machine.stirs(lane, &reply);
        self.leave(&mut pass.seat, held);
        pass.stirs = stirs;
        Ok((reply, good))
    }

    /// Takes a pass back. The root then has seen all that the pass has seen, and keeps its calls.
    pub fn join_pass<R>(&self, rt: &R, root: &mut Root<M>, pass: Pass<M>)
        requires { IsRootOf self.now root.old × IsPassOf self.now pass }
        ensures same { IsSameRoot root.old root.new }
        ensures seen { StartsWith (root_seen root.new) (root_seen root.old)
            × StartsWith (root_seen root.new) (seen pass) }
        ensures joined { joined root.new
            ≡ joined root.old ++ record { lane = pass.lane; calls = mine pass } ∷ [] }
    {
        let _ = rt;
        let Pass {
            lane: _,
            stirs: _,
            seat,
        } = pass;
        self.table.shared.join_seat::<Glue<M>>(&mut root.seat, seat);
        self.table.shared.load::<Gather<M>>(&mut root.seat, 0);
    }

    /// Ends the desk after every pass was joined. The history begins with all that the root has
    /// seen. The calls of each lane in it are those that the lane's pass made. No other lane has a
    /// call in it, and the machine stands for it. The function takes no memory.
    pub fn close<R>(self, rt: &R, root: Root<M>) -> Closed<M>
        requires desk { IsRootOf self root }
        requires all { length (joined root) ≡ root.made }
        ensures stands { StandsUnder M.basis M.stands (root_basis root) result.machine
            result.history.items }
        ensures seen { StartsWith result.history.items (root_seen root) }
        ensures joined { AllJoined result.history.items (joined root) }
        ensures others { NoneFrom root.made result.history.items }
    {
        let _ = rt;
        let Desk { table, gate: _ } = self;
        let Root { made: _, seat } = root;
        let mut closed = table.close_with(seat);
        let held = closed.take(0).unwrap();
        closed.free();
        let Held { machine, history } = held;
        let history = history.into_list();
        Closed { machine, history }
    }

    // Draws a ticket. In all private functions, the seat belongs to this desk's table.
    fn draw(
        &self,
        seat: &mut Seat<Option<Held<M, M::Call, M::Reply>>, View<M::Call, M::Reply, M::Basis>>,
    ) -> u64
        requires { (seat.old.table_id ≡ self.now.table.shared.table_id)
            × (seat.old.me.0.stage ≡ Stage.Idle) × (seat.old.me.0.role ≢ Role.Gone) }
        ensures { (seat.new.table_id ≡ seat.old.table_id) × Draws seat.old.me result seat.new.me }
    {
        self.table.shared.fetch_add::<Draw<M>>(seat, 0, 1)
    }

    // Waits until the ticket is served, and takes the slot.
    fn wait<R: Wait>(
        &self,
        rt: &R,
        seat: &mut Seat<Option<Held<M, M::Call, M::Reply>>, View<M::Call, M::Reply, M::Basis>>,
        ticket: u64,
    )
        requires { (seat.old.table_id ≡ self.now.table.shared.table_id)
            × WaitsFor seat.old.me ticket }
        ensures { (seat.new.table_id ≡ seat.old.table_id)
            × ((y : _) × IsServed log_of (IsGood M.basis M.stands M.owes) seat.old.me y
            (λ c. c ≡ (0, Some y) ∷ []) seat.new.me) }
    {
        for _ in rt.forever() {
            if self.table.shared.load::<Look<M>>(seat, 1) == ticket {
                return;
            }
            yield_now();
        }
    }

    // Begins a turn: takes the machine with its history out of the slot.
    fn enter<R: Wait>(
        &self,
        rt: &R,
        seat: &mut Seat<Option<Held<M, M::Call, M::Reply>>, View<M::Call, M::Reply, M::Basis>>,
    ) -> Held<M, M::Call, M::Reply>
        requires { (seat.old.table_id ≡ self.now.table.shared.table_id)
            × (seat.old.me.0.stage ≡ Stage.Idle) × (seat.old.me.1 ≡ [])
            × (seat.old.me.0.role ≢ Role.Gone) }
        ensures { (seat.new.table_id ≡ seat.old.table_id)
            × IsServed log_of (IsGood M.basis M.stands M.owes) seat.old.me result
            (λ c. c ≡ (0, None) ∷ []) seat.new.me }
    {
        let ticket = self.draw(seat);
        self.wait(rt, seat, ticket);
        self.table.shared.exchange(seat, 0, None).unwrap()
    }

    // Ends the turn: puts the machine back, and serves the next ticket.
    fn leave(
        &self,
        seat: &mut Seat<Option<Held<M, M::Call, M::Reply>>, View<M::Call, M::Reply, M::Basis>>,
        held: Held<M, M::Call, M::Reply>,
    )
        requires { (seat.old.table_id ≡ self.now.table.shared.table_id)
            × ((lane : ℕ) × MayEnd log_of (IsGood M.basis M.stands M.owes) lane seat.old.me held) }
        ensures { (seat.new.table_id ≡ seat.old.table_id)
            × HasEnded seat.old.me held.history.items seat.new.me }
    {
        self.table.shared.exchange(seat, 0, Some(held));
        self.table.shared.fetch_add::<End<M>>(seat, 1, 1);
    }
}
