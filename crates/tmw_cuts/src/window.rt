ghost use Rattle.tmw_cuts.specs.Shared.{lacks_register};
ghost use Rattle.std.specs.Prelude.{IfErr, IfOk, IsTrue, List, OnErr, OnOk, Some, [], length, map, slice_get, take, ℕ, ◌%◌, ◌*◌, ◌++◌, ◌+◌, ◌<◌, ◌^◌, ◌∷◌, ◌≡◌, ◌≤◌};
ghost use Rattle.tmw_cuts.specs.Turns.{change};
ghost use Rattle.tmw_cuts.specs.Views.{view, with_op, with_status};

use crate::operation_and_status::status_after;
use crate::turn::{self, Move, Turn};
use crate::txn::{MOST_TRANSACTIONS, Txn};
use tmw_defs::{Op, Status};
use tmw_events::{Event, Ix, Kind, MOST_THREADS, Registers};
use tmw_wellformed::{Malformed, Note};

/// The transactions of the events since the last cut, which are at most eight, and where each thread is. It holds no event, and no
/// operation.
#[derive(Debug, Drop)]
pub struct Window {
    /// The registers of the run.
    pub registers: Registers,
    turns: [Turn; MOST_THREADS],
    /// The places of the transactions.
    slots: [Txn; MOST_TRANSACTIONS],
    /// How many of them are used.
    count: u8,
    /// Those that have committed or aborted, as a mask.
    completed: u8,
    pub ghost few: { count ≤ 8 },
    pub ghost eight: { length slots ≡ 8 },
}

/// Fills the places before there is a transaction.
fn no_txns() -> [Txn; MOST_TRANSACTIONS]
    ensures { length result ≡ 8 }
{
    [
        Txn::new(Kind::X, 0),
        Txn::new(Kind::X, 0),
        Txn::new(Kind::X, 0),
        Txn::new(Kind::X, 0),
        Txn::new(Kind::X, 0),
        Txn::new(Kind::X, 0),
        Txn::new(Kind::X, 0),
        Txn::new(Kind::X, 0),
    ]
}

/// Puts transactions into these places that show the same as the first so many.
fn copy_txns(copied: &mut [Txn; MOST_TRANSACTIONS], slots: &[Txn; MOST_TRANSACTIONS], count: u8)
    requires few { count ≤ 8 }
    ensures shown { map view (take count copied.new) ≡ map view (take count slots.now) }
    ensures eight { length copied.new ≡ 8 }
{
    for place in 0..usize::from(count) {
        copied[place] = slots[place].copy();
    }
}

/// Gives the transaction at the place one more operation.
#[inline(always)]
fn put_op(slots: &mut [Txn; MOST_TRANSACTIONS], place: Ix, op: Op)
    ensures shown { (count : ℕ) → count ≤ 8 → map view (take count slots.new)
        ≡ change place.number (with_op op) (map view (take count slots.old)) }
    ensures eight { length slots.new ≡ 8 }
{
    slots[place.get() as usize].add(op);
}

/// Gives the transaction at the place this status.
#[inline(always)]
fn put_status(slots: &mut [Txn; MOST_TRANSACTIONS], place: Ix, status: Status)
    ensures shown { (count : ℕ) → count ≤ 8 → map view (take count slots.new)
        ≡ change place.number (with_status status) (map view (take count slots.old)) }
    ensures eight { length slots.new ≡ 8 }
{
    slots[place.get() as usize].put_status(status);
}

/// The mask of this place.
#[inline(always)]
fn bit_of(place: Ix) -> u8
    ensures { result ≡ 1 * 2 ^ place.number % 2 ^ 8 }
{
    1 << place.get()
}

/// Whether the event is a call on a register that the run does not have.
#[inline(always)]
fn lacks_register(registers: Registers, kind: Kind) -> bool
    ensures { result ≡ lacks_register registers.number kind }
{
    match kind {
        Kind::R(register) | Kind::W(register, _) | Kind::N(register, _) => {
            register.get() >= registers.get()
        }
        Kind::V(_) | Kind::K | Kind::T | Kind::C | Kind::X | Kind::A => false,
    }
}

impl Window {
    ghost use Rattle.tmw_events.specs.declared.event.Event.{Event};
    ghost use Rattle.tmw_defs.specs.Cuts.{is_cut};
    ghost use Rattle.tmw_defs.specs.History.{is_well_formed, transactions};
    ghost use Rattle.tmw_wellformed.specs.Faults.{Refuses};
    ghost use Rattle.tmw_wellformed.specs.Notes.{Notes};
    ghost use Rattle.tmw_cuts.specs.declared.turn.Move.TheVariants.{Answer, Ask, Begin, End};
    ghost use Rattle.tmw_cuts.specs.StandsFor.{Follows, IsNext, StandsFor, begun_by, completed_of, count_of, turn_at, views, views_of};

    /// Makes the window of no event.
    pub fn open(registers: Registers) -> Window
        ensures stands { StandsFor result [] }
        ensures registers { result.registers ≡ registers }
    {
        Window {
            registers,
            turns: [Turn::between(); MOST_THREADS],
            slots: no_txns(),
            count: 0,
            completed: 0,
        }
    }

    /// Returns how many transactions it has.
    #[inline(always)]
    pub fn count(&self) -> u8
        ensures shown { result ≡ count_of self.now }
        ensures stands { (events : List Event) → StandsFor self.now events
            → result ≡ length (transactions events) }
    {
        self.count
    }

    /// Tells whether each transaction has committed or aborted.
    #[inline(always)]
    pub fn is_cut(&self) -> bool
        ensures { (events : List Event) → StandsFor self.now events → result ≡ is_cut events }
    {
        u32::from(self.completed) + 1 == 1 << self.count
    }

    /// Tells whether each transaction has committed or aborted with the next event, which ends the one at the place.
    #[inline(always)]
    pub fn is_cut_with(&self, place: Ix) -> bool
        ensures { (events : List Event) (event : Event) → StandsFor self.now events
            → IsNext self.now event (End place) → result ≡ is_cut (events ++ event ∷ []) }
    {
        u32::from(self.completed | bit_of(place)) + 1 == 1 << self.count
    }

    /// Returns the transactions, in the order of their first events.
    #[inline(always)]
    pub fn transactions(&self) -> &[Txn]
        ensures shown { map view result.now ≡ views self.now }
        ensures stands { (events : List Event) → StandsFor self.now events
            → map view result.now ≡ views_of events }
        ensures few { length result.now ≤ 8 }
    {
        &self.slots[..self.count as usize]
    }

    /// Returns the place of the last transaction. The result counts only if there is one.
    #[inline(always)]
    pub fn last(&self) -> Ix
        ensures { 0 < count_of self.now → result.number + 1 ≡ count_of self.now }
    {
        Ix {
            number: self.count.saturating_sub(1),
        }
    }

    /// Returns the transaction at the place. The result counts only if there is one.
    #[inline(always)]
    pub fn slot(&self, place: Ix) -> &Txn
        ensures { place.number < count_of self.now
            → slice_get (views self.now) place.number ≡ Some (view result.now) }
    {
        &self.slots[place.get() as usize]
    }

    /// Returns where the thread is.
    #[inline(always)]
    pub fn turn_of(&self, thread: Ix) -> Turn
        ensures { result ≡ turn_at self.now thread.number }
    {
        self.turns[thread.get() as usize]
    }

    /// Returns what the next event is to its thread, if the events stay well-formed with it. A refusal names the first of the faults
    /// that the event has.
    #[inline(always)]
    pub fn next(&self, event: Event) -> Result<Move, Malformed>
        ensures ok { IfOk result (IsNext self.now event) }
        ensures err { IfErr result (λ fault. (registers : ℕ) (history : List Event)
            → Follows registers history self.now → Refuses registers history event fault) }
    {
        if lacks_register(self.registers, event.kind) {
            return Err(Malformed::Register);
        }
        self.turn_of(event.thread).next(event.kind)
    }

    /// Takes the next event, which begins a transaction, and returns its place.
    #[inline(always)]
    pub fn begin(&mut self, event: Event) -> Ix
        requires room { count_of self.old < 8 }
        ensures stands { (events : List Event) → StandsFor self.old events
            → IsNext self.old event Begin → StandsFor self.new (events ++ event ∷ []) }
        ensures place { result.number ≡ count_of self.old }
        ensures registers { self.new.registers ≡ self.old.registers }
    {
        let place = Ix { number: self.count };
        self.slots[place.get() as usize].begin(event.kind, self.completed);
        self.count += 1;
        turn::ask(&mut self.turns, event.thread, place, event.kind);
        place
    }

    /// Takes the next event, a call of the transaction at the place.
    #[inline(always)]
    pub fn ask(&mut self, event: Event, place: Ix)
        ensures stands { (events : List Event) → StandsFor self.old events
            → IsNext self.old event (Ask place) → StandsFor self.new (events ++ event ∷ []) }
        ensures registers { self.new.registers ≡ self.old.registers }
    {
        // One that goes on was live, and a call but a commit request leaves it so.
        if let Kind::T = event.kind {
            put_status(&mut self.slots, place, Status::Pending);
        }
        turn::ask(&mut self.turns, event.thread, place, event.kind);
    }

    /// Takes the next event, an answer of the transaction at the place, which makes this operation.
    #[inline(always)]
    pub fn answer(&mut self, event: Event, place: Ix, op: Op)
        ensures stands { (events : List Event) → StandsFor self.old events
            → IsNext self.old event (Answer place op) → StandsFor self.new (events ++ event ∷ []) }
        ensures registers { self.new.registers ≡ self.old.registers }
    {
        put_op(&mut self.slots, place, op);
        turn::go_on(&mut self.turns, event.thread);
    }

    /// Takes the next event, which ends the transaction at the place.
    #[inline(always)]
    pub fn end(&mut self, event: Event, place: Ix)
        ensures stands { (events : List Event) → StandsFor self.old events
            → IsNext self.old event (End place) → StandsFor self.new (events ++ event ∷ []) }
        ensures registers { self.new.registers ≡ self.old.registers }
    {
        put_status(&mut self.slots, place, status_after(event.kind));
        turn::end(&mut self.turns, event.thread);
        self.completed |= bit_of(place);
    }

    /// Takes the next event, which is this to its thread.
    #[inline(always)]
    pub fn take(&mut self, event: Event, step: Move)
        requires room { count_of self.old + begun_by step ≤ 8 }
        ensures stands { (events : List Event) → StandsFor self.old events
            → IsNext self.old event step → StandsFor self.new (events ++ event ∷ []) }
        ensures registers { self.new.registers ≡ self.old.registers }
    {
        match step {
            Move::Begin => {
                let _place = self.begin(event);
            }
            Move::Ask(place) => self.ask(event, place),
            Move::Answer(place, op) => self.answer(event, place, op),
            Move::End(place) => self.end(event, place),
        }
    }

    /// Takes the next event of a well-formed history. The note says whether it begins a transaction.
    pub fn push(&mut self, event: Event, note: Note)
        requires room { IsTrue note.begins → count_of self.old < 8 }
        ensures stands { (events : List Event) → StandsFor self.old events
            → IsTrue (is_well_formed self.old.registers.number (events ++ event ∷ []))
            → Notes events event note → StandsFor self.new (events ++ event ∷ []) }
        ensures registers { self.new.registers ≡ self.old.registers }
    {
        let Ok(step) = self.next(event) else {
            return;
        };
        if note.begins || !matches!(step, Move::Begin) {
            self.take(event, step);
        }
    }

    /// Forgets the transactions, but not where the threads are. At a cut all threads are between transactions.
    #[inline(always)]
    pub fn clear(&mut self)
        ensures stands { (events : List Event) → StandsFor self.old events → IsTrue (is_cut events)
            → StandsFor self.new [] }
        ensures registers { self.new.registers ≡ self.old.registers }
        ensures none { views self.new ≡ [] }
        ensures masks { completed_of self.new ≡ 0 }
        ensures turns { (thread : ℕ) → turn_at self.new thread ≡ turn_at self.old thread }
        ensures follows { (registers : ℕ) (history : List Event)
            → Follows registers history self.old → Follows registers history self.new }
    {
        self.count = 0;
        self.completed = 0;
    }

    /// Goes on to where the threads are after the next event, whatever transactions there are, if the history stays well-formed with
    /// it. A refusal changes nothing, and names the first of the faults that the event has.
    #[inline(always)]
    pub fn follow(&mut self, event: Event) -> Result<(), Malformed>
        ensures ok { OnOk result ((registers : ℕ) (history : List Event)
            → Follows registers history self.old
            → Follows registers (history ++ event ∷ []) self.new) }
        ensures err { IfErr result (λ fault. (registers : ℕ) (history : List Event)
            → Follows registers history self.old → Refuses registers history event fault) }
        ensures kept { OnErr result (self.new ≡ self.old) }
        ensures shown { views self.new ≡ views self.old }
        ensures masks { completed_of self.new ≡ completed_of self.old }
    {
        let step = self.next(event)?;
        match step {
            Move::Begin => turn::ask(&mut self.turns, event.thread, Ix { number: 0 }, event.kind),
            Move::Ask(place) => turn::ask(&mut self.turns, event.thread, place, event.kind),
            Move::Answer(_, _) => turn::go_on(&mut self.turns, event.thread),
            Move::End(_) => turn::end(&mut self.turns, event.thread),
        }
        Ok(())
    }

    /// Comes to stand for the same events as the other.
    pub fn copy_from(&mut self, other: &Window)
        ensures shown { views self.new ≡ views other.now }
        ensures stands { (events : List Event) → StandsFor other.now events
            → StandsFor self.new events }
        ensures registers { self.new.registers ≡ other.now.registers }
    {
        self.registers = other.registers;
        self.turns = other.turns;
        copy_txns(&mut self.slots, &other.slots, other.count);
        self.count = other.count;
        self.completed = other.completed;
    }

    /// Makes a window that stands for the same events.
    pub fn copy(&self) -> Window
        ensures shown { views result ≡ views self.now }
        ensures stands { (events : List Event) → StandsFor self.now events
            → StandsFor result events }
        ensures registers { result.registers ≡ self.now.registers }
    {
        let mut copied = Window::open(self.registers);
        copied.copy_from(self);
        copied
    }
}
