//! Where a thread is between its events, and what its next event is.
ghost use Rattle.tmw_cuts.specs.Shared.{Ix, Kind, asks};
ghost use Rattle.std.specs.Prelude.{IsFalse, IsTrue, None, Option, Some, ◌≡◌};
ghost use Rattle.tmw_cuts.specs.declared.turn.Move.TheVariants.{Begin};
ghost use Rattle.tmw_cuts.specs.StandsFor.{begun_by};
ghost use Rattle.tmw_cuts.specs.Turns.{Turns, after_call, end_at, kept_in, kept_of};

use tmw_defs::Op;
use tmw_events::{Ix, Kind, MOST_THREADS};
use tmw_wellformed::Malformed;

/// What of a thread is open or pending.
#[derive(Clone, Copy, PartialEq, Eq, Debug)]
pub enum Stage {
    /// It has no open transaction.
    Between,
    /// It has one, and no pending call.
    Within,
    /// A read is pending.
    Reading,
    /// An add is pending.
    Adding,
    /// A write is pending.
    Writing,
    /// A commit request is pending.
    Committing,
    /// An abort request is pending.
    Aborting,
}

/// Where a thread is: the place of its open transaction in the window, and its pending call. What the stage has no use for may hold
/// anything, so that an event stores few fields.
#[derive(Clone, Copy, Debug)]
pub struct Turn {
    pub stage: Stage,
    /// The place of the open transaction.
    pub place: Ix,
    /// The register of the pending read, add or write.
    pub register: Ix,
    /// The value of the pending add or write.
    pub value: u64,
}

/// What an event is to its thread.
#[derive(Clone, Copy, PartialEq, Eq, Debug)]
pub enum Move {
    /// It begins a transaction.
    Begin,
    /// It is a call of the transaction at the place.
    Ask(Ix),
    /// It answers a call of the transaction at the place, which makes this operation.
    Answer(Ix, Op),
    /// It ends the transaction at the place.
    End(Ix),
}

impl Move {
    /// Tells whether the event begins a transaction.
    #[inline(always)]
    pub fn begins(self) -> bool
        ensures begins { IsTrue result → self ≡ Begin }
        ensures others { IsFalse result → begun_by self ≡ 0 }
    {
        matches!(self, Move::Begin)
    }
}

impl Turn {
    /// Makes the turn of a thread that has no open transaction.
    pub fn between() -> Turn
        ensures { kept_in result ≡ None }
    {
        Turn {
            stage: Stage::Between,
            place: Ix { number: 0 },
            register: Ix { number: 0 },
            value: 0,
        }
    }

    /// Returns what an event of this kind is to the thread, or its fault. Whether a call's register is one of the run's is
    /// tested elsewhere.
    #[inline(always)]
    pub fn next(self, kind: Kind) -> Result<Move, Malformed>
        ensures { result ≡ after_call (kept_in self) kind }
    {
        match self.stage {
            Stage::Between if asks(kind) => Ok(Move::Begin),
            Stage::Within if asks(kind) => Ok(Move::Ask(self.place)),
            Stage::Between | Stage::Within => Err(Malformed::Idle),
            Stage::Reading => match kind {
                Kind::V(value) => Ok(Move::Answer(self.place, Op::Read(self.register, value))),
                _ => end_at(self.place, kind),
            },
            Stage::Adding => match kind {
                Kind::V(value) => Ok(Move::Answer(
                    self.place,
                    Op::Add(self.register, self.value, value),
                )),
                _ => end_at(self.place, kind),
            },
            Stage::Writing => match kind {
                Kind::K => Ok(Move::Answer(self.place, Op::Write(self.register, self.value))),
                _ => end_at(self.place, kind),
            },
            Stage::Committing => match kind {
                Kind::C => Ok(Move::End(self.place)),
                _ => end_at(self.place, kind),
            },
            Stage::Aborting => end_at(self.place, kind),
        }
    }

    /// Goes on to the pending call of the transaction at the place.
    #[inline(always)]
    fn ask(&mut self, place: Ix, call: Kind)
        ensures { IsTrue (asks call) → kept_in self.new ≡ Some (place, Some call) }
    {
        self.place = place;
        match call {
            Kind::R(register) => {
                self.stage = Stage::Reading;
                self.register = register;
            }
            Kind::N(register, added) => {
                self.stage = Stage::Adding;
                self.register = register;
                self.value = added;
            }
            Kind::W(register, value) => {
                self.stage = Stage::Writing;
                self.register = register;
                self.value = value;
            }
            Kind::T => self.stage = Stage::Committing,
            Kind::X => self.stage = Stage::Aborting,
            _ => {}
        }
    }

    /// Goes on to no pending call.
    #[inline(always)]
    fn go_on(&mut self)
        ensures { (place : Ix) (call : Option Kind) → kept_in self.old ≡ Some (place, call)
            → kept_in self.new ≡ Some (place, None) }
    {
        self.stage = Stage::Within;
    }
}

/// Takes a call of the thread's transaction, which is at the place.
#[inline(always)]
pub(crate) fn ask(turns: &mut [Turn; MOST_THREADS], thread: Ix, place: Ix, call: Kind)
    ensures { IsTrue (asks call) → Turns turns.old turns.new thread (Some (place, Some call)) }
{
    turns[thread.get() as usize].ask(place, call);
}

/// Takes the answer to the thread's pending call.
#[inline(always)]
pub(crate) fn go_on(turns: &mut [Turn; MOST_THREADS], thread: Ix)
    ensures { (place : Ix) (call : Option Kind) → kept_of turns.old thread.number ≡ Some (place, call)
        → Turns turns.old turns.new thread (Some (place, None)) }
{
    turns[thread.get() as usize].go_on();
}

/// Takes the end of the thread's transaction.
#[inline(always)]
pub(crate) fn end(turns: &mut [Turn; MOST_THREADS], thread: Ix)
    ensures { Turns turns.old turns.new thread None }
{
    turns[thread.get() as usize].stage = Stage::Between;
}

/// Whether an event of this kind is a call.
#[inline(always)]
fn asks(kind: Kind) -> bool
    ensures { result ≡ asks kind }
{
    matches!(
        kind,
        Kind::R(_) | Kind::N(_, _) | Kind::W(_, _) | Kind::T | Kind::X
    )
}

/// What an event of this kind is where a call is pending that it does not answer, unless it aborts the transaction at the place.
#[inline(always)]
fn end_at(place: Ix, kind: Kind) -> Result<Move, Malformed>
    ensures { result ≡ end_at place kind }
{
    if asks(kind) {
        Err(Malformed::Busy)
    } else if matches!(kind, Kind::A) {
        Ok(Move::End(place))
    } else {
        Err(Malformed::Mismatch)
    }
}
