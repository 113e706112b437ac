//! A call is made of the memory, and what is recorded of its answer.
ghost use Rattle.tmw_workers.specs.Shared.{A, Gives, Stands, answers, did_answer, ends};
ghost use Rattle.std.specs.Prelude.{IsTrue, ◌≡◌};
ghost use Rattle.tmw_workers.specs.FreshTx.{IsFresh};
ghost use Rattle.tmw_tm.specs.Answers.Call.{Begin};
ghost use Rattle.tmw_tm.specs.declared.answer.Did.TheVariants.{Abort};

use tmw_events::Kind;
use tmw_tm::{Did, Got, Tm, Tx};

/// Makes the call with this transaction, and returns the event that answers it. Before the first call of a transaction
/// it begins the transaction; if the memory does not, the call is not made.
pub fn ask(memory: &(dyn Tm + Sync), tx: &mut Tx, first: bool, call: Kind) -> Kind
    requires fresh { IsTrue first → IsFresh tx.old }
    // An abort event may answer each call, and nothing but a call.
    requires call { IsTrue (answers call A) }
    ensures fits { IsTrue (answers call result) }
    ensures stands { Stands (gives memory.now) first call result }
{
    match begin_first(memory, tx, first) {
        Did::Done => make(memory, tx, call),
        Did::Abort => Kind::A,
    }
}

/// Begins the transaction before its first call. A later call finds it begun.
fn begin_first(memory: &(dyn Tm + Sync), tx: &mut Tx, first: bool) -> Did
    ensures asked { IsTrue first → gives memory.now Begin (did_answer result) }
    ensures later { result ≡ Abort → IsTrue first }
{
    if first { memory.begin(tx) } else { Did::Done }
}

/// Makes the call and answers the event that answers it.
fn make(memory: &(dyn Tm + Sync), tx: &mut Tx, call: Kind) -> Kind
    requires { IsTrue (answers call A) }
    ensures fits { IsTrue (answers call result) }
    ensures stands { Gives (gives memory.now) call result }
{
    match call {
        Kind::R(register) => match memory.read(tx, register) {
            Got::Value(value) => Kind::V(value),
            Got::Abort => Kind::A,
        },
        Kind::W(register, value) => match memory.write(tx, register, value) {
            Did::Done => Kind::K,
            Did::Abort => Kind::A,
        },
        Kind::N(register, addend) => match memory.add(tx, register, addend) {
            Got::Value(value) => Kind::V(value),
            Got::Abort => Kind::A,
        },
        Kind::T => match memory.commit(tx) {
            Did::Done => Kind::C,
            Did::Abort => Kind::A,
        },
        // An abort request, the only call that is left.
        _ => {
            memory.abort(tx);
            Kind::A
        }
    }
}

/// Tells whether the answer ends its transaction.
pub fn ends(answer: Kind) -> bool
    ensures { result ≡ ends answer }
{
    matches!(answer, Kind::C | Kind::A)
}
