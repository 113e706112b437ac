ghost use Rattle.tmw_workloads.specs.Shared.{FitsKind, is_operation, is_request, is_transaction, list_all, view};
ghost use Rattle.std.specs.Prelude.{IfNone, IfSome, ◌≡◌};
ghost use Rattle.tmw_workloads.specs.Json.{call_data};
ghost use Rattle.tmw_workloads.specs.WorkloadParts.{IsNoPart};

use serde_json::Value;
use tmw_events::{Kind, Registers, kind_of};

/// The kind whose text the value is, be it a call or not.
pub(crate) fn read_kind(content: &Value) -> Option<Kind>
    ensures some { IfSome result (λ kind. view content.now ≡ call_data kind) }
    ensures fits { IfSome result FitsKind }
    ensures none { IfNone result (IsNoPart call_data FitsKind (view content.now)) }
{
    let Some(text) = content.as_str() else {
        return None;
    };
    kind_of(text.as_bytes())
}

/// These are the calls of a transaction over so many registers: operations, and then a request.
pub(crate) fn is_transaction(registers: Registers, calls: &[Kind]) -> bool
    ensures { result ≡ is_transaction registers.number calls.now }
{
    match calls.split_last() {
        Some((last, others)) => { are_operations(registers, others) && is_request(*last) }
        None => false,
    }
}

/// Each of these is an operation.
fn are_operations(registers: Registers, calls: &[Kind]) -> bool
    ensures { result ≡ list_all (is_operation registers.number) calls.now }
{
    calls.iter().all(|call| is_operation(registers, *call))
}

/// The kind is a call that reads, writes or adds to one of so many registers.
fn is_operation(registers: Registers, kind: Kind) -> bool
    ensures { result ≡ is_operation registers.number kind }
{
    match kind {
        Kind::R(register) | Kind::W(register, _) | Kind::N(register, _) => {
            register.get() < registers.get()
        }
        _ => false,
    }
}

/// The kind is a commit request or an abort request.
fn is_request(kind: Kind) -> bool
    ensures { result ≡ is_request kind }
{
    match kind {
        Kind::T | Kind::X => true,
        _ => false,
    }
}
