//! Judging what was recorded, by a watch's handle.
ghost use Rattle.tmw_c.specs.Shared.{watch_in};
ghost use Rattle.std.specs.Prelude.{◌≡◌, IfSome, IfNone};
ghost use Rattle.tmw_c.specs.Judge.{IsNotOpen, IsPumping, IsReporting, WasPumped, WasReported};
ghost use Rattle.tmw_c.specs.Summary.{IsSumming, WasSummed};

use crate::c_counts::CCounts;
use crate::c_verdict::CVerdict;
use crate::call_status::CallStatus;
use std::alloc::Global;
use tmw_handles::{HeldWatch, WatchHandle};

/// Judges up to `most` events by an open watch, and returns how many it has judged.
fn pump_held(held: &mut HeldWatch, most: u64) -> Option<u64>
    ensures some { IfSome result (λ judged. WasPumped most judged held.old held.new) }
    ensures none { IfNone result (IsNotOpen held.old × (held.new ≡ held.old)) }
{
    let HeldWatch::Open(watch) = held else {
        return None;
    };
    Some(watch.pump(most).judged)
}

/// Judges up to `most` events by what the handle holds, which it holds again afterwards. `judged` changes only if the
/// call succeeds.
pub fn pump(alloc: Global, watch: &mut WatchHandle, most: u64, judged: &mut u64) -> CallStatus
    ensures { IsPumping most (watch_in watch.old) (watch_in watch.new) judged.old judged.new
        result }
{
    let Some(mut held) = watch.take(alloc) else {
        return CallStatus::NoHandle;
    };
    let counted = pump_held(&mut held, most);
    *watch = WatchHandle::of(held);
    match counted {
        Some(count) => {
            *judged = count;
            CallStatus::Done
        }
        None => CallStatus::Closing,
    }
}

/// Returns the verdict on what an open watch has judged.
fn report_held(held: &HeldWatch) -> Option<CVerdict>
    ensures some { IfSome result (WasReported held.now) }
    ensures none { IfNone result (IsNotOpen held.now) }
{
    let HeldWatch::Open(watch) = held else {
        return None;
    };
    Some(CVerdict::of(watch.report()))
}

/// Reports on what the handle holds, which it holds again afterwards.
pub fn report(alloc: Global, watch: &mut WatchHandle, out: &mut CVerdict) -> CallStatus
    ensures { IsReporting (watch_in watch.old) (watch_in watch.new) out.old out.new result }
{
    let Some(held) = watch.take(alloc) else {
        return CallStatus::NoHandle;
    };
    let told = report_held(&held);
    *watch = WatchHandle::of(held);
    match told {
        Some(told) => {
            *out = told;
            CallStatus::Done
        }
        None => CallStatus::Closing,
    }
}

/// Returns what an open watch's judged events have shown.
fn summary_held(held: &HeldWatch) -> Option<CCounts>
    ensures some { IfSome result (WasSummed held.now) }
    ensures none { IfNone result (IsNotOpen held.now) }
{
    let HeldWatch::Open(watch) = held else {
        return None;
    };
    Some(CCounts::of(watch.summary()))
}

/// Counts what was judged by what the handle holds, which it holds again afterwards.
pub fn summary(alloc: Global, watch: &mut WatchHandle, out: &mut CCounts) -> CallStatus
    ensures { IsSumming (watch_in watch.old) (watch_in watch.new) out.old out.new result }
{
    let Some(held) = watch.take(alloc) else {
        return CallStatus::NoHandle;
    };
    let counted = summary_held(&held);
    *watch = WatchHandle::of(held);
    match counted {
        Some(counted) => {
            *out = counted;
            CallStatus::Done
        }
        None => CallStatus::Closing,
    }
}
