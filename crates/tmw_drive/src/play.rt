//! The threads of a workload in turn, as its order has it.
ghost use Rattle.tmw_drive.specs.Shared.{Plays, calls_of, kinds_of, script_at, scripts_of};
ghost use Rattle.std.specs.Prelude.{All, IfOk, OnOk, length, ◌<◌, ◌≡◌, ◌≤◌};
ghost use Rattle.tmw_drive.specs.Drive.{DoesEntry, Drives};
ghost use Rattle.tmw_drive.specs.Players.{AllEnd, AllNew, AllPlay};

use std::alloc::{AllocError, Global};
use tmw_events::{Event, Ix, Kind};
use tmw_tm::Tm;
use tmw_workers::{Ending, Player};

/// Makes a player for each of so many threads.
pub fn new_players(alloc: Global, count: u8) -> Result<Vec<Player>, AllocError>
    requires { count ≤ 8 }
    ensures { IfOk result (λ players. AllNew count players.items) }
{
    let mut players = Vec::with_capacity(alloc, usize::from(count))?;
    for number in 0..count {
        players.push(Player::new(Ix { number }))?;
    }
    Ok(players)
}

/// The player makes its next call, if one is left, and records it with its answer.
fn step(
    memory: &(dyn Tm + Sync),
    script: &[Vec<Kind>],
    player: &mut Player,
    log: &mut Vec<Event>,
) -> Result<(), AllocError>
    requires { Plays (gives memory.now) (calls_of script.now) player.old
        (kinds_of player.old.thread.number log.old.items) }
    ensures thread { player.new.thread ≡ player.old.thread }
    ensures plays { OnOk result
        (Plays (gives memory.now) (calls_of script.now) player.new
        (kinds_of player.old.thread.number log.new.items)) }
    ensures entry { OnOk result
        (DoesEntry (calls_of script.now) player.old.thread.number log.old.items log.new.items) }
{
    let Some(call) = player.next(script) else {
        return Ok(());
    };
    log.reserve(2)?;
    let thread = player.thread;
    log.push(Event { thread, kind: call })?;
    let answer = player.ask(memory, call);
    log.push(Event {
        thread,
        kind: answer,
    })?;
    player.go_on(answer);
    Ok(())
}

/// The thread of this number does its entry of the order.
fn enter(
    memory: &(dyn Tm + Sync),
    scripts: &[Vec<Vec<Kind>>],
    players: &mut [Player],
    entry: u8,
    log: &mut Vec<Event>,
) -> Result<(), AllocError>
    requires within { entry < length scripts.now }
    requires all { AllPlay (gives memory.now) (scripts_of scripts.now) players.old log.old.items }
    ensures all { OnOk result
        (AllPlay (gives memory.now) (scripts_of scripts.now) players.new log.new.items) }
    ensures entry { OnOk result
        (DoesEntry (script_at (scripts_of scripts.now) entry) entry log.old.items log.new.items) }
{
    let place = usize::from(entry);
    step(memory, &scripts[place], &mut players[place], log)
}

/// Makes the calls of the order, one after another: each entry is a thread, which makes its next call.
pub fn play(
    memory: &(dyn Tm + Sync),
    scripts: &[Vec<Vec<Kind>>],
    order: &[u8],
    players: &mut [Player],
    log: &mut Vec<Event>,
) -> Result<(), AllocError>
    requires within { All (λ thread. thread < length scripts.now) order.now }
    requires all { AllPlay (gives memory.now) (scripts_of scripts.now) players.old log.old.items }
    ensures all { OnOk result
        (AllPlay (gives memory.now) (scripts_of scripts.now) players.new log.new.items) }
    ensures drives { OnOk result
        (Drives (scripts_of scripts.now) log.old.items order.now log.new.items) }
{
    for entry in order {
        enter(memory, scripts, players, *entry, log)?;
    }
    Ok(())
}

/// Tells of each player, in order, whether it has a call left.
pub fn ends_of(
    alloc: Global,
    scripts: &[Vec<Vec<Kind>>],
    players: &[Player],
) -> Result<Vec<Ending>, AllocError>
    requires { length players.now ≡ length scripts.now }
    ensures { IfOk result (λ ends. AllEnd (scripts_of scripts.now) players.now ends.items) }
{
    let mut ends = Vec::with_capacity(alloc, players.len())?;
    for (place, player) in players.iter().enumerate() {
        ends.push(player.ending(&scripts[place]))?;
    }
    Ok(ends)
}
