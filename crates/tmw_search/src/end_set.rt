ghost use Rattle.tmw_search.specs.Shared.{HasRoom, members, room_of};
ghost use Rattle.std.specs.Prelude.{IfOk, IsFalse, IsTrue, [], length, ◌<◌, ◌≡◌, ◌≤◌};
ghost use Rattle.tmw_search.specs.LastWriters.{Adds};

use std::alloc::{AllocError, Global};
use tmw_cuts::{State, States};

/// The ends that a search has found, each of them often. It takes all its memory when it is made.
#[derive(Debug, Drop)]
pub struct EndSet {
    pub ends: States,
    /// They are few if they are at most so many.
    pub cap: u8,
    /// Where an end may stand, by the slot that it is added with: a guess, of which nothing is claimed.
    guesses: [u8; 64],
    pub ghost room: { HasRoom ends },
    pub ghost most: { cap < room_of ends },
}

impl EndSet {
    /// Makes the set of no end, with room for more than `cap`.
    pub fn none(alloc: Global, cap: u8) -> Result<EndSet, AllocError>
        ensures ends { IfOk result (λ found. members found.ends ≡ []) }
        ensures room { IfOk result (λ found. cap < room_of found.ends) }
    {
        Ok(EndSet {
            ends: States::roomy(alloc, cap)?,
            cap,
            guesses: [0; 64],
        })
    }

    /// Forgets the ends. They are now few if they are at most `cap`.
    pub fn begin(&mut self, cap: u8)
        requires { cap < room_of self.old.ends }
        ensures ends { members self.new.ends ≡ [] }
        ensures cap { self.new.cap ≡ cap }
    {
        self.ends.clear();
        self.cap = cap;
        self.guesses = [0; 64];
    }

    /// Adds the end, unless it is one of them or they are too many. Returns whether they are few. Is fastest if equal
    /// ends come with the same number, and others not.
    #[inline(always)]
    pub fn add(&mut self, end: &State, number: u64) -> bool
        ensures adds { Adds result (members self.old.ends) (members self.new.ends) (λ e. e ≡ end.now) }
        ensures cap { self.new.cap ≡ self.old.cap }
        ensures few { IsTrue result → length (members self.new.ends) ≤ self.new.cap }
        ensures more { IsFalse result → self.old.cap < length (members self.new.ends) }
    {
        if !self.are_few() {
            return false;
        }
        let slot = (number % 64) as usize;
        let place = (self.ends.len() % 256) as u8;
        if self.ends.push(end) {
            self.guesses[slot] = place;
            return self.are_few();
        }
        if let Some(held) = self.ends.get(self.guesses[slot] as usize) {
            if held == *end {
                return true;
            }
        }
        self.guesses[slot] = place;
        let _room = self.ends.insert(*end);
        self.are_few()
    }

    /// Tells whether they are at most `cap`.
    #[inline(always)]
    pub fn are_few(&self) -> bool
        ensures few { IsTrue result → length (members self.now.ends) ≤ self.now.cap }
        ensures more { IsFalse result → self.now.cap < length (members self.now.ends) }
    {
        self.ends.len() <= self.cap as usize
    }
}
