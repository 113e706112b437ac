ghost use Rattle.std.specs.Prelude.{◌≡◌, ◌<◌, ◌≤◌, [], List, IfSome, IfNone, IsTrue, false};
ghost use Rattle.std.specs.List.{Contains};
ghost use Rattle.tmw_events.specs.declared.event.Event.{Event};
ghost use Rattle.tmw_defs.specs.History.{transactions};
ghost use Rattle.tmw_defs.specs.Opaque.{State};
ghost use Rattle.tmw_defs.specs.Outcomes.{Ends};
ghost use Rattle.tmw_cuts.specs.StandsFor.{views_of};

use tmw_cuts::{MOST_TRANSACTIONS, State};

/// A serial order of the transactions of a window, told by ranks. Those that a completion takes as committed lead one after the other
/// from the state of each rank to that of the next; the others read the state of their rank.
#[derive(Clone, Copy, Debug)]
pub struct Witness {
    /// Whether such an order is known. Where it is not, the rest tells nothing.
    pub known: bool,
    /// The rank of each transaction.
    pub ranks: [u8; MOST_TRANSACTIONS],
    /// Whether the completion takes it as committed, so that it leads to the next rank.
    pub committed: [bool; MOST_TRANSACTIONS],
    /// The state at each rank.
    pub states: [State; 9],
    /// The highest rank.
    pub top: u8,
}

impl Witness {
    ghost use Rattle.tmw_witness.specs.Witness.{Witnesses, state_of};

    /// Makes the order of a window without a transaction, from this state.
    pub fn new(start: State) -> Witness
        ensures known { IsTrue result.known }
        ensures witnesses { (starts : List State) → Contains starts start
            → Witnesses starts [] result }
    {
        Witness {
            known: true,
            ranks: [0; 8],
            committed: [false; 8],
            states: [start; 9],
            top: 0,
        }
    }

    /// Begins anew, with a window without a transaction, from this state.
    pub fn restart(&mut self, start: &State)
        ensures known { IsTrue self.new.known }
        ensures witnesses { (starts : List State) → Contains starts start.now
            → Witnesses starts [] self.new }
    {
        self.known = true;
        self.states[0] = *start;
        self.top = 0;
    }

    /// Begins anew, with a window without a transaction, from the state in which the order ends.
    #[inline(always)]
    pub fn restart_at_end(&mut self)
        requires { self.old.top < 9 }
        ensures known { self.new.known ≡ self.old.known }
        ensures witnesses { (starts : List State)
            → Contains starts (state_of self.old self.old.top) → Witnesses starts [] self.new }
    {
        self.states[0] = self.states[usize::from(self.top)];
        self.top = 0;
    }

    /// Forgets the order.
    pub fn forget(&mut self)
        ensures { self.new.known ≡ false }
    {
        self.known = false;
    }

    /// Tells whether an order is known. If so, the window's transactions have an end state.
    #[inline(always)]
    pub fn is_known(&self) -> bool
        ensures shown { result ≡ self.now.known }
        ensures ends { (starts : List State) (events : List Event)
            → Witnesses starts (views_of events) self.now → IsTrue result
            → (end : State) × Ends (Contains starts) (transactions events) end }
    {
        self.known
    }

    /// Returns the state in which the order ends, if one is known.
    #[inline(always)]
    pub fn known_end(&self) -> Option<&State>
        ensures shown { IfSome result (λ end. IsTrue self.now.known × (self.now.top < 9)
            × (end.now ≡ state_of self.now self.now.top)) }
        ensures none { IfNone result (IsTrue self.now.known → 9 ≤ self.now.top) }
        ensures end { IfSome result (λ end. (starts : List State) (events : List Event)
            → Witnesses starts (views_of events) self.now
            → Ends (Contains starts) (transactions events) end.now) }
    {
        if !self.known {
            return None;
        }
        self.states.get(usize::from(self.top))
    }
}
