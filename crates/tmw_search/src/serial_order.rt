//! A serial order as a list. Nothing is claimed of it: who takes it has to check it.
use crate::node::Node;
use tmw_cuts::{MOST_TRANSACTIONS, State};

/// One transaction in an order, held or left out.
#[derive(Clone, Copy, Debug)]
pub struct SerialStep {
    pub place: usize,
    pub held: bool,
}

/// A serial order of transactions from a state. Step n is the one with n steps after it.
#[derive(Clone, Copy)]
pub struct SerialOrder {
    pub start: State,
    pub steps: [SerialStep; MOST_TRANSACTIONS],
}

/// An order of which the last steps are open.
#[derive(Clone, Copy)]
struct Listing {
    steps: [SerialStep; MOST_TRANSACTIONS],
    /// How many steps are open.
    open: usize,
    /// The transactions that are not listed, as a mask.
    left: u8,
}

/// Lists each transaction before which none is left.
fn list_free(node: &Node, listing: &mut Listing) {
    for place in 0..8usize {
        if listing.left >> place & 1 == 1
            && node.reach[place] & listing.left == 1 << place
            && listing.open > 0
        {
            listing.open -= 1;
            listing.left &= !(1 << place);
            if let Some(step) = listing.steps.get_mut(listing.open) {
                let held = node.held >> place & 1 == 1;
                *step = SerialStep { place, held };
            }
        }
    }
}

/// Lists the members of a node, each after those that precede it. Step n is the one with n steps after it.
pub fn steps_of(node: &Node) -> [SerialStep; MOST_TRANSACTIONS] {
    let mut listing = Listing {
        steps: [SerialStep {
            place: 0,
            held: false,
        }; MOST_TRANSACTIONS],
        open: node.members.count_ones() as usize,
        left: node.members,
    };
    for _pass in 0..8 {
        if listing.left != 0 {
            list_free(node, &mut listing);
        }
    }
    listing.steps
}
