use std::marker::Model;
use tmw_cuts::State;
use tmw_defs::Criterion;
use tmw_kept::Transaction;

/// What a reason speaks of: the transactions of a window, and the states from which and the criterion by which they have
/// no serial order.
#[derive(Drop)]
pub(crate) struct Question<'a> {
    pub criterion: Criterion,
    pub states: &'a [State],
    pub transactions: &'a [Transaction],
}

impl<'a> Model for Question<'a> {
    ghost use Rattle.tmw_reason.specs.ReasonSteps.{Asked};

    ghost Value = { Asked };

    ghost view = { λ q. record {
      criterion = q.criterion;
      states = q.states.now;
      transactions = q.transactions.now;
    } };
}
