//! One caller of a split search.
use crate::parked::Parked;
use crate::view::View;
use atomic_table::Seat;
use box_search::Space;
use std::marker::Model;

/// One caller of a split search. It has no bytes, and holds no turn: while it does, it is in a `SplitTurn`.
#[derive(Drop)]
pub struct SplitPass<S: Space> {
    pub(crate) seat: Seat<Option<Parked<S::Work>>, View>,
}

impl<S: Space> Model for SplitPass<S> {
    ghost use Rattle.split_frontier.specs.Callers.{ShardsPass, IsIdlePass};

    ghost Value = { ShardsPass };

    ghost view = { λ pass. record { table_id = pass.seat.table_id; view = pass.seat.me.0 } };

    ghost invariant = { λ pass. IsIdlePass pass.seat.me };
}
