//! The rule of a table with a frontier for each shard, and what the steps tell that take a turn and give it back.
ghost use Rattle.split_frontier.specs.Rule.{ShardsRule};
ghost use Rattle.split_frontier.specs.Steps.{TakesTurn, GivesTurn};
ghost use Rattle.split_frontier.specs.Views.{newcomer, standing, parting};

use crate::parked::Parked;
use crate::view::Rest;
use bound_word::NamesProblem;
use box_search::Space;
use frontier_turn::{Parted, Shares};

impl NamesProblem for Rest {
    ghost problem = { standing.problem };
}

impl Parted for Rest {
    ghost parting = { parting };
}

impl<S: Space> Shares<S, Option<Parked<S::Work>>> for Rest {
    ghost rule = { λ space. let p = S.problem space in ShardsRule p (S.admits p) (S.lies_in p) (S.fits p) };

    ghost first = { λ space. newcomer (S.problem space) };

    ghost takes = { TakesTurn S.fits };

    ghost gives = { GivesTurn };
}
