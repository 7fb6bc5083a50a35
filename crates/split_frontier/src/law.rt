//! The law of the split search: what holds between any two of its steps.
ghost use Rattle.split_frontier.specs.Law.{BeginsByRule, TakeKeepsRule, GiveKeepsRule, OthersKeepRule};

use box_search::Space;

/// The law of the split search. Its rule, the seven clauses of `ShardsRule`, holds as a search begins, and whichever
/// pass makes whichever step next, the rule holds after it. So it holds between any two steps of any number of passes,
/// in every order, for any number of shards. It states this, and does nothing.
pub fn each_step_keeps_the_rule<S: Space>()
    ensures begins { BeginsByRule S.admits S.lies_in S.fits }
    ensures take { TakeKeepsRule S.admits S.lies_in S.fits }
    ensures give { GiveKeepsRule S.admits S.lies_in S.fits }
    ensures others { OthersKeepRule S.admits S.lies_in S.fits }
{}
