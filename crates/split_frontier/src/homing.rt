//! How a lease ends at its home.
ghost use Rattle.std.specs.Prelude.{◌≡◌, ◌<◌, ◌∷◌, []};
ghost use Rattle.split_frontier.specs.Callers.{IsOwn};
ghost use Rattle.split_frontier.specs.Claims.{claim_of};

use crate::pass::SplitPass;
use crate::shards::Shards;
use box_search::{Lease, Space};
use std::sync::Wait;

impl<'s, S: Space> Shards<'s, S> {
    /// Takes the turn of a lease's home, and there ends the lease where it is spent, and opens its node again where it is
    /// not. It takes no memory, and may wait; what it promises holds if it returns.
    pub fn bring_home<R: Wait>(
        &self,
        rt: &R,
        pass: SplitPass<S>,
        home: u32,
        lease: Lease<S::Work>,
        is_spent: bool,
    ) -> SplitPass<S>
        requires own { IsOwn self.now pass }
        requires there { home < self.now.shards }
        requires named { pass.view.rest.leases ≡ claim_of home lease is_spent ∷ [] }
        requires fit { S.fits self.now.problem lease.node }
        ensures own { IsOwn self.now result }
        ensures parts { result.view.rest.parts ≡ pass.view.rest.parts }
        ensures unnamed { result.view.rest.leases ≡ [] }
    {
        let mut turn = self.enter(rt, pass, home);
        if is_spent {
            turn.end(lease);
            return turn.leave();
        }
        turn.reopen(lease);
        turn.leave()
    }
}
