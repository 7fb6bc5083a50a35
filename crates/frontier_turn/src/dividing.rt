//! How the passes of a search are cut in two and made one again.
ghost use Rattle.std.specs.Prelude.{◌≡◌, ◌≤◌};

use bound_word::BoundWord;

/// A search of many passes, in which one can be cut in two and two be made one, each in one atomic step.
pub trait DividesPasses: BoundWord {
    ghost use Rattle.atomic_table.specs.Seated.{TableId};
    ghost use Rattle.bound_word.specs.declared.view.View.{View};
    ghost use Rattle.frontier_turn.specs.Sharing.{Standing, Parting};

    // the name of the table of a pass
    ghost table_of: { Self.Pass → TableId };

    // what a pass knows
    ghost view_of: { Self.Pass → View Self.Rest };

    // what all steps ask of the rest of a view
    ghost standing: { Standing Self.Rest };

    // how views are cut in two and made one
    ghost parting: { Parting Self.Rest };

    /// Cuts a pass in two. The second pass has half of the parts, rounded down, has seen what the first has seen, and
    /// names no lease. Neither holds a turn. It takes no memory.
    fn split(&self, pass: &mut Self::Pass) -> Self::Pass
        requires own { Self.is_own self.now pass.old }
        requires parts { 2 ≤ standing.parts (view_of pass.old).rest }
        ensures first_table { table_of pass.new ≡ table_of pass.old }
        ensures first { view_of pass.new ≡ parting.left (view_of pass.old) }
        ensures second_table { table_of result ≡ table_of pass.old }
        ensures second { view_of result ≡ parting.right (view_of pass.old) };

    /// Takes back a pass that names no lease. The pass that remains has the parts of both, and has seen the greater of
    /// what the two have seen. It takes no memory.
    fn join(&self, pass: &mut Self::Pass, other: Self::Pass)
        requires own { Self.is_own self.now pass.old }
        requires other { Self.is_own self.now other }
        requires unnamed { standing.is_free (view_of other).rest }
        ensures table { table_of pass.new ≡ table_of pass.old }
        ensures view { view_of pass.new ≡ parting.both (view_of pass.old) (view_of other) };
}
