//! The law of the words: what the definition of a plan says of all words at once.
ghost use Rattle.std.specs.Prelude.{◌≡◌, ℕ, List};
ghost use Rattle.command_words.specs.declared.plan.Plan.{Plan};
ghost use Rattle.command_words.specs.declared.plan.Program.{Program};
ghost use Rattle.command_words.specs.Plans.{HasPlan};

/// Words have one plan at most. It is a law of the definition, and does nothing.
pub fn words_have_one_plan()
    ensures one_plan { (program : Program) (words : List (List ℕ)) (p q : Plan)
        → HasPlan program words p → HasPlan program words q → p ≡ q }
{}
