//! The law of the smear: what its definition says of all pages at once.
ghost use Rattle.run_smear.specs.Smear.{SmearIsUnique};

/// States a law, and does nothing: a page has one smear by the same thresholds, so that `smear_alone` and `smear` have one answer.
pub fn smear_is_unique()
    ensures one_smear { SmearIsUnique }
{}
