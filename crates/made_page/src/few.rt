//! How many components a made page has.
ghost use Rattle.made_page.specs.Few.{MadePageHasFewComponents};

/// States a law, and does nothing: at most 1980 components of a made page are kept, whatever the seed
/// is. So no made page has too many.
pub fn made_page_has_few_components()
    ensures { MadePageHasFewComponents }
{}
