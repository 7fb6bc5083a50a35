//! The law of words: what their definition says of all lists of words at once.
ghost use Rattle.word_split.specs.Words.{WordsAreUnique};

/// States a law, and does nothing: the members of a line have one list of words, in whatever order they are named, so that
/// `word_boxes` has one answer.
pub fn words_are_unique()
    ensures one_list { WordsAreUnique }
{}
