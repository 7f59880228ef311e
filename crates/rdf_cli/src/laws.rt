//! Laws of the words, as the contract of a function that does nothing.
ghost use Rattle.rdf_cli.specs.Laws.{EachCanBeNamed, OnlyTheseAreNamed};

/// By some words each server of characters from `!` to `~` is named with each ID, and by no words anything
/// else.
pub fn what_words_name()
    ensures each { EachCanBeNamed }
    ensures only { OnlyTheseAreNamed }
{}
