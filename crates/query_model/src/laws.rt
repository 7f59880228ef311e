ghost use Rattle.query_model.specs.Depends.{FoundInEachView, FoundInOneView};
ghost use Rattle.query_model.specs.FoundValid.{FewLookups, FoundIsValid};
ghost use Rattle.query_model.specs.Laws.{EachSolutionOnce, RowsOfSolutions, TriplesOfSolutions, TruthOfSolutions};

/// A row is among the solutions of patterns exactly once where it has a place for each unknown and the
/// instance that it makes of each pattern is in the pattern's view, and else not at all.
pub fn each_solution_once()
    ensures { EachSolutionOnce }
{}

/// A row stands among those of a SELECT, before OFFSET and LIMIT, as often as there are solutions that
/// give it, and with DISTINCT once where there is one.
pub fn rows_of_solutions()
    ensures { RowsOfSolutions }
{}

/// An ASK is true where some row is a solution, and only there.
pub fn truth_of_solutions()
    ensures { TruthOfSolutions }
{}

/// A triple is among those of a CONSTRUCT where a pattern of the template makes it of one of the
/// solutions that OFFSET and LIMIT leave, and only there.
pub fn triples_of_solutions()
    ensures { TriplesOfSolutions }
{}

/// Over two views that have the same of the quads that an observed pattern of a query matches, the
/// same is found.
pub fn found_in_one_view()
    ensures { FoundInOneView }
{}

/// Over one view for each triple pattern of a query, the same is found where the views of each
/// pattern have the same of the quads that its observed pattern matches.
pub fn found_in_each_view()
    ensures { FoundInEachView }
{}

/// What is found for a well-formed query over views of valid quads has valid terms alone, and each row
/// has one place for each variable.
pub fn found_is_valid()
    ensures { FoundIsValid }
{}

/// A well-formed query looks up at most 256 patterns.
pub fn few_lookups()
    ensures { FewLookups }
{}
