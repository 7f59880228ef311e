//! Laws of parameters, each as the contract of a function that does nothing.
ghost use Rattle.api_parts.specs.Laws.{OneSelection, OneContexts, OneFirstBad, BadOrSelection};

/// Parameters select one thing, and name one list of contexts.
pub fn one_selection()
    ensures selection { OneSelection }
    ensures contexts { OneContexts }
{}

/// At most one parameter is the first bad one, and there is none where the parameters select
/// something. So `read_selection` and `read_contexts` answer each cause exactly where it stands, but
/// for want of memory.
pub fn one_first_bad()
    ensures one { OneFirstBad }
    ensures apart { BadOrSelection }
{}
