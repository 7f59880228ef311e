//! Laws of names, each as the contract of a function that does nothing.
ghost use Rattle.api_paths.specs.TransactionNames.{OneTransaction};

/// A text is the name of at most one transaction.
pub fn one_transaction()
    ensures { OneTransaction }
{}
