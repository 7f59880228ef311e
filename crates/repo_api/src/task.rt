use journal::Txn;
use rdf_term::Text;

/// What is done with the statements of a document.
#[derive(Clone, Copy, Debug)]
pub enum Writing {
    /// They are added.
    Adds,
    /// They take the place of what is there.
    Replaces,
    /// They are removed.
    Removes,
}

/// What a method or an action asks of a repository, before its parameters and its body are read.
#[derive(Debug, Drop)]
pub enum Task {
    /// The answer of a query.
    Query(Option<Txn>),
    /// The quads that are selected.
    List(Option<Txn>),
    /// The number of quads.
    Size(Option<Txn>),
    /// The names of the graphs.
    Contexts,
    /// To write the statements of a document.
    Write(Option<Txn>, Writing),
    /// To remove what is selected.
    Remove,
    /// All namespaces.
    ListNames,
    /// To remove all namespaces.
    ClearNames,
    /// The namespace of a prefix.
    GetName(Text),
    /// To set the namespace of a prefix.
    PutName(Text),
    /// To remove the namespace of a prefix.
    RemoveName(Text),
    /// To begin a transaction.
    Begin,
    /// To commit a transaction.
    Commit(Txn),
    /// To end a transaction without its changes.
    Rollback(Txn),
    /// Whether a transaction is open.
    Ping(Txn),
}
