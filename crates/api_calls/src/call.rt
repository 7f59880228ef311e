use journal::Op;
use media::Form;
use rdf_term::Text;

/// What a request asks.
#[derive(Debug)]
pub enum Call {
    /// The version of the protocol.
    Protocol,
    /// The list of the repositories, in this form.
    Repositories(Form),
    /// An op on a repository, whose reply is given in this form; what has no form of its own has plain
    /// text. A query is a Read here, also where it makes several entries.
    On { repo: Text, op: Op, form: Form },
}

// By hand, since a derived drop is expanded down to each text wherever a call is let go.
impl Drop for Call {
    fn drop(self) {
        match self {
            Call::Protocol => {}
            Call::Repositories(_) => {}
            Call::On { repo, op, form: _ } => {
                drop(repo);
                drop(op);
            }
        }
    }
}
