ghost use Rattle.std.specs.Prelude.{◌≡◌, nat_eq, codes};
ghost use Rattle.std.specs.Str.{bytes_eq};
ghost use Rattle.client_script.specs.Verbs.{is_nothing, plain_verb, verb_of};

/// The kind of a line of a script, by the word that it begins with.
#[derive(Clone, Copy, Debug)]
pub enum Verb {
    Nothing,
    Begin,
    Add,
    Remove,
    Query,
    List,
    Size,
    Contexts,
    Namespaces,
    Prefix,
    Ping,
    Commit,
    Rollback,
    Quit,
}

/// Whether a line is empty or a comment.
fn is_nothing(line: &[u8]) -> bool
    ensures { result ≡ is_nothing line.now }
{
    match line {
        [] => true,
        [first, ..] => *first == b'#',
    }
}

/// The kind of a line that is a word alone.
fn plain_verb(line: &[u8]) -> Option<Verb>
    ensures { result ≡ plain_verb line.now }
{
    if line == b"list".as_slice() {
        return Some(Verb::List);
    }
    if line == b"size".as_slice() {
        return Some(Verb::Size);
    }
    if line == b"contexts".as_slice() {
        return Some(Verb::Contexts);
    }
    if line == b"namespaces".as_slice() {
        return Some(Verb::Namespaces);
    }
    if line == b"ping".as_slice() {
        return Some(Verb::Ping);
    }
    if line == b"commit".as_slice() {
        return Some(Verb::Commit);
    }
    if line == b"rollback".as_slice() {
        return Some(Verb::Rollback);
    }
    if line == b"quit".as_slice() {
        return Some(Verb::Quit);
    }
    None
}

/// The kind of a line, by its word and the space behind that where it has a rest.
pub fn verb_of(line: &[u8]) -> Option<Verb>
    ensures { result ≡ verb_of line.now }
{
    if is_nothing(line) {
        return Some(Verb::Nothing);
    }
    if line.starts_with(b"begin ") {
        return Some(Verb::Begin);
    }
    if line.starts_with(b"add ") {
        return Some(Verb::Add);
    }
    if line.starts_with(b"remove ") {
        return Some(Verb::Remove);
    }
    if line.starts_with(b"query ") {
        return Some(Verb::Query);
    }
    if line.starts_with(b"prefix ") {
        return Some(Verb::Prefix);
    }
    plain_verb(line)
}
