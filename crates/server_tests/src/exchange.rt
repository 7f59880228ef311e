//! Exchanges with a session in memory.
use rdf_io::{MemSink, MemSource};
use rdf_server::run_stdio;
use rdf_term::{Bytes, Memory, Text};
use std::alloc::Global;

/// A request and its answer: the method and the target, further fields, each with its line end, and the
/// body; the status, the fields and the body of the answer. A target that begins with a letter stands
/// behind the path of the repositories.
pub type Exchange = (
    &'static str,
    &'static str,
    &'static str,
    &'static str,
    &'static str,
    &'static str,
);

pub const QUADS: &str = "Content-Type: application/n-quads\r\n";

pub const TRIPLES: &str = "Content-Type: application/n-triples\r\n";

pub const TEXT: &str = "Content-Type: text/plain;charset=UTF-8\r\n";

pub const QUERY: &str = "Content-Type: application/sparql-query\r\n";

pub const RESULTS: &str = "Content-Type: application/sparql-results+json\r\n";

pub const OK: &str = "200 OK";

pub const NO_CONTENT: &str = "204 No Content";

pub const LINE: &str = "<http://e/s> <http://e/p> <http://e/o> .\n";

pub const ONE: &str = "<http://e/s> <http://e/p> \"1\" .\n";

/// The upload of a line.
pub const ADD: Exchange = ("POST r/statements", TRIPLES, LINE, NO_CONTENT, "", "");

/// The listing of that line.
pub const LIST: Exchange = ("GET r/statements", "", "", OK, QUADS, LINE);

/// The size of a repository of one quad.
pub const SIZE: Exchange = ("GET r/size", "", "", OK, TEXT, "1");

/// What a run answered: its status and the bytes that the sink took.
#[derive(Drop)]
pub struct Ran {
    pub status: u8,
    pub taken: String,
}

/// How a run's source and sink behave.
#[derive(Clone, Copy)]
pub struct Outside {
    /// The most bytes of each read, or 0 for all that fit.
    pub cut: usize,
    pub read_fails: Option<u64>,
    pub write_fails: Option<u64>,
}

pub const CALM: Outside = Outside {
    cut: 0,
    read_fails: None,
    write_fails: None,
};

fn listed(alloc: Global, number: Option<u64>) -> Result<Vec<u64>, Memory> {
    let mut numbers = Vec::new(alloc);
    if let Some(number) = number {
        numbers.push(number)?;
    }
    Ok(numbers)
}

pub fn run(alloc: Global, words: &[&str], input: &str, outside: Outside) -> Result<Ran, Memory> {
    let mut texts = Vec::new(alloc);
    for word in words {
        texts.push(Text::from_chars(alloc, word)?)?;
    }
    let mut bytes = Bytes::new(alloc);
    bytes.append(input.as_bytes())?;
    let cuts = if outside.cut == 0 {
        Vec::new(alloc)
    } else {
        vec![in alloc; outside.cut; input.len()]?
    };
    let mut source = MemSource::new(bytes, cuts, listed(alloc, outside.read_fails)?);
    let mut sink = MemSink::new(alloc, listed(alloc, outside.write_fails)?);
    let status = run_stdio(alloc, &texts, &mut source, &mut sink);
    Ok(Ran {
        status,
        taken: String::from_utf8_lossy(alloc, sink.taken())?,
    })
}

/// Whether a run of the input, whole and in single bytes, has this status and writes this.
pub fn is_run(
    alloc: Global,
    words: &[&str],
    input: &str,
    status: u8,
    want: &str,
) -> Result<bool, Memory> {
    let whole = run(alloc, words, input, CALM)?;
    let singly = run(alloc, words, input, Outside { cut: 1, ..CALM })?;
    let same = whole.taken.as_str() == want && singly.taken.as_str() == want;
    Ok(same && whole.status == status && singly.status == status)
}

/// A request of version 1.1 with a Host, and with its length where it has a body.
pub fn request(alloc: Global, line: &str, fields: &str, body: &str) -> Result<String, Memory> {
    let (method, target) = line.split_once(' ').unwrap_or((line, ""));
    let path = if target.starts_with('/') || target.starts_with("http:") {
        ""
    } else {
        "/rdf4j-server/repositories/"
    };
    let head = format!(in alloc; "{method} {path}{target} HTTP/1.1\r\nHost: h\r\n{fields}")?;
    if body.is_empty() {
        return Ok(format!(in alloc; "{head}\r\n")?);
    }
    let length = body.len();
    Ok(format!(in alloc; "{head}Content-Length: {length}\r\n\r\n{body}")?)
}

/// An answer after which the session goes on.
pub fn answer(alloc: Global, status: &str, fields: &str, body: &str) -> Result<String, Memory> {
    if status == NO_CONTENT {
        return Ok(format!(in alloc; "HTTP/1.1 {status}\r\n{fields}\r\n")?);
    }
    let length = body.len();
    Ok(format!(in alloc; "HTTP/1.1 {status}\r\n{fields}Content-Length: {length}\r\n\r\n{body}")?)
}

/// The refusal of a frame, which ends the session.
pub fn last_answer(alloc: Global, status: &str, text: &str) -> Result<String, Memory> {
    let length = text.len();
    Ok(format!(in alloc;
        "HTTP/1.1 {status}\r\n{TEXT}Content-Length: {length}\r\nConnection: close\r\n\r\n{text}"
    )?)
}

/// The bytes of these requests, and those of their answers.
#[derive(Drop)]
pub struct Texts {
    pub input: String,
    pub want: String,
}

impl Texts {
    pub fn new(alloc: Global) -> Texts {
        Texts {
            input: String::new(alloc),
            want: String::new(alloc),
        }
    }

    /// Adds a request and its answer.
    pub fn add(&mut self, alloc: Global, exchange: Exchange) -> Result<(), Memory> {
        let (line, fields, body, status, answered, text) = exchange;
        self.input
            .push_str(request(alloc, line, fields, body)?.as_str())?;
        self.want
            .push_str(answer(alloc, status, answered, text)?.as_str())?;
        Ok(())
    }
}

/// The bytes of these requests, and those of their answers.
pub fn texts_of(alloc: Global, exchanges: &[Exchange]) -> Result<Texts, Memory> {
    let mut texts = Texts::new(alloc);
    for exchange in exchanges {
        texts.add(alloc, *exchange)?;
    }
    Ok(texts)
}

/// Whether these requests on empty repositories are answered so, whole and in single bytes, and the
/// session is done.
pub fn is_session(alloc: Global, words: &[&str], exchanges: &[Exchange]) -> Result<bool, Memory> {
    let texts = texts_of(alloc, exchanges)?;
    is_run(alloc, words, texts.input.as_str(), 0, texts.want.as_str())
}
