//! The client in memory.
ghost use Rattle.std.specs.Prelude.{◌≡◌, IfOk};

use api_replies::is_id;
use rdf_cli::run_client;
use rdf_client::{ClientEnd, is_host, run_script};
use rdf_io::{MemDial, MemSink, MemSource};
use rdf_server::run_stdio;
use rdf_term::{Bytes, Memory, Text};
use std::alloc::Global;

pub const WORDS: [&str; 4] = ["--server", "h:1", "--repository", "r"];

/// The words of a server with that repository.
pub const SERVED: [&str; 2] = ["stdio", "r"];

/// What a run answered: its status, the bytes that it sent, where its link was handed back, and what it
/// printed.
#[derive(Drop)]
pub struct Ran {
    pub status: u8,
    pub sent: Option<String>,
    pub printed: String,
}

impl Ran {
    pub fn is(&self, status: u8, printed: &str) -> bool {
        self.status == status && self.printed.as_str() == printed
    }
}

/// How the ends around a client behave.
#[derive(Clone, Copy)]
pub struct Outside {
    /// The most bytes of each read, or 0 for all that fit.
    pub cut: usize,
    pub dial_fails: Option<u64>,
    pub input_fails: Option<u64>,
    pub source_fails: Option<u64>,
    pub sink_fails: Option<u64>,
    pub out_fails: Option<u64>,
}

pub const CALM: Outside = Outside {
    cut: 0,
    dial_fails: None,
    input_fails: None,
    source_fails: None,
    sink_fails: None,
    out_fails: None,
};

fn listed(alloc: Global, number: Option<u64>) -> Result<Vec<u64>, Memory> {
    let mut numbers = Vec::new(alloc);
    if let Some(number) = number {
        numbers.push(number)?;
    }
    Ok(numbers)
}

fn source(alloc: Global, bytes: &[u8], cut: usize, fails: Option<u64>) -> Result<MemSource, Memory>
    ensures { IfOk result (λ it. (it.calls ≡ 0) × (it.count ≡ 0)) }
{
    let mut all = Bytes::new(alloc);
    all.append(bytes)?;
    let cuts = if cut == 0 {
        Vec::new(alloc)
    } else {
        vec![in alloc; cut; bytes.len()]?
    };
    Ok(MemSource::new(all, cuts, listed(alloc, fails)?))
}

fn texts(alloc: Global, words: &[&str]) -> Result<Vec<Text>, Memory> {
    let mut texts = Vec::new(alloc);
    for word in words {
        texts.push(Text::from_chars(alloc, word)?)?;
    }
    Ok(texts)
}

/// A run with these words.
pub fn run_words(
    alloc: Global,
    words: &[&str],
    script: &[u8],
    responses: &[u8],
    outside: Outside,
) -> Result<Ran, Memory> {
    let words = texts(alloc, words)?;
    let mut input = source(alloc, script, outside.cut, outside.input_fails)?;
    let answers = source(alloc, responses, outside.cut, outside.source_fails)?;
    let sink = MemSink::new(alloc, listed(alloc, outside.sink_fails)?);
    let mut dial = MemDial::new((answers, sink), listed(alloc, outside.dial_fails)?);
    let mut out = MemSink::new(alloc, listed(alloc, outside.out_fails)?);
    let status = run_client(alloc, &words, &mut dial, &mut input, &mut out);
    let sent = match dial.taken(0) {
        Some(bytes) => Some(String::from_utf8_lossy(alloc, bytes)?),
        None => None,
    };
    Ok(Ran {
        status,
        sent,
        printed: String::from_utf8_lossy(alloc, out.taken())?,
    })
}

/// A run of a script on the repository `r` over these responses.
pub fn run(alloc: Global, script: &str, responses: &str, outside: Outside) -> Result<Ran, Memory> {
    run_words(
        alloc,
        &WORDS,
        script.as_bytes(),
        responses.as_bytes(),
        outside,
    )
}

/// How a script ended that was run without words, and what it sent and printed.
#[derive(Drop)]
pub struct Direct {
    pub end: ClientEnd,
    pub sent: String,
    pub printed: String,
}

/// A run of a script on the repository `r` over these responses, without words and a dial. It is none only
/// where `r` is no ID or `h:1` is no host.
pub fn run_directly(
    alloc: Global,
    script: &str,
    responses: &str,
) -> Result<Option<Direct>, Memory> {
    let repo = Text::from_chars(alloc, "r")?;
    let host = Text::from_chars(alloc, "h:1")?;
    if !is_id(&repo) {
        return Ok(None);
    }
    if !is_host(&host) {
        return Ok(None);
    }
    let mut input = source(alloc, script.as_bytes(), 0, None)?;
    let mut answers = source(alloc, responses.as_bytes(), 0, None)?;
    let mut sink = MemSink::new(alloc, Vec::new(alloc));
    let mut out = MemSink::new(alloc, Vec::new(alloc));
    let end = run_script(
        alloc,
        &repo,
        &host,
        &mut input,
        &mut answers,
        &mut sink,
        &mut out,
    );
    Ok(Some(Direct {
        end,
        sent: String::from_utf8_lossy(alloc, sink.taken())?,
        printed: String::from_utf8_lossy(alloc, out.taken())?,
    }))
}

/// What a server of these words, whose repositories are empty at first, answers to these bytes.
pub fn answers(alloc: Global, served: &[&str], sent: &[u8]) -> Result<String, Memory> {
    let mut source = source(alloc, sent, 0, None)?;
    let mut sink = MemSink::new(alloc, Vec::new(alloc));
    let words = texts(alloc, served)?;
    run_stdio(alloc, &words, &mut source, &mut sink);
    Ok(String::from_utf8_lossy(alloc, sink.taken())?)
}

/// The run of a script on a repository against a server of these words, and the server's responses: those
/// to the bytes that the client sends over them.
pub fn play(
    alloc: Global,
    served: &[&str],
    repository: &str,
    script: &str,
) -> Result<(Ran, String), Memory> {
    let words = ["--server", "h:1", "--repository", repository];
    let script = script.as_bytes();
    let mut responses = String::new(alloc);
    for _ in 0..100 {
        let ran = run_words(alloc, &words, script, responses.as_bytes(), CALM)?;
        let next = match &ran.sent {
            Some(sent) => answers(alloc, served, sent.as_bytes())?,
            None => String::new(alloc),
        };
        if next.as_str() == responses.as_str() {
            return Ok((ran, responses));
        }
        responses = next;
    }
    Ok((run_words(alloc, &words, script, b"", CALM)?, responses))
}
