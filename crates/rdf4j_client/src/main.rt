//! The program `rdf4j_client`: the top call of the library `rdf_cli` over standard input and output, and
//! a connection to its server.
//!
//! It writes nothing to standard error, and to standard output only what the top call wrote.
#![tactic(auto)]

use rdf_cli::run_client;
use rdf_io::{StdinSource, StdoutSink, TcpDial};
use rdf_term::Text;
use std::process::ExitCode;
use std::rt::Env;
use std::{env, io};

/// The words that stand behind the program's name.
fn words<R: Env + AllocGlobal>(rt: &R) -> io::Result<Vec<Text>> {
    let mut words = Vec::new(rt.alloc());
    for word in env::args(rt)?.skip(1) {
        let word = match Text::from_chars(rt.alloc(), word.as_str()) {
            Ok(word) => word,
            Err(_) => return Err(io::Error::from(io::ErrorKind::OutOfMemory)),
        };
        words.push(word)?;
    }
    Ok(words)
}

fn main(rt: HostRuntime) -> ExitCode {
    let words = match words(&rt) {
        Ok(words) => words,
        // A word that is no text is none of this program's.
        Err(error) if error.kind() == io::ErrorKind::InvalidData => return ExitCode::from(5),
        Err(_) => return ExitCode::from(6),
    };
    let mut dial = TcpDial::new(&rt);
    let mut input = StdinSource::new(rt.stdin());
    let mut out = StdoutSink::new(rt.stdout());
    ExitCode::from(run_client(rt.alloc(), &words, &mut dial, &mut input, &mut out))
}
