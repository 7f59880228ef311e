//! The program `rdf4j_server`: the top calls of the library `rdf_server` over standard input and output,
//! over the connections of a port, and over sessions in memory.
//!
//! It writes nothing to standard error, and to standard output only what the top call wrote.
#![tactic(auto)]

ghost use Rattle.std.specs.Prelude.{◌≡◌, ◌≤◌, All, IfOk, false, vec_len};

use rdf_io::{Door, OpenGate, StdinSource, StdoutSink, TcpDoor};
use rdf_server::{Plan, read_plan, run_serve, run_stdio, run_workload};
use rdf_term::{Memory, Text};
use std::alloc::Global;
use std::net::{Net, TcpListener, TcpStream};
use std::process::ExitCode;
use std::rt::Env;
use std::sync::Wait;
use std::thread::Threads;
use std::{env, io};

/// The words that stand behind the program's name.
fn words<R: Env + AllocGlobal>(rt: &R) -> io::Result<Vec<Text>> {
    let mut words = Vec::new(rt.alloc());
    for word in env::args(rt)?.skip(1) {
        let word = match Text::from_chars(rt.alloc(), word.as_str()) {
            Ok(word) => word,
            Err(_) => return Err(io::Error::from(io::ErrorKind::OutOfMemory)),
        };
        words.push(word)?;
    }
    Ok(words)
}

/// Whether the words begin with this one.
fn begin_with(words: &[Text], name: &str) -> bool {
    match words.first() {
        None => false,
        Some(word) => word.as_str() == name,
    }
}

/// So many doors over one listener.
fn doors<'a>(
    alloc: Global,
    listener: &'a TcpListener,
    count: u32,
    connections: Option<u64>,
) -> Result<Vec<TcpDoor<'a>>, Memory>
    ensures count { IfOk result (λ it. vec_len it ≡ count) }
    ensures out { IfOk result (λ it. All (λ d. ⟦<TcpDoor<'a> as Door>⟧.out d ≡ false) it.items) }
{
    let mut doors = Vec::new(alloc);
    for _ in 0..count {
        doors.push(TcpDoor::new(listener, connections))?;
    }
    Ok(doors)
}

/// Listens on the port of the plan, and serves what comes there.
fn serve_port<
    R: Net<Listener = TcpListener, Stream = TcpStream> + Threads + Wait + Sync + AllocGlobal,
>(rt: &R, words: &[Text], plan: Plan) -> u8
    requires some { 1 ≤ plan.workers }
    requires few { plan.workers ≤ 32 }
{
    let alloc = rt.alloc();
    let Ok(listener) = TcpListener::bind(rt, ("0.0.0.0", plan.port)) else {
        return 2;
    };
    let Ok(mut doors) = doors(alloc, &listener, plan.workers, plan.connections) else {
        return 6;
    };
    run_serve(rt, alloc, words, &mut doors, &OpenGate).status()
}

/// The program `serve`, whose words ask for a port.
fn serve<R: Net<Listener = TcpListener, Stream = TcpStream> + Threads + Wait + Sync + AllocGlobal>(
    rt: &R,
    words: &[Text],
) -> u8 {
    match read_plan(words) {
        None => 5,
        Some(plan) => serve_port(rt, words, plan),
    }
}

/// The program `workload`, which prints to standard output.
fn workload<R: Threads + Wait + Sync + AllocGlobal>(
    rt: &R,
    words: &[Text],
    mut sink: StdoutSink,
) -> u8 {
    run_workload(rt, rt.alloc(), words, &mut sink).status
}

/// The program over standard input and output.
fn stdio(rt: &HostRuntime, words: &[Text]) -> u8 {
    let mut source = StdinSource::new(rt.stdin());
    let mut sink = StdoutSink::new(rt.stdout());
    run_stdio(rt.alloc(), words, &mut source, &mut sink)
}

fn main(rt: HostRuntime) -> ExitCode {
    let words = match words(&rt) {
        Ok(words) => words,
        // A word that is no text is none of this program's.
        Err(error) if error.kind() == io::ErrorKind::InvalidData => return ExitCode::from(5),
        Err(_) => return ExitCode::from(6),
    };
    ExitCode::from(if begin_with(&words, "serve") {
        serve(&rt, &words)
    } else if begin_with(&words, "workload") {
        workload(&rt, &words, StdoutSink::new(rt.stdout()))
    } else {
        stdio(&rt, &words)
    })
}
