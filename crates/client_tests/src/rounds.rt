//! The workload's rounds of one worker: its stated session, and scripts that ask for the same.
use crate::client::{answers, play};
use rdf_term::Memory;
use std::alloc::Global;
use workload::make_session;

/// The words of a server with the worker's own repository and the one that all share.
const SERVED: [&str; 3] = ["stdio", "w0", "all"];

/// The rounds of the worker 0, each with the value that it draws.
const ROUNDS: [(u32, u32); 8] = [
    (0, 838),
    (1, 758),
    (2, 113),
    (3, 515),
    (4, 51),
    (5, 627),
    (6, 10),
    (7, 419),
];

/// What is sent behind the session.
const LISTS: &[u8] =
    b"GET /rdf4j-server/repositories/w0/statements HTTP/1.1\r\nHost: w\r\n\r\nGET /rdf4j-server/repositories/all/statements HTTP/1.1\r\nHost: w\r\n\r\n";

/// A script of the requests to one repository, and the lines of the quads that they leave.
#[derive(Drop)]
struct Told {
    script: String,
    left: String,
}

/// The quad of a round.
fn line_of(alloc: Global, round: u32, value: u32) -> Result<String, Memory> {
    Ok(format!(in alloc; "<http://w/s0/{round}> <http://w/p> \"{value}\" .\n")?)
}

/// The worker's own repository, to which each round adds its quad in a transaction.
fn own_rounds(alloc: Global) -> Result<Told, Memory> {
    let mut script = String::new(alloc);
    let mut left = String::new(alloc);
    for (round, value) in ROUNDS {
        let line = line_of(alloc, round, value)?;
        let lines = format!(in alloc; "begin SERIALIZABLE\nadd {line}commit\n")?;
        script.push_str(lines.as_str())?;
        left.push_str(line.as_str())?;
    }
    script.push_str("list\n")?;
    Ok(Told { script, left })
}

/// The shared repository, to which each round adds its quad, and from which every fourth one deletes it.
///
/// The session deletes all quads of the quad's subject, which no line of a script asks for. The subject is
/// that of this quad alone, so `remove` leaves the same quads.
fn shared_rounds(alloc: Global) -> Result<Told, Memory> {
    let mut script = String::new(alloc);
    let mut left = String::new(alloc);
    for (round, value) in ROUNDS {
        let line = line_of(alloc, round, value)?;
        let add = format!(in alloc; "add {line}")?;
        script.push_str(add.as_str())?;
        if round % 4 == 3 {
            let remove = format!(in alloc; "remove {line}")?;
            script.push_str(remove.as_str())?;
        } else {
            left.push_str(line.as_str())?;
        }
    }
    script.push_str("list\n")?;
    Ok(Told { script, left })
}

/// The answer to the listing of quads of these lines.
fn listing(alloc: Global, lines: &str) -> Result<String, Memory> {
    let length = lines.len();
    Ok(format!(in alloc;
        "HTTP/1.1 200 OK\r\nContent-Type: application/n-quads\r\nContent-Length: {length}\r\n\r\n{lines}"
    )?)
}

/// Whether the client, whose last line lists so many quads behind this line, prints those that are left.
fn is_played(
    alloc: Global,
    repository: &str,
    told: &Told,
    before: &str,
    count: u32,
) -> Result<bool, Memory> {
    let ran = play(alloc, &SERVED, repository, told.script.as_str())?.0;
    let left = told.left.as_str();
    let printed = format!(in alloc; "{before}\n{left}quads {count}\n")?;
    Ok(ran.status == 0 && ran.printed.as_str().ends_with(printed.as_str()))
}

/// The session and the scripts leave the same quads in both repositories.
#[test]
fn rounds_of_one_worker(rt: HostRuntime) -> Result<(), Memory> {
    let alloc = rt.alloc();
    let own = own_rounds(alloc)?;
    let shared = shared_rounds(alloc)?;
    assert!(rt; is_played(alloc, "w0", &own, "committed", 8)?);
    assert!(rt; is_played(alloc, "all", &shared, "done", 6)?);
    let mut session = make_session(alloc, 0, 8)?;
    session.append(LISTS)?;
    let answered = answers(alloc, &SERVED, session.as_slice())?;
    let in_own = listing(alloc, own.left.as_str())?;
    let in_shared = listing(alloc, shared.left.as_str())?;
    let listed = format!(in alloc; "{in_own}{in_shared}")?;
    assert!(rt; answered.as_str().ends_with(listed.as_str()));
    Ok(())
}
