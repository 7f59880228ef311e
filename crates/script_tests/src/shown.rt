//! Commands and actions as short texts, for tables.
use api_calls::Call;
use change_set::{Change, Changes};
use client_script::{Action, Command, read_command};
use journal::{Ask, NamesOp, Op, Txn};
use nquads::{Kind, write_quads};
use rdf_term::{Bytes, Duplicate, GraphPick, Memory, Quad, Quads, Text};
use std::alloc::Global;

/// The canonical line of a quad, without its end.
pub fn quad_line(alloc: Global, quad: &Quad) -> Result<String, Memory> {
    let mut quads = Quads::new(alloc);
    quads.push(quad.copy(alloc)?)?;
    let mut out = Bytes::new(alloc);
    write_quads(&quads, Kind::Quads, &mut out)?;
    match std::str::from_utf8(out.as_slice()) {
        Ok(text) => Ok(String::from_str(alloc, text.trim_end())?),
        Err(_) => Ok(String::new(alloc)),
    }
}

/// A command.
fn command_text(alloc: Global, command: &Command) -> Result<String, Memory> {
    Ok(match command {
        Command::Nothing => format!(in alloc; "nothing")?,
        Command::Begin(level) => format!(in alloc; "begin {}", level.number())?,
        Command::Add(quad) => format!(in alloc; "add {}", quad_line(alloc, quad)?)?,
        Command::Remove(quad) => format!(in alloc; "remove {}", quad_line(alloc, quad)?)?,
        Command::Query(_) => format!(in alloc; "query")?,
        Command::List => format!(in alloc; "list")?,
        Command::Size => format!(in alloc; "size")?,
        Command::Contexts => format!(in alloc; "contexts")?,
        Command::Namespaces => format!(in alloc; "namespaces")?,
        Command::Prefix(prefix, name) => format!(in alloc;
            "prefix {} {}",
            prefix.as_str(),
            name.as_str()
        )?,
        Command::Ping => format!(in alloc; "ping")?,
        Command::Commit => format!(in alloc; "commit")?,
        Command::Rollback => format!(in alloc; "rollback")?,
        Command::Quit => format!(in alloc; "quit")?,
    })
}

/// What a line is.
pub fn line_text(alloc: Global, line: &[u8]) -> Result<String, Memory> {
    match read_command(alloc, line)? {
        Some(command) => command_text(alloc, &command),
        None => Ok(format!(in alloc; "none")?),
    }
}

/// A transaction, where there is one.
fn txn_text(alloc: Global, txn: &Option<Txn>) -> Result<String, Memory> {
    Ok(match txn {
        Some(txn) => format!(in alloc; " in {}-{}", txn.place, txn.level.number())?,
        None => String::new(alloc),
    })
}

/// The changes of a write.
fn change_text(alloc: Global, changes: &Changes) -> Result<String, Memory> {
    if changes.len() != 1 {
        return Ok(format!(in alloc; "{} changes", changes.len())?);
    }
    Ok(match changes.at(0) {
        None => String::new(alloc),
        Some(Change::Add(quad)) => format!(in alloc; "add {}", quad_line(alloc, quad)?)?,
        Some(Change::Remove(quad)) => format!(in alloc; "remove {}", quad_line(alloc, quad)?)?,
        Some(Change::RemoveMatching(pattern)) => format!(in alloc;
            "match {}{}{} {}",
            if pattern.s.is_some() { "s" } else { "-" },
            if pattern.p.is_some() { "p" } else { "-" },
            if pattern.o.is_some() { "o" } else { "-" },
            match &pattern.c {
                GraphPick::Any => "any",
                GraphPick::NamedOnly => "named",
                GraphPick::One(rdf_term::Graph::Absent) => "absent",
                GraphPick::One(rdf_term::Graph::Named(_)) => "one",
            }
        )?,
    })
}

/// What is read.
fn ask_text(ask: &Ask) -> &'static str {
    match ask {
        Ask::Query(_) => "query",
        Ask::List { .. } => "list",
        Ask::Size { .. } => "size",
        Ask::Contexts => "contexts",
    }
}

fn names_text(names: &NamesOp) -> &'static str {
    match names {
        NamesOp::List => "list",
        NamesOp::Get(_) => "get",
        NamesOp::Put(_, _) => "put",
        NamesOp::Remove(_) => "remove",
        NamesOp::Clear => "clear",
    }
}

fn op_text(alloc: Global, op: &Op) -> Result<String, Memory> {
    Ok(match op {
        Op::Begin(level) => format!(in alloc; "begin {}", level.number())?,
        Op::Read { txn, ask } => format!(in alloc;
            "read {}{}",
            ask_text(ask),
            txn_text(alloc, txn)?
        )?,
        Op::Step { .. } => format!(in alloc; "step")?,
        Op::Write { txn, changes } => format!(in alloc;
            "write {}{}",
            change_text(alloc, changes)?,
            txn_text(alloc, txn)?
        )?,
        Op::Commit(txn) => format!(in alloc; "commit {}-{}", txn.place, txn.level.number())?,
        Op::Rollback(txn) => format!(in alloc; "rollback {}-{}", txn.place, txn.level.number())?,
        Op::Ping(txn) => format!(in alloc; "ping {}-{}", txn.place, txn.level.number())?,
        Op::Names(names) => format!(in alloc; "names {}", names_text(names))?,
    })
}

/// What is done at a line on the repository `r`, where this is the current transaction.
pub fn action_text(alloc: Global, txn: Option<Txn>, line: &[u8]) -> Result<String, Memory> {
    let Some(command) = read_command(alloc, line)? else {
        return Ok(format!(in alloc; "none")?);
    };
    let repo = Text::from_chars(alloc, "r")?;
    Ok(match command.next_call(alloc, &repo, txn)? {
        Action::Skip => format!(in alloc; "skip")?,
        Action::End => format!(in alloc; "end")?,
        Action::Refuse => format!(in alloc; "refuse")?,
        Action::Send(call) => match &call {
            Call::On { repo, op, form } => format!(in alloc;
                "{}: {}, {form:?}",
                repo.as_str(),
                op_text(alloc, op)?
            )?,
            Call::Protocol => format!(in alloc; "protocol")?,
            Call::Repositories(_) => format!(in alloc; "repositories")?,
        },
    })
}
