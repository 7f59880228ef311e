//! A reader of the lines of a script.
ghost use Rattle.std.specs.Prelude.{◌≡◌, ◌+◌, ◌≤◌, ℕ, List, [], length, take, false, IfOk, IfSome, OnSome, OnErr};
ghost use Rattle.client_script.specs.Inputs.{Caused, IsStream, KeepsStream};
ghost use Rattle.client_script.specs.Lines.{IsValidCommand};
ghost use Rattle.client_script.specs.Scripts.{NextCommand, has_read_fault};
ghost use Rattle.client_script.specs.Takes.{IsScriptCommand, TakesLine};

use crate::command::Command;
use crate::input::{Input, Wait};
use crate::line::read_command;
use rdf_io::Source;
use rdf_term::Memory;
use std::alloc::Global;
use std::marker::Model;

/// The most lines of a script.
const MOST_LINES: u64 = 1_000_000;

/// The most bytes of a line.
const MOST_LINE: usize = 1_048_576;

/// Why a script gives no command.
#[derive(Clone, Copy, Debug, PartialEq, Eq, Drop)]
pub enum ScriptFault {
    /// The line of this number, from 1, is none of a script.
    BadLine(u64),
    /// The source failed.
    ReadFault,
    /// No memory was found.
    Memory,
}

/// A reader of a script. Contracts see the bytes that it holds, which stand before those that the source
/// has left, and how many lines it has read.
#[derive(Drop)]
pub struct Script {
    alloc: Global,
    input: Input,
    number: u64,
}

impl Model for Script {
    ghost use Rattle.std.specs.Prelude.{◌≤◌};
    ghost use Rattle.client_script.specs.Scripts.{Reader};

    ghost Value = { Reader };

    ghost view = { λ s. record { held = s.input; number = s.number } };

    ghost invariant = { λ s. s.number ≤ 1000000 };
}

impl Script {
    /// A reader at the front of a script. It takes its buffer here, in which the longest line has room.
    pub fn new(alloc: Global) -> Result<Script, Memory>
        ensures { IfOk result (λ it. it ≡ record { held = []; number = 0 }) }
    {
        Ok(Script {
            alloc,
            input: Input::new(alloc)?,
            number: 0,
        })
    }

    /// How many lines were read: the number of the last one, from 1.
    pub fn number(&self) -> u64
        ensures value { result ≡ self.now.number }
        ensures few { result ≤ 1000000 }
    {
        self.number
    }

    /// Reads the next line, and answers its command, or `None` where the script has ended. After a fault
    /// the reader stands before that line still.
    ///
    /// `BadLine` is answered for a line that is none of the table, one of more than 1,048,576 bytes, and
    /// every line behind the first 1,000,000.
    pub fn next_command<I: Source>(
        &mut self,
        source: &mut I,
    ) -> Result<Option<Command>, ScriptFault>
        ensures command { (b : List ℕ) → IsStream self.old.held (I.left source.old) b
            → NextCommand self.old.number b self.new (I.left source.new) result }
        ensures valid { IfOk result (λ it. IfSome it IsValidCommand) }
        ensures kept { OnErr result (self.new.number ≡ self.old.number) }
        ensures number { IfOk result (λ it. OnSome it (self.new.number ≡ self.old.number + 1)) }
        ensures stream { OnErr result (KeepsStream self.old.held (I.left source.old) self.new.held (I.left source.new)) }
        ensures cause { Caused (has_read_fault result) (I.faults source.old) (I.faults source.new) }
        ensures sound { I.sound source.old → (has_read_fault result ≡ false) × I.sound source.new }
    {
        match self.input.await_line(source) {
            Err(_) => Err(ScriptFault::ReadFault),
            Ok(Wait::Full) => Err(ScriptFault::BadLine(self.number + 1)),
            Ok(Wait::Ended(end)) => self.take_line(end, end + 1),
            Ok(Wait::Over) => {
                let end = self.input.as_slice().len();
                if end == 0 {
                    return Ok(None);
                }
                self.take_line(end, end)
            }
        }
    }

    /// Takes the line of the first `end` bytes that are held, and drops the first `used`.
    fn take_line(&mut self, end: usize, used: usize) -> Result<Option<Command>, ScriptFault>
        requires line { end ≤ used }
        requires held { used ≤ length self.old.held }
        ensures taken { TakesLine self.old end used self.new result }
        ensures kept { OnErr result (self.new ≡ self.old) }
        ensures valid { IfOk result (λ it. IfSome it IsValidCommand) }
        ensures no_fault { has_read_fault result ≡ false }
    {
        if self.number >= MOST_LINES {
            return Err(ScriptFault::BadLine(self.number + 1));
        }
        match command_at(self.alloc, self.input.as_slice(), end) {
            Err(_) => Err(ScriptFault::Memory),
            Ok(None) => Err(ScriptFault::BadLine(self.number + 1)),
            Ok(Some(command)) => {
                self.input.consume(used);
                self.number += 1;
                Ok(Some(command))
            }
        }
    }
}

/// The command of the line of the first `end` bytes.
fn command_at(alloc: Global, held: &[u8], end: usize) -> Result<Option<Command>, Memory>
    requires { end ≤ length held.now }
    ensures command { IfOk result (λ it. IsScriptCommand (take end held.now) it) }
    ensures valid { IfOk result (λ it. IfSome it IsValidCommand) }
{
    if end > MOST_LINE {
        return Ok(None);
    }
    read_command(alloc, &held[..end])
}
