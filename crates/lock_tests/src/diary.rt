//! A value under a lock that stores its entries.
ghost use Rattle.std.specs.Prelude.{◌≡◌, ◌<◌, ◌^◌, ◌∷◌, ◌++◌, [], length, IfOk, OnOk, OnErr};

use journal_lock::Journaled;
use rdf_term::{Duplicate, Memory, Seq, Text};
use std::alloc::Global;

/// An entry: the seat whose pass wrote it, and a text.
#[derive(Drop)]
pub struct Note {
    pub seat: u32,
    pub text: Text,
}

impl Note {
    fn copy(&self, alloc: Global) -> Result<Note, Memory>
        ensures { IfOk result (λ note. note ≡ self.now) }
    {
        let text = self.text.copy(alloc)?;
        Ok(Note {
            seat: self.seat,
            text,
        })
    }
}

/// A list of notes, and how many it takes, which nothing changes.
#[derive(Drop)]
pub struct Diary {
    notes: Seq<Note>,
    most: u32,
    alloc: Global,
}

impl Journaled for Diary {
    type Entry = Note;

    ghost use Rattle.std.specs.Prelude.{ℕ};

    ghost Fixed = { ℕ };

    ghost entries = { λ d. d.notes };

    ghost fixed = { λ d. d.most };

    ghost number = { λ note. note.seat };
}

impl Diary {
    pub fn new(alloc: Global, most: u32) -> Diary
        ensures { (result.notes ≡ []) × (result.most ≡ most) }
    {
        Diary {
            notes: Seq::new(alloc),
            most,
            alloc,
        }
    }

    /// Adds a copy of the note, where there is room for it.
    pub fn add(&mut self, note: &Note) -> Result<(), Memory>
        ensures ok { OnOk result (self.new.notes ≡ self.old.notes ++ note.now ∷ []) }
        ensures memory { OnErr result (self.new.notes ≡ self.old.notes) }
        ensures room { OnOk result (length self.old.notes < 2 ^ 62) }
        ensures most { self.new.most ≡ self.old.most }
    {
        if self.notes.len() >= self.most as usize {
            return Err(Memory);
        }
        let note = note.copy(self.alloc)?;
        self.notes.push(note)?;
        Ok(())
    }

    pub fn notes(&self) -> &[Note]
        ensures { result.now ≡ self.now.notes }
    {
        self.notes.as_slice()
    }
}
