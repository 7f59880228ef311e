ghost use Rattle.std.specs.Prelude.{◌≡◌, [], ◌∷◌, ◌++◌, ◌&&◌, true, false, map, IfOk, OnOk, OnErr};
ghost use Rattle.std.specs.Option.{option_map};
ghost use Rattle.branch.specs.Layers.{Layered};
ghost use Rattle.iso_txn.specs.Repository.{pinned_of};

use branch::View;
use rdf_term::Memory;
use std::alloc::Global;
use std::marker::Model;

/// What a read sees: contents that no later change touches, one for a read and one for each step of a
/// query, whether the read's transaction was open at each of its entries, and the most rows that it
/// may find.
#[derive(Drop)]
pub struct Pinned {
    views: Vec<View>,
    live: bool,
    rows: u64,
}

impl Model for Pinned {
    ghost use Rattle.std.specs.Prelude.{map};
    ghost use Rattle.branch.specs.Layers.{Layered};
    ghost use Rattle.iso_txn.specs.Repository.{PinnedRead};

    ghost Value = { PinnedRead };

    ghost view = { λ it. record { views = map (λ (view : Layered). view.quads) it.views.items; live = it.live; rows = it.rows } };
}

impl Pinned {
    /// What a query sees before its first step. It takes no memory.
    pub fn empty(alloc: Global) -> Pinned
        ensures { result ≡ record { views = []; live = true; rows = 0 } }
    {
        Pinned {
            views: Vec::new(alloc),
            live: true,
            rows: 0,
        }
    }

    /// What a read sees that has one view.
    fn one(alloc: Global, view: View, rows: u64) -> Result<Pinned, Memory>
        ensures { IfOk result (λ it. it ≡ record { views = view.quads ∷ []; live = true; rows = rows }) }
    {
        let mut views = Vec::new(alloc);
        views.push(view)?;
        Ok(Pinned {
            views,
            live: true,
            rows,
        })
    }

    /// What a read sees, or what stands for it where its transaction is not open.
    pub(crate) fn of(alloc: Global, view: Option<View>, rows: u64) -> Result<Pinned, Memory>
        ensures { IfOk result (λ it. it ≡ pinned_of (option_map (λ (view : Layered). view.quads) view) rows) }
    {
        match view {
            Some(view) => Pinned::one(alloc, view, rows),
            None => Ok(Pinned {
                views: Vec::new(alloc),
                live: false,
                rows,
            }),
        }
    }

    /// Adds the view of one more step. Without memory it stays as it was.
    pub(crate) fn add(&mut self, view: View, live: bool, rows: u64) -> Result<(), Memory>
        ensures ok { OnOk result (self.new ≡ record { views = self.old.views ++ view.quads ∷ []; live = self.old.live && live; rows = rows }) }
        ensures memory { OnErr result (self.new ≡ self.old) }
    {
        self.views.push(view)?;
        self.live = self.live && live;
        self.rows = rows;
        Ok(())
    }

    /// Whether there was no transaction, or it was open at each of the read's entries.
    pub fn live(&self) -> bool
        ensures { result ≡ self.now.live }
    {
        self.live
    }

    /// The contents, in the order of the read's entries.
    pub fn views(&self) -> &[View]
        ensures { map (λ (view : Layered). view.quads) result.now ≡ self.now.views }
    {
        self.views.as_slice()
    }

    /// The most rows.
    pub fn rows(&self) -> u64
        ensures { result ≡ self.now.rows }
    {
        self.rows
    }
}
