ghost use Rattle.std.specs.Prelude.{◌≡◌, IfOk};
ghost use Rattle.std.specs.List.Sorted.{IsStrictlySortedBy};
ghost use Rattle.std.specs.Option.{unwrap_or};
ghost use Rattle.rdf_term.specs.Order.{quad_cmp};
ghost use Rattle.branch.specs.Layers.{layered};
ghost use Rattle.journal.specs.Levels.{is_txn};
ghost use Rattle.iso_txn.specs.Kept.{base_at};

use crate::content::Content;
use branch::{Branch, Stack, View};
use journal::Txn;
use rdf_term::Memory;
use std::marker::Model;

/// An open transaction, with the content that was committed before its begin where it reads that one.
#[derive(Drop)]
pub(crate) struct OpenTxn {
    txn: Txn,
    base: Option<Branch>,
}

impl Model for OpenTxn {
    ghost use Rattle.std.specs.Option.{option_map};
    ghost use Rattle.branch.specs.Layers.{Layered};
    ghost use Rattle.iso_txn.specs.Kept.{Opened};

    ghost Value = { Opened };

    ghost view = { λ it. record { txn = it.txn; base = option_map (λ (base : Layered). base.quads) it.base } };
}

impl OpenTxn {
    /// The transaction as it begins.
    pub(crate) fn begin(content: &Content, txn: Txn) -> Result<OpenTxn, Memory>
        ensures { IfOk result (λ it. it ≡ base_at txn content.now) }
    {
        let base = if txn.level.sees_begin() {
            Some(content.pin()?)
        } else {
            None
        };
        Ok(OpenTxn { txn, base })
    }

    /// Whether it is this transaction.
    pub(crate) fn is(&self, txn: Txn) -> bool
        ensures { result ≡ is_txn txn self.now.txn }
    {
        txn == self.txn
    }

    /// Whether this transaction is it.
    pub(crate) fn is_of(&self, txn: Txn) -> bool
        ensures { result ≡ is_txn self.now.txn txn }
    {
        self.txn == txn
    }

    /// What its reads see above what they read, with these changes.
    pub(crate) fn view(&self, content: &Content, own: &Stack) -> Result<View, Memory>
        ensures quads { IfOk result (λ view. view.quads ≡ layered (unwrap_or self.now.base content.now) own.now) }
        ensures ascending { IsStrictlySortedBy quad_cmp (unwrap_or self.now.base content.now) }
    {
        match &self.base {
            Some(base) => {
                // Its clause says that the quads of a branch ascend.
                let _ = base.layers();
                let view = base.view(own)?;
                Ok(view)
            }
            None => content.view(own),
        }
    }
}
