ghost use Rattle.std.specs.Prelude.{◌≡◌, [], OnOk};
ghost use Rattle.std.specs.Option.{option_copied};
ghost use Rattle.query_grammar.specs.Values.{declare, namespace};

use rdf_term::{Memory, Text};
use std::alloc::Global;
use std::collections::BTreeMap;
use std::marker::Model;

/// The prefixes that were declared with the namespaces that they stand for, which contracts see as
/// the list of these pairs in the order of texts.
#[derive(Drop)]
pub struct Prefixes {
    namespaces: BTreeMap<Text, Text>,
}

impl Model for Prefixes {
    ghost use Rattle.query_grammar.specs.Values.{Namespaces};

    ghost Value = { Namespaces };

    ghost view = { λ p. p.namespaces.entries };
}

impl Prefixes {
    /// No prefixes, which takes no memory.
    pub fn new(alloc: Global) -> Prefixes
        ensures { result ≡ [] }
    {
        Prefixes {
            namespaces: BTreeMap::new(alloc),
        }
    }

    /// Declares a prefix, in the place of an earlier declaration.
    #[tactic(auto, unfolding(crate::specs::Values::declare))]
    pub fn declare(&mut self, prefix: Text, iri: Text) -> Result<(), Memory>
        ensures { OnOk result (self.new ≡ declare self.old prefix iri) }
    {
        self.namespaces.insert(prefix, iri)?;
        Ok(())
    }

    /// The namespace that a prefix stands for, where it was declared.
    #[tactic(auto, unfolding(crate::specs::Values::namespace))]
    pub fn namespace(&self, prefix: &Text) -> Option<&Text>
        ensures { option_copied result ≡ namespace self.now prefix.now }
    {
        self.namespaces.get(prefix)
    }
}
