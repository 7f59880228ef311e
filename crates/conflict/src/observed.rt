ghost use Rattle.std.specs.Prelude.{◌≡◌, ◌∷◌, ◌++◌, [], OnOk, OnErr};

use rdf_term::{Duplicate, Memory, Pattern, Seq};
use std::alloc::Global;
use std::marker::Model;

/// The patterns of the quads that a transaction has observed, in the order of its reads. Contracts
/// see it as the list of these patterns.
pub struct Observed {
    alloc: Global,
    patterns: Seq<Pattern>,
}

impl Model for Observed {
    ghost use Rattle.std.specs.Prelude.{List};
    ghost use Rattle.rdf_term.specs.declared.pattern.Pattern.{Pattern};

    ghost Value = { List Pattern };

    ghost view = { λ it. it.patterns };
}

// By hand: a derived drop is expanded down to each term wherever the patterns are let go.
impl Drop for Observed {
    fn drop(self) {
        let Observed { alloc: _, patterns } = self;
        drop(patterns);
    }
}

impl Observed {
    /// Nothing observed, which takes no memory.
    pub fn new(alloc: Global) -> Observed
        ensures { result ≡ [] }
    {
        Observed {
            alloc,
            patterns: Seq::new(alloc),
        }
    }

    /// Adds a copy of a pattern at the end. Without memory the list stays as it was.
    pub fn add(&mut self, pattern: &Pattern) -> Result<(), Memory>
        ensures ok { OnOk result (self.new ≡ self.old ++ pattern.now ∷ []) }
        ensures memory { OnErr result (self.new ≡ self.old) }
    {
        let pattern = pattern.copy(self.alloc)?;
        self.patterns.push(pattern)?;
        Ok(())
    }

    /// Adds the patterns of a read at the end, all of them or none. They are not copied.
    pub fn append(&mut self, patterns: Seq<Pattern>) -> Result<(), Memory>
        ensures ok { OnOk result (self.new ≡ self.old ++ patterns) }
        ensures memory { OnErr result (self.new ≡ self.old) }
    {
        self.patterns.append(patterns)?;
        Ok(())
    }

    /// The patterns in their order.
    pub fn patterns(&self) -> &[Pattern]
        ensures { result.now ≡ self.now }
    {
        self.patterns.as_slice()
    }
}
