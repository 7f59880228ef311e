//! A value under a lock that doesn't store its entries, and takes no memory.
ghost use Rattle.std.specs.Prelude.{◌≡◌, ◌<◌, ◌≤◌, ◌^◌, ◌∷◌, ◌++◌, [], true, false, length};

use journal_lock::Journaled;
use std::marker::Model;
use story::Story;

/// An entry: the seat whose pass gave, and what it gave.
#[derive(Drop)]
pub struct Gift {
    pub seat: u32,
    pub amount: u64,
}

/// The number of gifts, their sum, and all of them in the proofs alone.
#[derive(Drop)]
pub struct Tally {
    story: Story<Gift>,
    gifts: u64,
    sum: u64,
}

impl Model for Tally {
    ghost use Rattle.std.specs.Prelude.{◌≡◌, List, length};
    ghost use Rattle.lock_tests.specs.declared.tally.Gift.{Gift};

    ghost Value = { List Gift };

    ghost view = { λ t. t.story };

    ghost invariant = { λ t. length t.story ≡ t.gifts };
}

impl Journaled for Tally {
    type Entry = Gift;

    ghost use Rattle.std.specs.Prelude.{ℕ};

    ghost Fixed = { ℕ };

    ghost entries = { λ t. t };

    ghost fixed = { λ t. 0 };

    ghost number = { λ gift. gift.seat };
}

impl Tally {
    /// How many gifts it takes.
    pub const MOST: u64 = 1 << 40;

    pub fn new() -> Tally
        ensures { result ≡ [] }
    {
        Tally {
            story: Story::new(),
            gifts: 0,
            sum: 0,
        }
    }

    pub fn gifts(&self) -> u64
        ensures { result ≡ length self.now }
    {
        self.gifts
    }

    /// The sum of the amounts, or the greatest number where it is larger.
    pub fn sum(&self) -> u64 {
        self.sum
    }

    /// Adds a gift, where there is room for it, and tells whether there was.
    pub fn add(&mut self, gift: &Gift) -> bool
        ensures added { (result ≡ true) → (self.new ≡ self.old ++ gift.now ∷ []) }
        ensures full { (result ≡ false) → (self.new ≡ self.old) }
        ensures room { (result ≡ true) → (length self.old < 2 ^ 62) }
    {
        if self.gifts >= Tally::MOST {
            return false;
        }
        self.story = self.story.after(gift);
        self.gifts += 1;
        self.sum = self.sum.saturating_add(gift.amount);
        true
    }
}
