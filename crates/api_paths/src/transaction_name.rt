ghost use Rattle.std.specs.Prelude.{◌≡◌, ℕ, ◌≤◌, ◌<◌, ◌^◌, ◌∷◌, ◌++◌, decimal, IfSome, IfNone};
ghost use Rattle.journal.specs.declared.txn.Txn.{Txn};
ghost use Rattle.journal.specs.declared.level.Level.{Level};
ghost use Rattle.journal.specs.Levels.{level_number};
ghost use Rattle.api_paths.specs.TransactionNames.{most_place, IsTransactionName};

use itoa::Buffer;
use journal::{Level, Txn};
use rdf_term::Text;

/// The greatest place that a name has, the last one of a full journal.
const MOST_PLACE: u64 = 4_611_686_018_427_387_903;

/// The number that a text writes in decimal, without leading zeros.
fn number(text: &str) -> Option<u64>
    ensures some { IfSome result (λ n. decimal n ≡ text.now) }
    ensures small { IfSome result (λ n. n < 2 ^ 64) }
    ensures none { IfNone result ((n : ℕ) → n ≤ most_place → decimal n ≡ text.now → ⊥) }
{
    let Ok(number) = text.parse::<u64>() else {
        return None;
    };
    let mut digits = Buffer::new();
    if digits.format(number) == text {
        Some(number)
    } else {
        None
    }
}

/// The level of this code.
fn level_at(code: u64) -> Option<Level>
    ensures some { IfSome result (λ level. level_number level ≡ code) }
    ensures none { IfNone result ((level : Level) → level_number level ≡ code → ⊥) }
{
    match code {
        0 => Some(Level::NoIsolation),
        1 => Some(Level::ReadUncommitted),
        2 => Some(Level::ReadCommitted),
        3 => Some(Level::SnapshotRead),
        4 => Some(Level::Snapshot),
        5 => Some(Level::Serializable),
        _ => None,
    }
}

/// The numbers of a text that writes two of them, with a hyphen between.
fn numbers(text: &str) -> Option<(u64, u64)>
    ensures some { IfSome result (λ it. text.now ≡ decimal it.0 ++ 45 ∷ decimal it.1) }
    ensures small { IfSome result (λ it. (it.0 < 2 ^ 64) × (it.1 < 2 ^ 64)) }
    ensures none { IfNone result ((m n : ℕ) → m ≤ most_place → n ≤ most_place → text.now ≡ decimal m ++ 45 ∷ decimal n → ⊥) }
{
    match text.split_once('-') {
        None => None,
        Some((place, code)) => match number(place) {
            None => None,
            Some(place) => match number(code) {
                None => None,
                Some(code) => Some((place, code)),
            },
        },
    }
}

/// The transaction of a place and a code.
fn transaction_at(place: u64, code: u64) -> Option<Txn>
    ensures some { IfSome result (λ txn. (txn.place ≡ place) × (level_number txn.level ≡ code) × (place ≤ most_place)) }
    ensures none { IfNone result ((txn : Txn) → txn.place ≡ place → level_number txn.level ≡ code → txn.place ≤ most_place → ⊥) }
{
    match level_at(code) {
        None => None,
        Some(level) => if place <= MOST_PLACE {
            Some(Txn { place, level })
        } else {
            None
        },
    }
}

/// The transaction of a name: the place of its Begin in decimal, a hyphen and the code of its level.
pub fn read_transaction_name(text: &Text) -> Option<Txn>
    ensures some { IfSome result (λ txn. IsTransactionName text.now txn) }
    ensures none { IfNone result ((txn : Txn) → IsTransactionName text.now txn → ⊥) }
{
    match numbers(text.as_str()) {
        None => None,
        Some((place, code)) => transaction_at(place, code),
    }
}
