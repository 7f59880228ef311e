//! The words of `workload`.
ghost use Rattle.std.specs.Prelude.{◌≡◌, ◌↔◌, ℕ, codes, IsTrue, IfNone, IfSome};
ghost use Rattle.rdf_server.specs.WorkWords.{AreNumbers, IsWorkload};

use crate::serve_words::number_of;
use rdf_term::Text;

/// The most workers.
const MOST_WORKERS: u64 = 15;

/// The most rounds.
const MOST_ROUNDS: u64 = 10_000;

fn is_command(word: &Text) -> bool
    ensures { IsTrue result ↔ (word.now ≡ codes "workload") }
{
    word.as_str() == "workload"
}

/// The numbers of workers and of rounds that words are.
fn two_numbers(words: &[Text]) -> Option<(u32, u32)>
    ensures some { IfSome result (λ it. AreNumbers words.now it.0 it.1) }
    ensures none { IfNone result ((workers rounds : ℕ) → AreNumbers words.now workers rounds → ⊥) }
{
    let Some((first, behind)) = words.split_first() else {
        return None;
    };
    let Some((second, rest)) = behind.split_first() else {
        return None;
    };
    if !rest.is_empty() {
        return None;
    }
    let Some(workers) = number_of(first, MOST_WORKERS) else {
        return None;
    };
    let Some(rounds) = number_of(second, MOST_ROUNDS) else {
        return None;
    };
    Some((workers as u32, rounds as u32))
}

/// The numbers of workers and of rounds, where words are some of `workload`. It takes no memory.
pub(crate) fn work_words(words: &[Text]) -> Option<(u32, u32)>
    ensures some { IfSome result (λ it. IsWorkload words.now it.0 it.1) }
    ensures none { IfNone result ((workers rounds : ℕ) → IsWorkload words.now workers rounds → ⊥) }
{
    let Some((command, behind)) = words.split_first() else {
        return None;
    };
    if is_command(command) {
        two_numbers(behind)
    } else {
        None
    }
}
