//! The words of the program.
ghost use Rattle.std.specs.Prelude.{◌≡◌, ◌≤◌, ◌<◌, ◌↔◌, ◌∷◌, ℕ, List, Contains, codes, length, map, IsTrue, IfOk, IfSome, IfNone};
ghost use Rattle.quad_index.specs.Letters.{IsArrangement, letter_byte};
ghost use Rattle.session.specs.Houses.{AreNames};
ghost use Rattle.rdf_server.specs.Words.{AreIds, AreOptions, IsStdio, kept_orders};

use api_replies::is_id;
use quad_index::{Order, Orders};
use rdf_term::{Memory, Text};
use std::alloc::Global;

/// The most options.
const MOST_OPTIONS: usize = 6;

/// Whether each word is an ID that no later one repeats.
fn are_ids(words: &[Text]) -> bool
    ensures { IsTrue result ↔ AreIds words.now }
{
    let mut left = words;
    while let Some((word, behind)) = left.split_first() {
        if !is_id(word) {
            return false;
        }
        if behind.contains(word) {
            return false;
        }
        left = behind;
    }
    true
}

/// Whether words are 1 to 16 distinct IDs.
pub(crate) fn are_names(words: &[Text]) -> bool
    ensures { IsTrue result ↔ AreNames words.now }
{
    if words.is_empty() {
        return false;
    }
    words.len() <= 16 && are_ids(words)
}

fn is_command(word: &Text) -> bool
    ensures { IsTrue result ↔ (word.now ≡ codes "stdio") }
{
    word.as_str() == "stdio"
}

fn is_option_key(word: &Text) -> bool
    ensures { IsTrue result ↔ (word.now ≡ codes "--order") }
{
    word.as_str() == "--order"
}

/// The order that a word is, an arrangement of the letters `s`, `p`, `o` and `c`.
pub(crate) fn order_of(word: &Text) -> Option<Order>
    ensures some { IfSome result (λ order. IsArrangement order × (word.now ≡ map letter_byte order)) }
    ensures none { IfNone result ((order : _) → IsArrangement order → word.now ≡ map letter_byte order → ⊥) }
{
    Order::from_letters(word.as_str())
}

/// The order that the option at the front of words names.
fn front_order(words: &[Text]) -> Option<Order>
    ensures long { IfSome result (λ order. 2 ≤ length words.now) }
    ensures some { IfSome result (λ order. IsArrangement order × ((rest : List (List ℕ)) × (words.now ≡ codes "--order" ∷ (map letter_byte order ∷ rest)))) }
    ensures none { IfNone result ((order : _) (rest : List (List ℕ)) → IsArrangement order → words.now ≡ codes "--order" ∷ (map letter_byte order ∷ rest) → ⊥) }
{
    let Some((key, others)) = words.split_first() else {
        return None;
    };
    let Some((word, _)) = others.split_first() else {
        return None;
    };
    if !is_option_key(key) {
        return None;
    }
    order_of(word)
}

/// The words behind the first two.
pub(crate) fn past_option(words: &[Text]) -> &[Text]
    ensures value { (key word : List ℕ) (rest : List (List ℕ)) → words.now ≡ key ∷ (word ∷ rest) → result.now ≡ rest }
    ensures shorter { 2 ≤ length words.now → length result.now < length words.now }
{
    let Some((_, others)) = words.split_first() else {
        return words;
    };
    let Some((_, behind)) = others.split_first() else {
        return others;
    };
    behind
}

/// Whether an option at the front of words names this order.
fn is_named(words: &[Text], order: Order) -> bool
    ensures { (orders ids : _) → AreOptions words.now orders ids → AreNames ids → IsTrue result ↔ Contains orders order }
{
    match front_order(words) {
        None => false,
        Some(other) => other == order || is_named(past_option(words), order),
    }
}

/// The words behind up to so many options, where those are distinct orders and these are IDs. It
/// takes no memory.
fn ids_of(words: &[Text], most: usize) -> Option<&[Text]>
    ensures some { IfSome result (λ ids. AreNames ids.now × ((orders : _) × AreOptions words.now orders ids.now × (length orders ≤ most))) }
    ensures none { IfNone result ((orders ids : _) → AreOptions words.now orders ids → length orders ≤ most → AreNames ids → ⊥) }
{
    match front_order(words) {
        None => { if are_names(words) { Some(words) } else { None } }
        Some(order) => {
            let behind = past_option(words);
            if most == 0 || is_named(behind, order) {
                return None;
            }
            ids_of(behind, most - 1)
        }
    }
}

/// The words behind `stdio`, and the IDs among them, where the words are some of this program. It
/// takes no memory.
pub fn stdio_words(words: &[Text]) -> Option<(&[Text], &[Text])>
    ensures some { IfSome result (λ it. AreNames it.1.now × ((orders : _) × AreOptions it.0.now orders it.1.now × (length orders ≤ 6))
        × (words.now ≡ codes "stdio" ∷ it.0.now)) }
    ensures none { IfNone result ((orders ids : _) → IsStdio words.now orders ids → ⊥) }
{
    let Some((command, behind)) = words.split_first() else {
        return None;
    };
    if !is_command(command) {
        return None;
    }
    match ids_of(behind, MOST_OPTIONS) {
        None => None,
        Some(ids) => Some((behind, ids)),
    }
}

/// The orders that the options at the front of words name, in their order.
fn named_orders(alloc: Global, words: &[Text]) -> Result<Orders, Memory>
    ensures { IfOk result (λ it. (orders ids : _) → AreOptions words.now orders ids → AreNames ids → it ≡ orders) }
{
    let mut orders = Orders::new(alloc);
    let mut left = words;
    while let Some(order) = front_order(left) {
        order.add_to(&mut orders)?;
        left = past_option(left);
    }
    Ok(orders)
}

/// The orders that options name; the standard ones where there is no option.
pub fn orders_of(alloc: Global, words: &[Text]) -> Result<Orders, Memory>
    ensures { IfOk result (λ it. (orders ids : _) → AreOptions words.now orders ids → AreNames ids → it ≡ kept_orders orders) }
{
    let orders = named_orders(alloc, words)?;
    if orders.len() == 0 {
        return Order::standard(alloc);
    }
    Ok(orders)
}
