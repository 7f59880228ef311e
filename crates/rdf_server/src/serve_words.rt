//! The words of `serve`.
ghost use Rattle.std.specs.Prelude.{◌≡◌, ◌≤◌, ◌<◌, ◌^◌, ◌↔◌, ◌∷◌, ◌++◌, ℕ, List, Contains, codes, decimal, length, IsTrue, IfOk, IfSome, IfNone, Some};
ghost use Rattle.quad_index.specs.declared.letter.Letter.{Letter};
ghost use Rattle.rdf_server.specs.declared.plan.Plan.{Plan};
ghost use Rattle.rdf_server.specs.declared.serve_option.OptionKind.{OptionKind};
ghost use Rattle.rdf_server.specs.declared.serve_option.ServeOption.{ServeOption};
ghost use Rattle.rdf_server.specs.declared.serve_option.ServeOption.TheVariants as variant;
ghost use Rattle.rdf_server.specs.Readings.{AreNamed, AreOnce, AreRead, IsPlan};
ghost use Rattle.rdf_server.specs.ServeWords.{IsOption, IsServe, kind_of, kind_word, option_words, orders_in, value_word};
ghost use Rattle.rdf_server.specs.Words.{kept_orders};

use crate::plan::{Named, Plan};
use crate::serve_option::{OptionKind, ServeOption};
use crate::words::{are_names, order_of, past_option};
use itoa::Buffer;
use quad_index::{Order, Orders};
use rdf_term::{Memory, Text};
use std::alloc::Global;

/// The most orders that options name.
const MOST_ORDERS: usize = 6;

fn is_command(word: &Text) -> bool
    ensures { IsTrue result ↔ (word.now ≡ codes "serve") }
{
    word.as_str() == "serve"
}

fn kind_text(kind: OptionKind) -> &'static str
    ensures { result.now ≡ kind_word kind }
{
    match kind {
        OptionKind::Order => "--order",
        OptionKind::Port => "--port",
        OptionKind::Workers => "--workers",
        OptionKind::Connections => "--connections",
    }
}

/// Whether a word is the first one of options of this kind.
fn is_kind(word: &Text, kind: OptionKind) -> bool
    ensures { IsTrue result ↔ (word.now ≡ kind_word kind) }
{
    word.as_str() == kind_text(kind)
}

/// The kind of options whose first word this is.
fn kind_at(word: &Text) -> Option<OptionKind>
    ensures some { IfSome result (λ kind. word.now ≡ kind_word kind) }
    ensures none { IfNone result ((kind : OptionKind) → word.now ≡ kind_word kind → ⊥) }
{
    if is_kind(word, OptionKind::Order) {
        return Some(OptionKind::Order);
    }
    if is_kind(word, OptionKind::Port) {
        return Some(OptionKind::Port);
    }
    if is_kind(word, OptionKind::Workers) {
        return Some(OptionKind::Workers);
    }
    if is_kind(word, OptionKind::Connections) {
        return Some(OptionKind::Connections);
    }
    None
}

/// The number that a text writes in decimal without leading zeros.
fn number_in(text: &str) -> Option<u64>
    ensures some { IfSome result (λ n. text.now ≡ decimal n) }
    ensures small { IfSome result (λ n. n < 2 ^ 64) }
    ensures none { IfNone result ((n : ℕ) → n < 2 ^ 64 → text.now ≡ decimal n → ⊥) }
{
    let Ok(number) = text.parse::<u64>() else {
        return None;
    };
    let mut digits = Buffer::new();
    if digits.format(number) == text {
        Some(number)
    } else {
        None
    }
}

/// The number from 1 to `most` that a word is.
pub(crate) fn number_of(word: &Text, most: u64) -> Option<u64>
    ensures some { IfSome result (λ n. word.now ≡ decimal n) }
    ensures range { IfSome result (λ n. (1 ≤ n) × (n ≤ most)) }
    ensures none { IfNone result ((n : ℕ) → 1 ≤ n → n ≤ most → word.now ≡ decimal n → ⊥) }
{
    let Some(number) = number_in(word.as_str()) else {
        return None;
    };
    if number == 0 {
        return None;
    }
    if number > most {
        return None;
    }
    Some(number)
}

/// The option of this kind whose second word this is.
fn option_of(kind: OptionKind, word: &Text) -> Option<ServeOption>
    ensures some { IfSome result (λ it. IsOption it × (kind_of it ≡ kind) × (word.now ≡ value_word it)) }
    ensures none { IfNone result ((it : ServeOption) → IsOption it → kind_of it ≡ kind → word.now ≡ value_word it → ⊥) }
{
    match kind {
        OptionKind::Order => match order_of(word) {
            None => None,
            Some(order) => Some(ServeOption::Order(order)),
        },
        OptionKind::Port => match number_of(word, 65_535) {
            None => None,
            Some(number) => Some(ServeOption::Port(number as u16)),
        },
        OptionKind::Workers => match number_of(word, 32) {
            None => None,
            Some(number) => Some(ServeOption::Workers(number as u32)),
        },
        OptionKind::Connections => match number_of(word, 1_000_000) {
            None => None,
            Some(number) => Some(ServeOption::Connections(number)),
        },
    }
}

/// The option at the front of words.
fn front_option(words: &[Text]) -> Option<ServeOption>
    ensures long { IfSome result (λ it. 2 ≤ length words.now) }
    ensures some { IfSome result (λ it. IsOption it × ((rest : List (List ℕ)) × (words.now ≡ kind_word (kind_of it) ∷ (value_word it ∷ rest)))) }
    ensures none { IfNone result ((it : ServeOption) (rest : List (List ℕ)) → IsOption it → words.now ≡ kind_word (kind_of it) ∷ (value_word it ∷ rest) → ⊥) }
{
    let Some((key, others)) = words.split_first() else {
        return None;
    };
    let Some((word, _)) = others.split_first() else {
        return None;
    };
    match kind_at(key) {
        None => None,
        Some(kind) => option_of(kind, word),
    }
}

fn names_order(option: ServeOption, order: Order) -> bool
    ensures { IsTrue result ↔ (option ≡ variant.Order order) }
{
    match option {
        ServeOption::Order(other) => other == order,
        _ => false,
    }
}

/// Whether an option at the front of words names this order.
fn is_named(words: &[Text], order: Order) -> bool
    ensures { (options : List ServeOption) (ids : List (List ℕ)) → AreRead words.now options ids → IsTrue result ↔ Contains (orders_in options) order }
{
    match front_option(words) {
        None => false,
        Some(option) => names_order(option, order) || is_named(past_option(words), order),
    }
}

/// What the options at the front of words name with one in front of them, where they can stand together.
fn add_option(named: Named, option: ServeOption, behind: &[Text]) -> Option<Named>
    ensures some { IfSome result (λ it. (options : List ServeOption) (ids : List (List ℕ)) → AreRead behind.now options ids → AreOnce options → AreNamed options named
        → AreOnce (option ∷ options) × AreNamed (option ∷ options) it) }
    ensures none { IfNone result ((options : List ServeOption) (ids : List (List ℕ)) → AreRead behind.now options ids → AreNamed options named
        → AreOnce (option ∷ options) → ⊥) }
{
    match option {
        ServeOption::Order(order) => {
            if named.orders >= MOST_ORDERS {
                return None;
            }
            if is_named(behind, order) {
                return None;
            }
            Some(Named {
                orders: named.orders + 1,
                ..named
            })
        }
        ServeOption::Port(port) => match named.port {
            None => Some(Named {
                port: Some(port),
                ..named
            }),
            Some(_) => None,
        },
        ServeOption::Workers(workers) => match named.workers {
            None => Some(Named {
                workers: Some(workers),
                ..named
            }),
            Some(_) => None,
        },
        ServeOption::Connections(connections) => match named.connections {
            None => Some(Named {
                connections: Some(connections),
                ..named
            }),
            Some(_) => None,
        },
    }
}

/// What the options at the front of words name, and the IDs behind them, where the words are of options
/// that can stand together and of IDs. It takes no memory.
fn read_options(words: &[Text]) -> Option<(Named, &[Text])>
    ensures some { IfSome result (λ it. (options : List ServeOption) × AreRead words.now options it.1.now × AreOnce options × AreNamed options it.0) }
    ensures none { IfNone result ((options : List ServeOption) (ids : List (List ℕ)) → AreRead words.now options ids → AreOnce options → ⊥) }
{
    let Some(option) = front_option(words) else {
        return if are_names(words) {
            Some((Named::nothing(), words))
        } else {
            None
        };
    };
    let behind = past_option(words);
    let Some((named, ids)) = read_options(behind) else {
        return None;
    };
    match add_option(named, option, behind) {
        None => None,
        Some(named) => Some((named, ids)),
    }
}

/// The plan of what options name, where they name a port and a number of workers.
fn plan_of(named: Named) -> Option<Plan>
    ensures some { IfSome result (λ plan. (options : List ServeOption) → AreNamed options named → IsPlan options plan) }
    ensures none { IfNone result ((options : List ServeOption) (plan : Plan) → AreNamed options named → IsPlan options plan → ⊥) }
{
    let Some(port) = named.port else {
        return None;
    };
    let Some(workers) = named.workers else {
        return None;
    };
    Some(Plan {
        port,
        workers,
        connections: named.connections,
    })
}

/// The plan of words, the options behind `serve` with the IDs behind them, and those IDs. It takes no memory.
pub(crate) fn serve_words(words: &[Text]) -> Option<(Plan, &[Text], &[Text])>
    ensures some { IfSome result (λ it. (words.now ≡ codes "serve" ∷ it.1.now) × ((options : List ServeOption) × AreRead it.1.now options it.2.now × AreOnce options × IsPlan options it.0)) }
    ensures none { IfNone result ((plan : Plan) (orders : List (List Letter)) (ids : List (List ℕ)) → IsServe words.now plan orders ids → ⊥) }
{
    let Some((command, behind)) = words.split_first() else {
        return None;
    };
    if !is_command(command) {
        return None;
    }
    let Some((named, ids)) = read_options(behind) else {
        return None;
    };
    match plan_of(named) {
        None => None,
        Some(plan) => Some((plan, behind, ids)),
    }
}

/// The plan of words, where they are words of `serve`. It takes no memory.
pub fn read_plan(words: &[Text]) -> Option<Plan>
    // It is the plan of the words where they are words of `serve`, and else none.
    ensures plan { (plan : Plan) (orders : List (List Letter)) (ids : List (List ℕ)) → IsServe words.now plan orders ids → result ≡ Some plan }
    ensures some { IfSome result (λ plan. (orders : List (List Letter)) × ((ids : List (List ℕ)) × IsServe words.now plan orders ids)) }
    ensures port { IfSome result (λ plan. (1 ≤ plan.port) × (plan.port ≤ 65535)) }
    ensures workers { IfSome result (λ plan. (1 ≤ plan.workers) × (plan.workers ≤ 32)) }
    ensures connections { IfSome result (λ plan. IfSome plan.connections (λ most. (1 ≤ most) × (most ≤ 1000000))) }
{
    match serve_words(words) {
        None => None,
        Some((plan, _, _)) => Some(plan),
    }
}

/// The orders that the options at the front of words name, in their order.
fn named_orders(alloc: Global, words: &[Text]) -> Result<Orders, Memory>
    ensures { IfOk result (λ it. (options : List ServeOption) (ids : List (List ℕ)) → AreRead words.now options ids → AreOnce options → it ≡ orders_in options) }
{
    let mut orders = Orders::new(alloc);
    let mut left = words;
    while let Some(option) = front_option(left) {
        if let ServeOption::Order(order) = option {
            order.add_to(&mut orders)?;
        }
        left = past_option(left);
    }
    Ok(orders)
}

/// The orders that options name; the standard ones where none names one.
pub(crate) fn serve_orders(alloc: Global, words: &[Text]) -> Result<Orders, Memory>
    ensures { IfOk result (λ it. (options : List ServeOption) (ids : List (List ℕ)) → AreRead words.now options ids → AreOnce options → it ≡ kept_orders (orders_in options)) }
{
    let orders = named_orders(alloc, words)?;
    if orders.len() == 0 {
        return Order::standard(alloc);
    }
    Ok(orders)
}
