ghost use Rattle.std.specs.Prelude.{◌≡◌, ◌↔◌, [], ◌∷◌, ◌++◌, map, if◌then◌else◌, IsTrue, IfOk, OnErr, IfSome, IfNone, Some, Contains};
ghost use Rattle.std.specs.List.{list_any};
ghost use Rattle.std.specs.Ordering.{eq_by_cmp};
ghost use Rattle.std.specs.Cmp.{partial_equiv_from_equiv};
ghost use Rattle.std.proofs.lemmas.Cmp.{eq_by_cmp_equiv};
ghost use Rattle.quad_index.specs.Letters.{IsArrangement, letter_byte, same_letter, is_term_order, run, order_cmp, order_total, standard_orders};
ghost use Rattle.quad_index.specs.Codes.{arrange, arrange_back, number_of};

use crate::Orders;
use crate::code::Code;
use crate::letter::Letter;
use rdf_term::{Memory, Pattern};
use std::alloc::Global;
use std::cmp::Ordering;
use std::marker::Model;

/// One of the 24 orders of a quad's parts: subject, predicate, object and graph, written `s`, `p`,
/// `o` and `c`. Contracts see it as the list of its letters.
#[derive(Clone, Copy, Debug)]
pub struct Order {
    letters: [Letter; 4],
}

impl Model for Order {
    ghost use Rattle.std.specs.Prelude.{List};
    ghost use Rattle.quad_index.specs.declared.letter.Letter.{Letter};
    ghost use Rattle.quad_index.specs.Letters.{IsArrangement};

    ghost Value = { List Letter };

    ghost view = { λ order. order.letters };

    ghost inverse = { λ letters. record { letters = letters } };

    ghost invariant = { λ order. IsArrangement order.letters };
}

/// Whether a letter is among four.
fn has(letters: &[Letter; 4], letter: Letter) -> bool
    ensures { result ≡ list_any (same_letter letter) letters.now }
{
    let [a, b, c, d] = *letters;
    letter.is(a) || letter.is(b) || letter.is(c) || letter.is(d)
}

/// The order of four letters, where each of the four is among them.
fn arranged(
    first: Option<Letter>,
    second: Option<Letter>,
    third: Option<Letter>,
    fourth: Option<Letter>,
) -> Option<Order>
    ensures some { IfSome result (λ order. IsArrangement order × (map Some order ≡ first ∷ second ∷ third ∷ fourth ∷ [])) }
    ensures none { IfNone result ((order : _) → IsArrangement order → map Some order ≡ first ∷ second ∷ third ∷ fourth ∷ [] → ⊥) }
{
    let Some(first) = first else {
        return None;
    };
    let Some(second) = second else {
        return None;
    };
    let Some(third) = third else {
        return None;
    };
    let Some(fourth) = fourth else {
        return None;
    };
    let letters = [first, second, third, fourth];
    let complete = has(&letters, Letter::S)
        & has(&letters, Letter::P)
        & has(&letters, Letter::O)
        & has(&letters, Letter::C);
    if complete {
        Some(Order { letters })
    } else {
        None
    }
}

impl Order {
    /// The order that is written as these four letters, where the text is an arrangement of `s`,
    /// `p`, `o` and `c`.
    pub fn from_letters(text: &str) -> Option<Order>
        ensures some { IfSome result (λ order. IsArrangement order × (text.now ≡ map letter_byte order)) }
        ensures none { IfNone result ((order : _) → IsArrangement order → text.now ≡ map letter_byte order → ⊥) }
    {
        let [a, b, c, d] = text.as_bytes() else {
            return None;
        };
        arranged(
            Letter::from_byte(*a),
            Letter::from_byte(*b),
            Letter::from_byte(*c),
            Letter::from_byte(*d),
        )
    }

    /// Subject, predicate, object, graph.
    pub(crate) fn spoc() -> Order
        ensures { result ≡ Letter.S ∷ Letter.P ∷ Letter.O ∷ Letter.C ∷ [] }
    {
        Order {
            letters: [Letter::S, Letter::P, Letter::O, Letter::C],
        }
    }

    /// Predicate, object, subject, graph.
    fn posc() -> Order
        ensures { result ≡ Letter.P ∷ Letter.O ∷ Letter.S ∷ Letter.C ∷ [] }
    {
        Order {
            letters: [Letter::P, Letter::O, Letter::S, Letter::C],
        }
    }

    /// The orders where none are asked for: `spoc` and `posc`.
    pub fn standard(alloc: Global) -> Result<Orders, Memory>
        ensures { IfOk result (λ orders. orders ≡ standard_orders) }
    {
        let mut orders = Orders::new(alloc);
        orders.push(Order::spoc())?;
        orders.push(Order::posc())?;
        Ok(orders)
    }

    /// Adds this order at the end of a list that it is not in, and answers whether it was added.
    /// Without memory the list stays as it was.
    pub fn add_to(self, orders: &mut Orders) -> Result<bool, Memory>
        ensures refused { IfOk result (λ added. IsTrue added ↔ (¬ (Contains orders.old self))) }
        ensures orders { IfOk result (λ added. orders.new ≡ (if added then orders.old ++ self ∷ [] else orders.old)) }
        ensures memory { OnErr result (orders.new ≡ orders.old) }
    {
        if orders.as_slice().contains(&self) {
            return Ok(false);
        }
        orders.push(self)?;
        Ok(true)
    }

    /// The four letters as they are written.
    fn written(&self) -> [u8; 4]
        ensures { result ≡ map letter_byte self.now }
    {
        let [a, b, c, d] = self.letters;
        [a.byte(), b.byte(), c.byte(), d.byte()]
    }

    /// How two orders compare as they are written.
    fn compare(&self, other: &Order) -> Ordering
        ensures { result ≡ order_cmp self.now other.now }
    {
        self.written().cmp(&other.written())
    }

    /// The letters are the four. It does nothing.
    pub(crate) fn has_each_letter(&self)
        ensures { IsArrangement self.now }
    {
        let _letters = &self.letters;
    }

    /// Whether this is the order of quads themselves, subject, predicate, object, graph.
    pub(crate) fn is_term_order(&self) -> bool
        ensures { result ≡ is_term_order self.now }
    {
        let [a, b, c, d] = self.letters;
        a.is(Letter::S) && b.is(Letter::P) && c.is(Letter::O) && d.is(Letter::C)
    }

    /// The numbers of a code in this order.
    pub(crate) fn arrange(&self, code: &Code) -> Code
        ensures { result ≡ arrange self.now code.now }
    {
        let [a, b, c, d] = self.letters;
        Code {
            first: a.number(code),
            second: b.number(code),
            third: c.number(code),
            fourth: d.number(code),
        }
    }

    /// The number of the part that a letter names, where the numbers stand in this order.
    fn number_of(&self, code: &Code, letter: Letter) -> u32
        ensures { result ≡ number_of self.now code.now letter }
    {
        let [a, b, c, _] = self.letters;
        if letter.is(a) {
            code.first
        } else if letter.is(b) {
            code.second
        } else if letter.is(c) {
            code.third
        } else {
            code.fourth
        }
    }

    /// The code whose numbers stand in this order.
    pub(crate) fn arrange_back(&self, code: &Code) -> Code
        ensures { result ≡ arrange_back self.now code.now }
    {
        Code {
            first: self.number_of(code, Letter::S),
            second: self.number_of(code, Letter::P),
            third: self.number_of(code, Letter::O),
            fourth: self.number_of(code, Letter::C),
        }
    }

    /// The number of leading letters whose parts the pattern gives.
    pub(crate) fn run(&self, pattern: &Pattern) -> usize
        ensures { result ≡ run pattern.now self.now }
    {
        let [a, b, c, d] = self.letters;
        if !a.is_given(pattern) {
            0
        } else if !b.is_given(pattern) {
            1
        } else if !c.is_given(pattern) {
            2
        } else if !d.is_given(pattern) {
            3
        } else {
            4
        }
    }
}

impl PartialEq for Order {
    ghost eq = { eq_by_cmp order_cmp };

    ghost laws = { partial_equiv_from_equiv (eq_by_cmp_equiv order_total) };

    fn eq(&self, other: &Order) -> bool
        ensures value { result ≡ eq_by_cmp order_cmp self.now other.now }
        ensures same { IsTrue result ↔ (self.now ≡ other.now) }
    {
        self.compare(other).is_eq()
    }
}

impl Eq for Order {
    ghost laws = { eq_by_cmp_equiv order_total };
}
