//! What no clause says of an index: that each call finds memory, that a scan costs only what it finds,
//! and that no choice of texts makes it slower.
use quad_index::{Index, Order, Orders};
use rdf_term::{Duplicate, Graph, GraphPick, Memory, Pattern, Quad, Quads, Scan, Term, Text};
use std::alloc::Global;

fn iri(alloc: Global, text: &str) -> Result<Term, Memory> {
    Ok(Term::Iri(Text::from_chars(alloc, text)?))
}

fn plain(alloc: Global, text: &str) -> Result<Term, Memory> {
    Ok(Term::Plain(Text::from_chars(alloc, text)?))
}

fn quad(alloc: Global, object: &str, graph: Graph) -> Result<Quad, Memory> {
    let quad = Quad::new(
        iri(alloc, "http://e/s")?,
        iri(alloc, "http://e/p")?,
        plain(alloc, object)?,
        graph,
    );
    quad.map_err(|_| Memory)
}

/// All 24 orders as they are written.
const LETTERS: [&str; 24] = [
    "spoc", "spco", "sopc", "socp", "scpo", "scop", "psoc", "psco", "posc", "pocs", "pcso", "pcos",
    "ospc", "oscp", "opsc", "opcs", "ocsp", "ocps", "cspo", "csop", "cpso", "cpos", "cosp", "cops",
];

fn order(letters: &str) -> Result<Order, Memory> {
    Order::from_letters(letters).ok_or(Memory)
}

#[test]
fn orders_are_distinct(rt: HostRuntime) -> Result<(), Memory> {
    let alloc = rt.alloc();
    let mut orders = Orders::new(alloc);
    for letters in LETTERS {
        assert!(rt; order(letters)?.add_to(&mut orders)?);
        assert!(rt; !order(letters)?.add_to(&mut orders)?);
    }
    assert_eq!(rt; orders.len(), 24);
    let standard = Order::standard(alloc)?;
    assert_eq!(rt; standard.len(), 2);
    assert!(rt; standard.at(0).copied() == Order::from_letters("spoc"));
    assert!(rt; standard.at(1).copied() == Order::from_letters("posc"));
    Ok(())
}

/// An index of these quads in these orders, one to six.
fn index_in(alloc: Global, letters: &[&str], quads: &Quads) -> Result<Index, Memory> {
    let mut orders = Orders::new(alloc);
    for letters in letters {
        order(letters)?.add_to(&mut orders)?;
    }
    if orders.len() == 0 || orders.len() > 6 {
        return Err(Memory);
    }
    Index::build(alloc, &orders, quads)
}

/// A part of a pattern.
fn part(alloc: Global, given: bool) -> Result<Option<Term>, Memory> {
    if given {
        Ok(Some(iri(alloc, "http://e/p")?))
    } else {
        Ok(None)
    }
}

/// What picks a graph: `c` the absent one, `n` every named one, and no letter every graph.
fn pick(given: &str) -> GraphPick {
    if given.contains('c') {
        GraphPick::One(Graph::Absent)
    } else if given.contains('n') {
        GraphPick::NamedOnly
    } else {
        GraphPick::Any
    }
}

/// A pattern that gives the parts of these letters.
fn giving(alloc: Global, given: &str) -> Result<Pattern, Memory> {
    Ok(Pattern {
        s: part(alloc, given.contains('s'))?,
        p: part(alloc, given.contains('p'))?,
        o: part(alloc, given.contains('o'))?,
        c: pick(given),
    })
}

/// Whether an index chooses this order where the parts of these letters are given.
fn chooses(alloc: Global, index: &Index, given: &str, letters: &str) -> Result<bool, Memory> {
    let order = order(letters)?;
    let pattern = giving(alloc, given)?;
    Ok(index.choose(&pattern) == order)
}

#[test]
fn the_longest_run_is_chosen(rt: HostRuntime) -> Result<(), Memory> {
    let alloc = rt.alloc();
    let index = index_in(alloc, &["spoc", "posc", "cspo"], &Quads::new(alloc))?;
    for (given, letters) in [
        ("s", "spoc"),
        ("p", "posc"),
        ("po", "posc"),
        ("c", "cspo"),
        ("sc", "cspo"),
    ] {
        assert!(rt; chooses(alloc, &index, given, letters)?);
    }
    Ok(())
}

#[test]
fn the_earlier_of_two_as_good_is_chosen(rt: HostRuntime) -> Result<(), Memory> {
    let alloc = rt.alloc();
    let index = index_in(alloc, &["posc", "spoc", "cspo"], &Quads::new(alloc))?;
    for given in ["", "o", "spo", "spoc"] {
        assert!(rt; chooses(alloc, &index, given, "posc")?);
    }
    let index = index_in(alloc, &["spoc", "posc"], &Quads::new(alloc))?;
    assert!(rt; chooses(alloc, &index, "spo", "spoc")?);
    Ok(())
}

#[test]
fn named_graphs_are_not_given(rt: HostRuntime) -> Result<(), Memory> {
    let alloc = rt.alloc();
    let index = index_in(alloc, &["spoc", "cspo", "posc"], &Quads::new(alloc))?;
    for (given, letters) in [("n", "spoc"), ("on", "spoc"), ("pn", "posc")] {
        assert!(rt; chooses(alloc, &index, given, letters)?);
    }
    Ok(())
}

#[test]
fn scan_orders(rt: HostRuntime) -> Result<(), Memory> {
    let alloc = rt.alloc();
    let name = Graph::Named(iri(alloc, "http://e/g")?);
    let first = quad(alloc, "1", Graph::Absent)?;
    let second = quad(alloc, "2", Graph::Absent)?;
    let third = quad(alloc, "2", name)?;
    let mut quads = Quads::new(alloc);
    for quad in [&third, &first, &second, &first] {
        quads.push(quad.copy(alloc)?)?;
    }
    for letters in LETTERS {
        let mut orders = Orders::new(alloc);
        orders.push(order(letters)?)?;
        let mut index = Index::build(alloc, &orders, &quads)?;
        assert_eq!(rt; index.len(), 3);
        let pattern = Pattern {
            s: None,
            p: None,
            o: Some(plain(alloc, "2")?),
            c: GraphPick::Any,
        };
        let found = index.scan(alloc, &pattern)?;
        assert_eq!(rt; found.len(), 2);
        assert!(rt; found.at(0).is_some_and(|quad| *quad == second));
        assert!(rt; found.at(1).is_some_and(|quad| *quad == third));
        assert!(rt; index.remove(&first)?);
        assert!(rt; !index.remove(&first)?);
        assert!(rt; !index.has(&first));
        assert!(rt; !index.insert(&second)?);
        assert!(rt; index.insert(&first)?);
        assert!(rt; index.has(&first));
    }
    Ok(())
}

/// The quad of a number: `<http://e/sN> <http://e/p> "N" .`.
fn numbered(alloc: Global, number: u32) -> Result<Quad, Memory> {
    let subject = format!(in alloc; "http://e/s{number}")?;
    let object = format!(in alloc; "{number}")?;
    let quad = Quad::new(
        iri(alloc, subject.as_str())?,
        iri(alloc, "http://e/p")?,
        plain(alloc, object.as_str())?,
        Graph::Absent,
    );
    quad.map_err(|_| Memory)
}

/// What asks for the subject of a number.
fn by_subject(alloc: Global, number: u32) -> Result<Pattern, Memory> {
    let subject = format!(in alloc; "http://e/s{number}")?;
    Ok(Pattern {
        s: Some(iri(alloc, subject.as_str())?),
        p: None,
        o: None,
        c: GraphPick::Any,
    })
}

/// Two texts of equal length between which a digest by multiplication and addition modulo 2^32, with
/// the factor 16,777,619, doesn't tell: texts that are made of so many of them have one digest.
const ALIKE: [&str; 2] = ["7ozgbg", "lharuf"];

/// The term of a number below 2^17, whose digest is that of every other number's.
fn alike(alloc: Global, number: u32) -> Result<Term, Memory> {
    let mut text = Text::from_chars(alloc, "http://e/")?;
    let mut rest = number;
    for _ in 0..17 {
        text.append(ALIKE[(rest % 2) as usize])?;
        rest /= 2;
    }
    Ok(Term::Iri(text))
}

/// The quads of the numbers below a count, of subjects and objects with one digest.
fn all_alike(alloc: Global, count: u32) -> Result<Quads, Memory> {
    let mut quads = Quads::new(alloc);
    for number in 0..count {
        let subject = alike(alloc, number)?;
        let object = alike(alloc, number)?;
        match Quad::new(subject, iri(alloc, "http://e/p")?, object, Graph::Absent) {
            Ok(quad) => quads.push(quad)?,
            Err(_) => return Err(Memory),
        }
    }
    Ok(quads)
}

/// What asks for the object of a number among those with one digest.
fn by_alike_object(alloc: Global, number: u32) -> Result<Pattern, Memory> {
    Ok(Pattern {
        s: None,
        p: Some(iri(alloc, "http://e/p")?),
        o: Some(alike(alloc, number)?),
        c: GraphPick::Any,
    })
}

#[test]
fn terms_with_one_digest_load_as_others(rt: HostRuntime) -> Result<(), Memory> {
    let alloc = rt.alloc();
    let orders = Order::standard(alloc)?;
    let index = Index::build(alloc, &orders, &all_alike(alloc, 100_000)?)?;
    assert_eq!(rt; index.len(), 100_000);
    for number in 0..100_000 {
        let pattern = by_alike_object(alloc, number)?;
        assert_eq!(rt; index.scan(alloc, &pattern)?.len(), 1);
    }
    Ok(())
}

#[test]
fn scan_load(rt: HostRuntime) -> Result<(), Memory> {
    let alloc = rt.alloc();
    let orders = Order::standard(alloc)?;
    let mut quads = Quads::new(alloc);
    for number in 0..100_000 {
        quads.push(numbered(alloc, number)?)?;
    }
    let index = Index::build(alloc, &orders, &quads.into_set()?)?;
    for scan in 0..200_000 {
        let pattern = by_subject(alloc, scan % 100_000)?;
        assert_eq!(rt; index.scan(alloc, &pattern)?.len(), 1);
    }
    Ok(())
}
