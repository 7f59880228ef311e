//! Texts, lists and buffers, terms and quads, their order, and patterns over them. Terms and quads are
//! named by their texts in N-Triples and N-Quads.
use nquads_line::{Kind, read_line, read_term};
use rdf_term::{
    Bytes, Distinct, Duplicate, Graph, GraphPick, Memory, Pattern, Quad, Quads, Row, Rows, Seq,
    Term, TermFault, Text,
};
use std::alloc::Global;
use std::process::Abort;

fn term(rt: &impl Abort, alloc: Global, text: &str) -> Term {
    read_term(alloc, text.as_bytes()).expect(rt, text)
}

/// The term of a text, or none for the empty text.
fn place(rt: &impl Abort, alloc: Global, text: &str) -> Option<Term> {
    if text.is_empty() {
        return None;
    }
    Some(term(rt, alloc, text))
}

/// The graph of this name, or the absent one for the empty text.
fn graph(rt: &impl Abort, alloc: Global, text: &str) -> Graph {
    match place(rt, alloc, text) {
        None => Graph::Absent,
        Some(name) => Graph::Named(name),
    }
}

fn quad(rt: &impl Abort, alloc: Global, line: &str) -> Quad {
    let quad = read_line(alloc, Kind::Quads, line.as_bytes()).expect(rt, line);
    quad.expect(rt, line)
}

fn quads(rt: &impl Abort, alloc: Global, lines: &[&str]) -> Result<Quads, Memory> {
    let mut quads = Quads::new(alloc);
    for line in lines {
        quads.push(quad(rt, alloc, line))?;
    }
    Ok(quads)
}

/// Characters and their text.
static TEXTS: &[(&[char], &str)] = &[
    (&[], ""),
    (&['a'], "a"),
    (&['a', 'é', '–', '😀'], "aé–😀"),
    (&['\0', '\u{10FFFF}', '"', '\\'], "\0\u{10FFFF}\"\\"),
    (&['e', '\u{301}'], "e\u{301}"),
];

#[test]
fn texts_are_made_of_characters(rt: HostRuntime) -> Result<(), Memory> {
    let alloc = rt.alloc();
    for (characters, wanted) in TEXTS {
        let text = Text::from_chars(alloc, wanted)?;
        assert!(rt; text.as_str() == *wanted);
        assert!(rt;
            Text::from_char_slice(alloc, characters)? == text,
            "{wanted}"
        );
        let mut pushed = Text::from_chars(alloc, "–")?;
        let mut appended = pushed.copy(alloc)?;
        for character in *characters {
            pushed.push(*character)?;
        }
        appended.append(wanted)?;
        assert!(rt; pushed == appended, "{wanted}");
        assert!(rt;
            Text::from_chars(alloc, "–")?.with_chars(characters)? == pushed,
            "{wanted}"
        );
    }
    Ok(())
}

/// What is done to a buffer.
enum Edit {
    Room(usize),
    Push(u8),
    Append(&'static [u8]),
    Decimal(u64),
    Truncate(usize),
    Clear,
}

/// Edits of one buffer, each with the bytes that stand after it.
static EDITS: &[(Edit, &[u8])] = &[
    (Edit::Clear, b""),
    (Edit::Room(3), b""),
    (Edit::Push(b'a'), b"a"),
    (Edit::Append(b"bc"), b"abc"),
    (Edit::Append(b""), b"abc"),
    (Edit::Room(0), b"abc"),
    (Edit::Room(100_000), b"abc"),
    (Edit::Push(0xFF), b"abc\xFF"),
    (Edit::Truncate(9), b"abc\xFF"),
    (Edit::Truncate(2), b"ab"),
    (Edit::Append(b"\0\n"), b"ab\0\n"),
    (Edit::Truncate(0), b""),
    (Edit::Append(b"again"), b"again"),
    (Edit::Clear, b""),
    (Edit::Push(b'z'), b"z"),
    (Edit::Decimal(0), b"z0"),
    (Edit::Decimal(7), b"z07"),
    (Edit::Truncate(1), b"z"),
    (Edit::Decimal(10), b"z10"),
    (Edit::Decimal(65_535), b"z1065535"),
    (Edit::Clear, b""),
    (
        Edit::Decimal(9_999_999_999_999_999_999),
        b"9999999999999999999",
    ),
    (Edit::Clear, b""),
    (
        Edit::Decimal(10_000_000_000_000_000_000),
        b"10000000000000000000",
    ),
    (Edit::Clear, b""),
    (Edit::Decimal(u64::MAX), b"18446744073709551615"),
];

fn apply(bytes: &mut Bytes, edit: &Edit) -> Result<(), Memory> {
    match edit {
        Edit::Room(count) => bytes.room(*count),
        Edit::Push(byte) => bytes.push(*byte),
        Edit::Append(piece) => bytes.append(piece),
        Edit::Decimal(number) => bytes.append_decimal(*number),
        Edit::Truncate(len) => {
            bytes.truncate(*len);
            Ok(())
        }
        Edit::Clear => {
            bytes.clear();
            Ok(())
        }
    }
}

#[test]
fn buffers_are_edited(rt: HostRuntime) -> Result<(), Memory> {
    let alloc = rt.alloc();
    let mut bytes = Bytes::new(alloc);
    for (edit, wanted) in EDITS {
        apply(&mut bytes, edit)?;
        assert!(rt; bytes.as_slice() == *wanted, "{wanted:?}");
        assert_eq!(rt; bytes.len(), wanted.len());
        assert!(rt;
            bytes.at(0).copied() == wanted.first().copied(),
            "{wanted:?}"
        );
        assert!(rt; bytes.at(wanted.len()).is_none(), "{wanted:?}");
        assert!(rt; bytes.copy(alloc)?.as_slice() == *wanted, "{wanted:?}");
        let vector = wanted.to_vec(alloc)?;
        assert!(rt; Bytes::from_vec(vector).as_slice() == *wanted, "{wanted:?}");
    }
    Ok(())
}

#[test]
fn lists_grow_and_copy(rt: HostRuntime) -> Result<(), Memory> {
    let alloc = rt.alloc();
    let mut pairs: Seq<(Text, Option<Text>)> = Seq::new(alloc);
    let text = Text::from_chars(alloc, "é")?;
    pairs.push((text.copy(alloc)?, None))?;
    let mut more = pairs.copy(alloc)?;
    more.push((text.copy(alloc)?, Some(text)))?;
    pairs.append(more)?;
    assert_eq!(rt; pairs.copy(alloc)?.len(), 3);
    assert!(rt; pairs.at(1).is_some_and(|pair| pair.1.is_none()));
    assert!(rt; pairs.at(2).is_some_and(|pair| pair.1.is_some()));
    assert!(rt; pairs.at(3).is_none());
    assert_eq!(rt; pairs.into_vec().len(), 3);
    let mut names = Distinct::new(alloc);
    names.push(Text::from_chars(alloc, "a")?)?;
    assert!(rt; names.at(0).is_some_and(|name| name.as_str() == "a"));
    assert_eq!(rt; names.len(), names.as_slice().len());
    assert!(rt; names.copy(alloc)? == names && names != Distinct::new(alloc));
    Ok(())
}

/// Terms in their order: by kind, then by the first text, then by the second, as bytes in UTF-8.
static TERMS: &[&str] = &[
    "<a:>",
    "<a:B>",
    "<a:b>",
    "<a:bc>",
    "<a:é>",
    "<a:\u{FFFD}>",
    "<a:😀>",
    "<aa:>",
    "_:0",
    "_:a",
    "_:a.b",
    "_:b",
    "\"\"",
    "\"\\n\"",
    "\"A\"",
    "\"a\"",
    "\"a\\n\"",
    "\"\u{FFFD}\"",
    "\"😀\"",
    "\"\"@en",
    "\"a\"@EN",
    "\"a\"@en",
    "\"a\"@en-GB",
    "\"b\"@de",
    "\"\"^^<a:d>",
    "\"a\"^^<a:c>",
    "\"a\"^^<a:d>",
    "\"b\"^^<a:c>",
];

#[test]
fn terms_are_ordered_by_kind_and_texts(rt: HostRuntime) -> Result<(), Memory> {
    let alloc = rt.alloc();
    let mut terms = Seq::new(alloc);
    for text in TERMS {
        terms.push(term(&rt, alloc, text))?;
    }
    for (place, left) in terms.as_slice().iter().enumerate() {
        for (other, right) in terms.as_slice().iter().enumerate() {
            assert!(rt;
                left.cmp(right) == place.cmp(&other),
                "{left:?} and {right:?}"
            );
            assert!(rt;
                (*left == *right) == (place == other),
                "{left:?} and {right:?}"
            );
            assert!(rt;
                (*left < *right) == (place < other),
                "{left:?} and {right:?}"
            );
        }
        assert!(rt; left.copy(alloc)? == *left, "{left:?}");
        assert_eq!(rt; left.is_iri(), place < 8, "{left:?}");
        assert_eq!(rt; left.is_resource(), place < 12, "{left:?}");
    }
    Ok(())
}

/// Quads in their order: by subject, predicate, object, graph, the absent graph first.
static QUADS: &[&str] = &[
    "<a:s> <a:p> <a:o> .",
    "<a:s> <a:p> <a:o> <a:g> .",
    "<a:s> <a:p> <a:o> <a:h> .",
    "<a:s> <a:p> <a:o> _:a .",
    "<a:s> <a:p> <a:o1> .",
    "<a:s> <a:p> _:o .",
    "<a:s> <a:p> \"o\" <a:g> .",
    "<a:s> <a:p> \"o\"@en .",
    "<a:s> <a:p> \"o\"^^<a:t> .",
    "<a:s> <a:p1> <a:o> .",
    "<a:s1> <a:p> <a:o> .",
    "_:s <a:p> <a:o> .",
    "_:s <a:p> <a:o> _:s .",
];

#[test]
fn quads_are_ordered_by_their_parts(rt: HostRuntime) -> Result<(), Memory> {
    let alloc = rt.alloc();
    let sorted = quads(&rt, alloc, QUADS)?;
    let mut mixed = Quads::new(alloc);
    for (place, left) in sorted.as_slice().iter().enumerate() {
        for (other, right) in sorted.as_slice().iter().enumerate() {
            assert!(rt;
                left.cmp(right) == place.cmp(&other),
                "{left:?} and {right:?}"
            );
            assert!(rt;
                (*left == *right) == (place == other),
                "{left:?} and {right:?}"
            );
            if place <= other || place % 3 == 0 {
                mixed.push(right.copy(alloc)?)?;
            }
        }
        mixed.push(left.copy(alloc)?)?;
    }
    assert!(rt; mixed.len() > 2 * sorted.len());
    assert!(rt; mixed > sorted);
    assert!(rt; mixed.into_set()? == sorted);
    assert!(rt; Quads::new(alloc).into_set()? == Quads::new(alloc));
    Ok(())
}

/// Four parts, the last one empty where there is no graph, and why they are no quad, where they are none.
static PARTS: &[([&str; 4], Option<TermFault>)] = &[
    (["<a:s>", "<a:p>", "<a:o>", ""], None),
    (["_:s", "<a:p>", "_:s", "_:s"], None),
    (["<a:s>", "<a:p>", "\"o\"", "<a:g>"], None),
    (["<a:s>", "<a:p>", "\"o\"@en", ""], None),
    (["<a:s>", "<a:p>", "\"o\"^^<a:t>", "_:g"], None),
    (["\"s\"", "<a:p>", "<a:o>", ""], Some(TermFault::Subject)),
    (
        ["\"s\"@en", "_:p", "<a:o>", "\"g\""],
        Some(TermFault::Subject),
    ),
    (["<a:s>", "_:p", "<a:o>", ""], Some(TermFault::Predicate)),
    (
        ["<a:s>", "\"p\"", "<a:o>", "\"g\""],
        Some(TermFault::Predicate),
    ),
    (
        ["_:s", "<a:p>", "<a:o>", "\"g\""],
        Some(TermFault::GraphName),
    ),
    (
        ["_:s", "<a:p>", "\"o\"", "\"g\"^^<a:t>"],
        Some(TermFault::GraphName),
    ),
];

/// The causes and their texts.
static FAULTS: [(TermFault, &str); 3] = [
    (TermFault::Subject, "the subject is a literal"),
    (TermFault::Predicate, "the predicate is no IRI"),
    (TermFault::GraphName, "the graph is named by a literal"),
];

#[test]
fn quads_need_their_kinds_of_terms(rt: HostRuntime) -> Result<(), Memory> {
    let alloc = rt.alloc();
    for ([s, p, o, c], wanted) in PARTS {
        let name = graph(&rt, alloc, c);
        assert_eq!(rt; name.is_graph(), !c.starts_with("\""), "{c}");
        let part = |text: &str| term(&rt, alloc, text);
        match Quad::new(part(s), part(p), part(o), name.copy(alloc)?) {
            Ok(quad) => {
                assert!(rt; wanted.is_none(), "{s} {p} {o} {c}");
                assert!(rt;
                    *quad.s() == part(s) && *quad.p() == part(p),
                    "{s} {p} {o} {c}"
                );
                assert!(rt;
                    *quad.o() == part(o) && *quad.c() == name,
                    "{s} {p} {o} {c}"
                );
            }
            Err(fault) => assert!(rt; Some(fault) == *wanted, "{s} {p} {o} {c}: {fault}"),
        }
    }
    for (fault, text) in FAULTS {
        assert!(rt; format!(in alloc; "{fault}")?.as_str() == text, "{text}");
    }
    Ok(())
}

/// Which graphs are picked.
enum Pick {
    Any,
    Named,
    One(&'static str),
}

/// The parts of a pattern, empty ones for those that it leaves open, the graphs that it picks, and the
/// places of the quads in their table that match.
struct Picked {
    parts: [&'static str; 3],
    pick: Pick,
    places: &'static [usize],
}

static PATTERNS: &[Picked] = &[
    Picked {
        parts: ["", "", ""],
        pick: Pick::Any,
        places: &[0, 1, 2, 3, 4, 5, 6, 7, 8, 9, 10, 11, 12],
    },
    Picked {
        parts: ["", "", ""],
        pick: Pick::Named,
        places: &[1, 2, 3, 6, 12],
    },
    Picked {
        parts: ["", "", ""],
        pick: Pick::One(""),
        places: &[0, 4, 5, 7, 8, 9, 10, 11],
    },
    Picked {
        parts: ["", "", ""],
        pick: Pick::One("<a:g>"),
        places: &[1, 6],
    },
    Picked {
        parts: ["", "", ""],
        pick: Pick::One("_:g"),
        places: &[],
    },
    Picked {
        parts: ["_:s", "", ""],
        pick: Pick::Any,
        places: &[11, 12],
    },
    Picked {
        parts: ["", "<a:p1>", ""],
        pick: Pick::Any,
        places: &[9],
    },
    Picked {
        parts: ["<a:s>", "", "\"o\""],
        pick: Pick::Any,
        places: &[6],
    },
    Picked {
        parts: ["<a:s>", "<a:p>", "<a:o>"],
        pick: Pick::Named,
        places: &[1, 2, 3],
    },
    Picked {
        parts: ["<a:s>", "<a:p>", "\"o\"@EN"],
        pick: Pick::Any,
        places: &[],
    },
    Picked {
        parts: ["\"o\"", "", ""],
        pick: Pick::Any,
        places: &[],
    },
];

fn pattern(rt: &impl Abort, alloc: Global, picked: &Picked) -> Pattern {
    let [s, p, o] = picked.parts;
    Pattern {
        s: place(rt, alloc, s),
        p: place(rt, alloc, p),
        o: place(rt, alloc, o),
        c: match picked.pick {
            Pick::Any => GraphPick::Any,
            Pick::Named => GraphPick::NamedOnly,
            Pick::One(name) => GraphPick::One(graph(rt, alloc, name)),
        },
    }
}

#[test]
fn patterns_pick_by_part_and_graph(rt: HostRuntime) -> Result<(), Memory> {
    let alloc = rt.alloc();
    let data = quads(&rt, alloc, QUADS)?;
    for picked in PATTERNS {
        let pattern = pattern(&rt, alloc, picked).copy(alloc)?;
        for (place, quad) in data.as_slice().iter().enumerate() {
            assert_eq!(rt;
                pattern.matches(quad),
                picked.places.contains(&place),
                "{pattern:?} {quad:?}"
            );
        }
    }
    Ok(())
}

/// Rows of two columns, an empty text for an unbound one, and the same in the order of rows: column by
/// column, the unbound one first.
static ROWS: [[&str; 2]; 7] = [
    ["<b:>", ""],
    ["<a:>", "\"c\""],
    ["", "<z:>"],
    ["<a:>", ""],
    ["<a:>", "<c:>"],
    ["", ""],
    ["<a:>", ""],
];

static SORTED_ROWS: [[&str; 2]; 7] = [
    ["", ""],
    ["", "<z:>"],
    ["<a:>", ""],
    ["<a:>", ""],
    ["<a:>", "<c:>"],
    ["<a:>", "\"c\""],
    ["<b:>", ""],
];

fn table(rt: &impl Abort, alloc: Global, places: &[[&str; 2]]) -> Result<Rows, Memory> {
    let mut rows = Rows::new(alloc);
    for [first, second] in places {
        let mut row = Row::new(alloc);
        row.push(place(rt, alloc, first))?;
        row.push(place(rt, alloc, second))?;
        rows.push(row)?;
    }
    Ok(rows)
}

#[test]
fn rows_are_sorted_column_by_column(rt: HostRuntime) -> Result<(), Memory> {
    let alloc = rt.alloc();
    let rows = table(&rt, alloc, &ROWS)?;
    let sorted = table(&rt, alloc, &SORTED_ROWS)?;
    assert!(rt; rows != sorted && sorted < rows);
    assert!(rt; rows.into_sorted()? == sorted);
    Ok(())
}
