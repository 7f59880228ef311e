//! Change sets: worked values of each public call.
use change_set::{Change, ChangeSet, Changes, Effect};
use rdf_term::{Duplicate, Graph, GraphPick, Memory, Pattern, Quad, Quads, Scan, Term, Text};
use std::alloc::Global;

fn iri(alloc: Global, text: &str) -> Result<Term, Memory> {
    Ok(Term::Iri(Text::from_chars(alloc, text)?))
}

/// The quad of a subject and an object.
fn quad(alloc: Global, subject: &str, object: &str) -> Result<Quad, Memory> {
    let s = iri(alloc, subject)?;
    let p = iri(alloc, "urn:p")?;
    let o = Term::Plain(Text::from_chars(alloc, object)?);
    match Quad::new(s, p, o, Graph::Absent) {
        Ok(quad) => Ok(quad),
        Err(_) => Err(Memory),
    }
}

/// Three quads of two subjects, in their order.
fn three(alloc: Global) -> Result<Quads, Memory> {
    let mut quads = Quads::new(alloc);
    for (subject, object) in [("urn:a", "1"), ("urn:a", "2"), ("urn:b", "1")] {
        quads.push(quad(alloc, subject, object)?)?;
    }
    Ok(quads)
}

fn everything() -> Pattern {
    Pattern {
        s: None,
        p: None,
        o: None,
        c: GraphPick::Any,
    }
}

fn of_subject(alloc: Global, subject: &str) -> Result<Pattern, Memory> {
    Ok(Pattern {
        s: Some(iri(alloc, subject)?),
        p: None,
        o: None,
        c: GraphPick::Any,
    })
}

fn copy_at(alloc: Global, quads: &Quads, place: usize) -> Result<Quad, Memory> {
    match quads.at(place) {
        Some(quad) => quad.copy(alloc),
        None => Err(Memory),
    }
}

/// A change by its letter: `+` adds, `-` removes the quad of a number, `a` removes what has the first
/// subject, and `*` removes everything.
fn change(alloc: Global, quads: &Quads, kind: char, place: usize) -> Result<Change, Memory> {
    Ok(match kind {
        '+' => Change::Add(copy_at(alloc, quads, place)?),
        '-' => Change::Remove(copy_at(alloc, quads, place)?),
        'a' => Change::RemoveMatching(of_subject(alloc, "urn:a")?),
        _ => Change::RemoveMatching(everything()),
    })
}

fn changes(alloc: Global, quads: &Quads, list: &[(char, usize)]) -> Result<Changes, Memory> {
    let mut changes = Changes::new(alloc);
    for (kind, place) in list {
        changes.push(change(alloc, quads, *kind, *place)?)?;
    }
    Ok(changes)
}

/// The set of a list made at once.
fn at_once(alloc: Global, quads: &Quads, list: &[(char, usize)]) -> Result<ChangeSet, Memory> {
    let changes = changes(alloc, quads, list)?;
    ChangeSet::from_changes(alloc, changes.as_slice())
}

/// The set of a list made by one push after the other.
fn one_by_one(alloc: Global, quads: &Quads, list: &[(char, usize)]) -> Result<ChangeSet, Memory> {
    let changes = changes(alloc, quads, list)?;
    let mut set = ChangeSet::new(alloc);
    for change in changes.as_slice() {
        set.push(change)?;
    }
    Ok(set)
}

/// A letter for what a set does to each quad.
fn effects(set: &ChangeSet, quads: &Quads) -> [char; 3] {
    let mut letters = ['?'; 3];
    for (place, quad) in quads.as_slice().iter().enumerate() {
        if place < 3 {
            letters[place] = match set.effect(quad) {
                Effect::Added => '+',
                Effect::Removed => '-',
                Effect::Untouched => ' ',
            };
        }
    }
    letters
}

/// Lists of changes with what they do to each of the quads, how many changes are kept of them, and how
/// many of those are patterns.
const LISTS: [(&[(char, usize)], [char; 3], u64, usize); 9] = [
    (&[], [' ', ' ', ' '], 0, 0),
    (&[('+', 1)], [' ', '+', ' '], 1, 0),
    (&[('-', 1)], [' ', '-', ' '], 1, 0),
    (&[('+', 2), ('-', 2), ('+', 0)], ['+', ' ', '-'], 2, 0),
    (&[('-', 2), ('+', 2)], [' ', ' ', '+'], 1, 0),
    (&[('+', 0), ('a', 0), ('+', 2)], ['-', '-', '+'], 3, 1),
    (&[('a', 0), ('+', 0), ('+', 0)], ['+', '-', ' '], 2, 1),
    (&[('a', 0), ('*', 0)], ['-', '-', '-'], 1, 1),
    (&[('*', 0), ('+', 1)], ['-', '+', '-'], 2, 1),
];

#[test]
fn last_wins(rt: HostRuntime) -> Result<(), Memory> {
    let alloc = rt.alloc();
    let quads = three(alloc)?;
    for (list, effects_of_it, kept, patterns) in LISTS {
        for set in [
            at_once(alloc, &quads, list)?,
            one_by_one(alloc, &quads, list)?,
        ] {
            assert_eq!(rt; effects(&set, &quads), effects_of_it);
            assert_eq!(rt; effects(&set.copy(alloc)?, &quads), effects_of_it);
            assert_eq!(rt; set.len(), kept);
            assert_eq!(rt; set.patterns().len(), patterns);
        }
    }
    Ok(())
}

/// Two lists of changes each, with what they do one after the other.
const PAIRS: [(&[(char, usize)], &[(char, usize)], [char; 3]); 4] = [
    (&[('+', 0)], &[('-', 0)], ['-', ' ', ' ']),
    (&[('-', 0)], &[('+', 0)], ['+', ' ', ' ']),
    (&[('+', 0), ('+', 2)], &[('a', 0)], ['-', '-', '+']),
    (&[('*', 0)], &[('+', 1)], ['-', '+', '-']),
];

#[test]
fn the_newer_list_wins(rt: HostRuntime) -> Result<(), Memory> {
    let alloc = rt.alloc();
    let quads = three(alloc)?;
    for (older, newer, effects_of_both) in PAIRS {
        let mut older = at_once(alloc, &quads, older)?;
        let newer = at_once(alloc, &quads, newer)?;
        let merged = ChangeSet::merge(alloc, &older, &newer)?;
        assert_eq!(rt; effects(&merged, &quads), effects_of_both);
        older.append(&newer)?;
        assert_eq!(rt; effects(&older, &quads), effects_of_both);
    }
    Ok(())
}

/// Whether a scan finds just the quads of these places.
fn finds(
    alloc: Global,
    set: &ChangeSet,
    pattern: &Pattern,
    quads: &Quads,
    places: &[usize],
) -> Result<bool, Memory> {
    let found = set.scan(alloc, pattern)?;
    let mut left = found.as_slice();
    for place in places {
        match (left, quads.at(*place)) {
            ([first, rest @ ..], Some(quad)) if *first == *quad => left = rest,
            _ => return Ok(false),
        }
    }
    Ok(left.is_empty())
}

#[test]
fn parts_are_found(rt: HostRuntime) -> Result<(), Memory> {
    let alloc = rt.alloc();
    let quads = three(alloc)?;
    let set = at_once(alloc, &quads, &[('+', 2), ('-', 1), ('+', 0)])?;
    let first = of_subject(alloc, "urn:a")?;
    let second = of_subject(alloc, "urn:b")?;
    let third = of_subject(alloc, "urn:c")?;
    assert!(rt; finds(alloc, &set, &everything(), &quads, &[0, 2])?);
    assert!(rt; finds(alloc, &set, &first, &quads, &[0])?);
    assert!(rt; finds(alloc, &set, &second, &quads, &[2])?);
    assert!(rt; finds(alloc, &set, &third, &quads, &[])?);
    assert_eq!(rt; set.removals(alloc)?.len(), 1);
    let least = set.least_touched(&[second]);
    assert!(rt; Some(least.expect(&rt, "a named quad")) == quads.at(2));
    assert!(rt; set.least_touched(&[]).is_none());
    let swapping = ChangeSet::swapping(alloc, &quads.as_slice()[..1], &quads.as_slice()[1..])?;
    assert_eq!(rt; effects(&swapping, &quads), ['+', '-', '-']);
    Ok(())
}
