//! Texts with their tokens, and how many steps long ones take.
use query_tokens::{Number, Token, Tokens, each_has_tokens, one_token_list, parted_tokens};
use rdf_term::{Memory, Text};
use std::alloc::Global;
use std::process::Abort;

/// The texts of a token, with its kind.
fn named(token: &Token) -> (&'static str, Option<&Text>, Option<&Text>) {
    match token {
        Token::Prefix => ("PREFIX", None, None),
        Token::Select => ("SELECT", None, None),
        Token::Distinct => ("DISTINCT", None, None),
        Token::Reduced => ("REDUCED", None, None),
        Token::Construct => ("CONSTRUCT", None, None),
        Token::Ask => ("ASK", None, None),
        Token::Where => ("WHERE", None, None),
        Token::Graph => ("GRAPH", None, None),
        Token::Limit => ("LIMIT", None, None),
        Token::Offset => ("OFFSET", None, None),
        Token::A => ("a", None, None),
        Token::True => ("true", None, None),
        Token::False => ("false", None, None),
        Token::Open => ("{", None, None),
        Token::Close => ("}", None, None),
        Token::Dot => (".", None, None),
        Token::Semicolon => (";", None, None),
        Token::Comma => (",", None, None),
        Token::Carets => ("^^", None, None),
        Token::Star => ("*", None, None),
        Token::Namespace(prefix) => ("ns", Some(prefix), None),
        Token::Iri(iri) => ("iri", Some(iri), None),
        Token::Name(prefix, local) => ("name", Some(prefix), Some(local)),
        Token::Var(name) => ("var", Some(name), None),
        Token::Label(label) => ("label", Some(label), None),
        Token::Str(text) => ("str", Some(text), None),
        Token::Tag(tag) => ("tag", Some(tag), None),
        Token::Number(Number::Digits, text) => ("digits", Some(text), None),
        Token::Number(Number::Integer, text) => ("integer", Some(text), None),
        Token::Number(Number::Decimal, text) => ("decimal", Some(text), None),
        Token::Number(Number::Double, text) => ("double", Some(text), None),
        Token::Quotes => ("quotes", None, None),
        Token::Unsupported => ("unsupported", None, None),
        Token::Other => ("other", None, None),
        Token::Bad => ("bad", None, None),
    }
}

fn put(out: &mut String, text: Option<&Text>) -> Result<(), Memory> {
    if let Some(text) = text {
        out.push('|')?;
        out.push_str(text.as_str())?;
    }
    Ok(())
}

/// The tokens, each with a space behind it: its place, its kind and its texts.
fn shown(alloc: Global, text: &str) -> Result<String, Memory> {
    let mut out = String::new(alloc);
    let mut tokens = Tokens::new(alloc, text);
    // A token has at least one byte.
    for _ in 0..text.len() {
        let Some(placed) = tokens.next()? else {
            break;
        };
        let (kind, first, second) = named(&placed.token);
        let front = format!(in alloc; "{}{}", placed.start, kind)?;
        out.push_str(front.as_str())?;
        put(&mut out, first)?;
        put(&mut out, second)?;
        out.push(' ')?;
    }
    Ok(out)
}

fn reads(rt: &impl Abort, alloc: Global, text: &str, wanted: &str) {
    let shown = shown(alloc, text).expect(rt, "memory");
    assert!(rt; shown.as_str() == wanted, "{text:?} gives {shown:?}");
}

static WORDS: &[(&str, &str)] = &[
    ("", ""),
    ("PREFIX prefix PreFix", "0PREFIX 7PREFIX 14PREFIX "),
    ("select Distinct REDUCED", "0SELECT 7DISTINCT 16REDUCED "),
    ("construct ask WHERE", "0CONSTRUCT 10ASK 14WHERE "),
    ("graph limit offset", "0GRAPH 6LIMIT 12OFFSET "),
    ("a A", "0a 2other "),
    ("true True TRUE", "0true 5other 10other "),
    ("false False", "0false 6other "),
    ("selects as", "0other 8other "),
    (
        "base FROM Describe",
        "0unsupported 5unsupported 10unsupported ",
    ),
    (
        "order group having",
        "0unsupported 6unsupported 12unsupported ",
    ),
    (
        "service optional union",
        "0unsupported 8unsupported 17unsupported ",
    ),
    (
        "minus filter bind values",
        "0unsupported 6unsupported 13unsupported 18unsupported ",
    ),
    ("exists not", "0unsupported 7unsupported "),
    (
        "load clear drop create",
        "0unsupported 5unsupported 11unsupported 16unsupported ",
    ),
    (
        "insert delete with",
        "0unsupported 7unsupported 14unsupported ",
    ),
];

static MARKS: &[(&str, &str)] = &[
    ("{}.;,^^*", "0{ 1} 2. 3; 4, 5^^ 7* "),
    (
        "[(/|^+!",
        "0unsupported 1unsupported 2unsupported 3unsupported 4unsupported 5unsupported 6unsupported ",
    ),
    (
        "])=><&-?@",
        "0other 1other 2other 3other 4other 5other 6other 7other 8other ",
    ),
    ("^^^", "0^^ 2unsupported "),
    ("?{$", "0other 1{ 2bad "),
    ("$", "0bad "),
    ("% a", "0bad "),
    ("_a", "0bad "),
    ("_:", "0bad "),
    ("a\u{A0}b", "0a 1bad "),
    ("\u{FEFF}a", "0bad "),
];

static NAMES: &[(&str, &str)] = &[
    (":", "0ns| "),
    ("e: e:a", "0ns|e 3name|e|a "),
    (":a :1", "0name||a 3name||1 "),
    ("a:b..", "0name|a|b 3. 4. "),
    ("a.b:c.d.", "0name|a.b|c.d 7. "),
    ("a.b.", "0a 1. 2other 3. "),
    ("a-b:c-d", "0name|a-b|c-d "),
    ("a-b", "0a 1other 2other "),
    ("a.:b", "0a 1. 2name||b "),
    ("é:ü·‿", "0name|é|ü·‿ "),
    ("é", "0bad "),
    ("e:a%41b", "0name|e|a%41b "),
    ("e:%4", "0ns|e 2bad "),
    ("e:a\\.\\%\\~", "0name|e|a.%~ "),
    ("e:\\a", "0ns|e 2bad "),
    ("e:a:b:", "0name|e|a:b: "),
    ("select:a", "0name|select|a "),
    ("e:a#b", "0name|e|a "),
];

static VARIABLES: &[(&str, &str)] = &[
    ("?x $y ?1", "0var|x 3var|y 6var|1 "),
    ("?x.y", "0var|x 2. 3other "),
    ("?x-1", "0var|x 2integer|-1 "),
    ("?é·", "0var|é· "),
    ("_:b _:1 _:a.b.", "0label|b 4label|1 8label|a.b 13. "),
    ("_:a..b", "0label|a..b "),
    ("_:a-b:c", "0label|a-b 5name||c "),
    ("@en @en-GB-x1", "0tag|en 4tag|en-GB-x1 "),
    ("@en- @1", "0tag|en 3other 5other 6digits|1 "),
];

static QUOTED: &[(&str, &str)] = &[
    ("<>", "0iri| "),
    ("<u:é\\u0041\\U0001F600>", "0iri|u:éA😀 "),
    ("<a b>", "0other 1a 3other 4other "),
    ("<u:\\n>", "0other 1ns|u 3bad "),
    ("<\\uD800>", "0other 1bad "),
    ("<\\u003E>", "0iri|> "),
    ("\"\" ''", "0str| 3str| "),
    ("\"a'b\" 'a\"b'", "0str|a'b 6str|a\"b "),
    (
        "\"\\t\\b\\n\\f\\r\\\"\\'\\\\\"",
        "0str|\t\u{8}\n\u{c}\r\"'\\ ",
    ),
    ("'\\u00e9\\U0010FFFF'", "0str|é\u{10FFFF} "),
    ("\"\\uD800\"", "0bad "),
    ("\"\\U00110000\"", "0bad "),
    ("'\\UFFFFFFFF'", "0bad "),
    ("\"\\u12\"", "0bad "),
    ("\"\\x\"", "0bad "),
    ("\"a\nb\"", "0bad "),
    ("'a", "0bad "),
    ("\"\"\"a\"\"\"", "0quotes 3a 4quotes "),
    ("'''", "0quotes "),
    ("\"\"''", "0str| 2str| "),
    ("\"a\"\"b\"", "0str|a 3str|b "),
    (
        "\"a\"@en \"1\"^^e:d",
        "0str|a 3tag|en 7str|1 10^^ 12name|e|d ",
    ),
];

static NUMBERS: &[(&str, &str)] = &[
    ("1 007", "0digits|1 2digits|007 "),
    ("+1 -1", "0integer|+1 3integer|-1 "),
    ("1.", "0digits|1 1. "),
    (
        "1.5 .5 -1.5 +.5",
        "0decimal|1.5 4decimal|.5 7decimal|-1.5 12decimal|+.5 ",
    ),
    (
        "1e1 1.e1 .1E+2 -1.5e-3",
        "0double|1e1 4double|1.e1 9double|.1E+2 15double|-1.5e-3 ",
    ),
    (
        "1e 1e+ 1.e",
        "0digits|1 1other 3digits|1 4other 5unsupported 7digits|1 8. 9other ",
    ),
    ("+ 1 -.", "0unsupported 2digits|1 4other 5. "),
    ("1.2.3", "0decimal|1.2 3decimal|.3 "),
    ("--1", "0other 1integer|-1 "),
];

static SPACE: &[(&str, &str)] = &[
    (" \t\r\n", ""),
    ("a# b\rc", "0a 5other "),
    ("a#\nb # end", "0a 3other "),
    ("# only", ""),
    ("#", ""),
    ("# é\n a", "6a "),
    ("\"é\" a <é> ?b", "0str|é 5a 7iri|é 12var|b "),
    ("'#' <#> e:\\#", "0str|# 4iri|# 8name|e|# "),
    ("😀", "0bad "),
    ("a 😀", "0a 2bad "),
    ("# 😀\r😀", "7bad "),
];

fn table(rt: &impl Abort, alloc: Global, rows: &[(&str, &str)]) {
    for (text, wanted) in rows {
        reads(rt, alloc, text, wanted);
    }
}

#[test]
fn words_and_marks(rt: HostRuntime) {
    table(&rt, rt.alloc(), WORDS);
    table(&rt, rt.alloc(), MARKS);
}

#[test]
fn names_and_variables(rt: HostRuntime) {
    table(&rt, rt.alloc(), NAMES);
    table(&rt, rt.alloc(), VARIABLES);
}

#[test]
fn quoted_texts_and_numbers(rt: HostRuntime) {
    table(&rt, rt.alloc(), QUOTED);
    table(&rt, rt.alloc(), NUMBERS);
}

#[test]
fn space_and_places(rt: HostRuntime) {
    table(&rt, rt.alloc(), SPACE);
    each_has_tokens();
    one_token_list();
    parted_tokens();
}

/// So many copies of a text.
fn copies(alloc: Global, text: &str, count: usize) -> Result<String, Memory> {
    let mut out = String::new(alloc);
    for _ in 0..count {
        out.push_str(text)?;
    }
    Ok(out)
}

/// How many tokens a text has.
fn count(alloc: Global, text: &str) -> Result<usize, Memory> {
    let mut tokens = Tokens::new(alloc, text);
    let mut count = 0usize;
    for _ in 0..text.len() {
        if tokens.next()?.is_none() {
            break;
        }
        count = count.saturating_add(1);
    }
    Ok(count)
}

/// A text of a mebibyte is read in a number of steps linear in its length, also where words that
/// look like the front of a prefix follow each other.
#[test]
fn long_texts(rt: HostRuntime) -> Result<(), Memory> {
    let alloc = rt.alloc();
    for (text, each) in [("select ", 1), ("a.a-", 4), ("a:b.... ", 5), ("<a.", 3)] {
        let times = 1_048_576 / text.len();
        let long = copies(alloc, text, times)?;
        assert_eq!(rt; count(alloc, long.as_str())? / each, times);
    }
    Ok(())
}
