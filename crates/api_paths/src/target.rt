ghost use Rattle.std.specs.Prelude.{◌≡◌, IfOk, position};
ghost use Rattle.percent_encoding.specs.Percent.{percent_decode};
ghost use Rattle.api_paths.specs.Targets.{is_slash, from_slash, origin_form, text_of, texts_with, segments};

use percent_encoding::percent_decode;
use rdf_term::{Memory, Seq, Text};
use std::alloc::Global;
use std::str;

/// Texts in their order.
pub type Texts = Seq<Text>;

/// The place of the first slash.
fn slash(text: &[u8]) -> Option<usize>
    ensures { result ≡ position is_slash text.now }
{
    text.iter().position(|byte| *byte == b'/')
}

/// What stands from the first slash on, or nothing where there is none.
fn from_slash(text: &[u8]) -> &[u8]
    ensures { result.now ≡ from_slash text.now }
{
    match slash(text) {
        Some(at) => &text[at..],
        None => &[],
    }
}

/// A target in origin form. One in absolute form, which begins with `http://`, is taken from the next
/// slash on (RFC 9112, section 3.2).
pub fn origin_form(target: &[u8]) -> &[u8]
    ensures { result.now ≡ origin_form target.now }
{
    if target.starts_with(b"http://") {
        from_slash(&target[7..])
    } else {
        target
    }
}

/// The text of a segment, where it is UTF-8 once it is percent-decoded.
fn segment(alloc: Global, piece: &[u8]) -> Result<Option<Text>, Memory>
    ensures { IfOk result (λ it. it ≡ text_of (percent_decode piece.now)) }
{
    let mut bytes = Vec::new(alloc);
    percent_decode(piece).append_to(&mut bytes)?;
    match str::from_utf8(&bytes) {
        Ok(text) => Ok(Some(Text::from_chars(alloc, text)?)),
        Err(_) => Ok(None),
    }
}

/// The texts of segments and of one more, where all are UTF-8.
fn with_segment(alloc: Global, texts: Option<Texts>, piece: &[u8]) -> Result<Option<Texts>, Memory>
    ensures { IfOk result (λ it. it ≡ texts_with texts (text_of (percent_decode piece.now))) }
{
    let (Some(mut texts), Some(text)) = (texts, segment(alloc, piece)?) else {
        return Ok(None);
    };
    texts.push(text)?;
    Ok(Some(texts))
}

/// The segments of a path, which is cut at each slash (RFC 3986, section 3.3). Each is percent-decoded;
/// there are none where one of them is not UTF-8 then.
pub fn segments(alloc: Global, path: &[u8]) -> Result<Option<Texts>, Memory>
    ensures { IfOk result (λ it. it ≡ segments path.now) }
{
    let mut texts = Some(Texts::new(alloc));
    for piece in path.split(|byte| *byte == b'/') {
        texts = with_segment(alloc, texts, piece)?;
    }
    Ok(texts)
}
