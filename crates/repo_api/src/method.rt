ghost use Rattle.std.specs.Prelude.{◌≡◌};
ghost use Rattle.repo_api.specs.Resources.{is_text, method_of};

use rdf_term::Text;

/// A method that some resource has (RFC 9110, section 9).
#[derive(Clone, Copy, Debug)]
pub enum Method {
    Get,
    Post,
    Put,
    Delete,
}

/// Whether a text is written so in UTF-8.
pub fn is_text(text: &Text, wanted: &[u8]) -> bool
    ensures { result ≡ is_text text.now wanted.now }
{
    text.as_str().as_bytes() == wanted
}

/// The method of this name, which tells its case apart.
pub fn method_of(name: &Text) -> Option<Method>
    ensures { result ≡ method_of name.now }
{
    if is_text(name, b"GET") {
        return Some(Method::Get);
    }
    if is_text(name, b"POST") {
        return Some(Method::Post);
    }
    if is_text(name, b"PUT") {
        return Some(Method::Put);
    }
    if is_text(name, b"DELETE") {
        return Some(Method::Delete);
    }
    None
}
