ghost use Rattle.std.specs.Prelude.{◌≡◌, [], ◌∷◌, ◌++◌, IfOk, OnOk, position};
ghost use Rattle.std.specs.List.{filter_map};
ghost use Rattle.api_parts.specs.Parameters.{is_question, path_of, query_of, decoded, parameters, value_of, values_of};

use form_urlencoded::{decode, raw_pairs};
use rdf_term::{Memory, Seq};
use std::alloc::Global;

/// A name or a value: its text in UTF-8.
pub type Octets = Seq<u8>;

/// Parameters in their order, each as its name and its value.
pub type Parameters = Seq<(Octets, Octets)>;

/// The place of the first question mark.
fn question(target: &[u8]) -> Option<usize>
    ensures { result ≡ position is_question target.now }
{
    target.iter().position(|byte| *byte == b'?')
}

/// What stands before the first `?` of a target.
pub fn path_of(target: &[u8]) -> &[u8]
    ensures { result.now ≡ path_of target.now }
{
    match question(target) {
        Some(end) => &target[..end],
        None => target,
    }
}

/// What stands behind the first `?` of a target, or nothing where there is none.
pub fn query_of(target: &[u8]) -> &[u8]
    ensures { result.now ≡ query_of target.now }
{
    match question(target) {
        Some(end) => &target[end + 1..],
        None => &[],
    }
}

/// What an encoded text stands for.
fn decoded(alloc: Global, text: &[u8]) -> Result<Octets, Memory>
    ensures { IfOk result (λ it. it ≡ decoded text.now) }
{
    let text = decode(alloc, text)?;
    Ok(Octets::from_vec(text.as_bytes().to_vec(alloc)?))
}

fn decoded_pair(alloc: Global, name: &[u8], value: &[u8]) -> Result<(Octets, Octets), Memory>
    ensures { IfOk result (λ pair. pair ≡ (decoded name.now, decoded value.now)) }
{
    Ok((decoded(alloc, name)?, decoded(alloc, value)?))
}

/// The parameters in a query, in the syntax `application/x-www-form-urlencoded` (URL Standard,
/// section 5).
pub fn parameters(alloc: Global, query: &[u8]) -> Result<Parameters, Memory>
    ensures { IfOk result (λ it. it ≡ parameters query.now) }
{
    let mut out = Parameters::new(alloc);
    for (name, value) in raw_pairs(query) {
        out.push(decoded_pair(alloc, name, value)?)?;
    }
    Ok(out)
}

/// A list of bytes equal to these.
fn octets(alloc: Global, bytes: &[u8]) -> Result<Octets, Memory>
    ensures { IfOk result (λ it. it ≡ bytes.now) }
{
    Ok(Octets::from_vec(bytes.to_vec(alloc)?))
}

/// Adds a parameter's value, where it has this name.
fn push_value(
    alloc: Global,
    values: &mut Seq<Octets>,
    pair: &(Octets, Octets),
    name: &[u8],
) -> Result<(), Memory>
    ensures { OnOk result (values.new ≡ values.old ++ filter_map (value_of name.now) (pair.now ∷ [])) }
{
    if pair.0.as_slice() == name {
        values.push(octets(alloc, pair.1.as_slice())?)?;
    }
    Ok(())
}

/// The values of the parameters of a name, in order.
pub fn values_of(
    alloc: Global,
    parameters: &[(Octets, Octets)],
    name: &[u8],
) -> Result<Seq<Octets>, Memory>
    ensures { IfOk result (λ it. it ≡ values_of name.now parameters.now) }
{
    let mut values = Seq::new(alloc);
    for pair in parameters {
        push_value(alloc, &mut values, pair, name)?;
    }
    Ok(values)
}
