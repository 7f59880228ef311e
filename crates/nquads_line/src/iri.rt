ghost use Rattle.nquads_line.specs.Reading.{Gives, iri_at};

use crate::LineFault;
use crate::escape::body;
use crate::quoted::Quoted;
use crate::space::after;
use rdf_term::Text;
use std::alloc::Global;

/// IRIREF, and what stands after it.
#[tactic(auto, unfolding(crate::specs::Reading::iri_at))]
pub fn iri(alloc: Global, chars: &[char]) -> Result<(Text, &[char]), LineFault>
    ensures { Gives (λ x. (x.0, x.1.now)) result (iri_at chars.now) }
{
    let inner = after(chars, '<')?;
    let (text, rest) = body(alloc, Quoted::Iri, inner)?;
    if text.has_scheme() {
        Ok((text, rest))
    } else {
        Err(LineFault::Bad)
    }
}
