//! Bytes that are put into spare room, which takes no memory.
ghost use Rattle.std.specs.Prelude.{◌≡◌, ◌≤◌, ◌+◌, ◌++◌, decimal, length};

use rdf_term::Bytes;

/// Appends a piece where there is room for it.
pub fn put(piece: &[u8], out: &mut Bytes)
    requires { length piece.now ≤ out.old.spare }
    ensures items { out.new.items ≡ out.old.items ++ piece.now }
    ensures spare { out.old.spare ≤ out.new.spare + length piece.now }
    ensures kept { out.old.spare + length out.old.items ≤ out.new.spare + length out.new.items }
{
    let _ = out.append(piece);
}

/// Appends the decimal digits of a number where there is room for 20 of them.
#[tactic(auto, using(crate::proofs::TextLemmas::decimal_short))]
pub fn put_number(number: u64, out: &mut Bytes)
    requires { 20 ≤ out.old.spare }
    ensures items { out.new.items ≡ out.old.items ++ decimal number }
    ensures spare { out.old.spare ≤ out.new.spare + 20 }
    ensures kept { out.old.spare + length out.old.items ≤ out.new.spare + length out.new.items }
{
    let _ = out.append_decimal(number);
}
