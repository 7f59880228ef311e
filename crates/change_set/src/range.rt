//! The part of a sorted list that a pattern can match, found by halves.
ghost use Rattle.std.specs.Prelude.{◌≡◌, ℕ, ◌<◌, ◌≤◌, false, length, filter, slice_index_or};
ghost use Rattle.std.specs.Map.{keys_of};
ghost use Rattle.rdf_term.specs.Matching.{matches};
ghost use Rattle.rdf_term.specs.Statement.{Statement};
ghost use Rattle.change_set.specs.declared.effect.Mark.{Mark};
ghost use Rattle.change_set.specs.Kept.{kept_added, IsInOrder};

use crate::cover::place;
use crate::marked::Marked;
use rdf_term::Pattern;

/// The place of the first quad that is not before those with the pattern's leading parts.
fn lower(named: &[Marked], pattern: &Pattern) -> usize
    requires { IsInOrder named.now }
    ensures within { result ≤ length named.now }
    ensures before { (k : ℕ) (d : Statement × Mark) → k < result → matches pattern.now (slice_index_or named.now k d).0 ≡ false }
{
    named.partition_point(|entry| place(pattern, entry.quad()).is_lt())
}

/// The place of the first quad that is behind those with the pattern's leading parts.
fn upper(named: &[Marked], pattern: &Pattern) -> usize
    requires { IsInOrder named.now }
    ensures within { result ≤ length named.now }
    ensures behind { (k : ℕ) (d : Statement × Mark) → result ≤ k → k < length named.now → matches pattern.now (slice_index_or named.now k d).0 ≡ false }
{
    named.partition_point(|entry| place(pattern, entry.quad()).is_le())
}

/// The named quads whose leading parts are the ones that the pattern gives, among which are all that
/// it matches.
pub(crate) fn within<'a>(named: &'a [Marked], pattern: &Pattern) -> &'a [Marked]
    requires { IsInOrder named.now }
    ensures added { filter (matches pattern.now) (kept_added result.now) ≡ filter (matches pattern.now) (kept_added named.now) }
    ensures named { filter (matches pattern.now) (keys_of result.now) ≡ filter (matches pattern.now) (keys_of named.now) }
{
    let start = lower(named, pattern);
    let end = upper(named, pattern).max(start);
    &named[start..end]
}
