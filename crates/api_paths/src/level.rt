ghost use Rattle.std.specs.Prelude.{◌≡◌};
ghost use Rattle.api_paths.specs.Levels.{level_named, last_part, level_of};

use journal::Level;

/// The level of isolation of this name, in capitals.
pub fn level_named(name: &[u8]) -> Option<Level>
    ensures { result ≡ level_named name.now }
{
    if name == b"NONE".as_slice() {
        return Some(Level::NoIsolation);
    }
    if name == b"READ_UNCOMMITTED".as_slice() {
        return Some(Level::ReadUncommitted);
    }
    if name == b"READ_COMMITTED".as_slice() {
        return Some(Level::ReadCommitted);
    }
    if name == b"SNAPSHOT_READ".as_slice() {
        return Some(Level::SnapshotRead);
    }
    if name == b"SNAPSHOT".as_slice() {
        return Some(Level::Snapshot);
    }
    if name == b"SERIALIZABLE".as_slice() {
        return Some(Level::Serializable);
    }
    None
}

/// The last of the parts of a text, which is cut at each `#` and `/`.
fn last_part(text: &[u8]) -> &[u8]
    ensures { result.now ≡ last_part text.now }
{
    let mut last: &[u8] = &[];
    for part in text.split(|byte| *byte == b'#' || *byte == b'/') {
        last = part;
    }
    last
}

/// The level of isolation that a text names: by its name, or by the name that stands behind the last
/// `#` or `/`.
pub fn level_of(text: &[u8]) -> Option<Level>
    ensures { result ≡ level_of text.now }
{
    level_named(last_part(text))
}
