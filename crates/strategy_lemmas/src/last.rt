//! The place of the last lemma of each key.

ghost use Rattle.std.specs.Prelude.{◌≡◌, ◌+◌, ◌≤◌, ◌<◌, cond, Some};
ghost use Rattle.hive_model.specs.SameKeys.{same_key};
ghost use Rattle.hive_model.specs.Keys.{KeyParts};
ghost use Rattle.indexmap.specs.IndexMap.{get, index_map_len, spare};

use hive_model::Key;
use indexmap::IndexMap;

/// Records `place` as that of the key's last lemma, and returns the place recorded before. The room
/// for further keys shrinks by no more than the keys added.
pub fn note_last(last: &mut IndexMap<Key, u32>, key: &Key, place: u32) -> Option<u32>
    requires room { 0 < spare last.old }
    ensures before { result ≡ get same_key last.old key.now }
    ensures noted { (k : KeyParts) → get same_key last.new k
        ≡ cond (same_key key.now k) (Some place) (get same_key last.old k) }
    ensures more { index_map_len last.new ≤ index_map_len last.old + 1 }
    ensures kept { index_map_len last.old + spare last.old
        ≤ index_map_len last.new + spare last.new }
{
    if let Some(known) = last.get_mut(key) {
        let before = *known;
        *known = place;
        return Some(before);
    }
    let _ = last.insert(*key, place);
    None
}
