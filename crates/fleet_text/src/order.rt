//! The order of the keys of a map.
ghost use Rattle.std.specs.Prelude.{◌≡◌, All, Decides};
ghost use Rattle.std.specs.Map.{keys_of};
ghost use Rattle.std.specs.declared.cmp.Ordering.TheVariants.{Less};

use std::collections::BTreeMap;

/// Whether a key comes after all that a map has.
pub(crate) fn is_last<K: Ord, V>(map: &BTreeMap<K, V>, key: &K) -> bool
    ensures { Decides result (All (λ other. K.cmp other key.now ≡ Less) (keys_of map.now.entries)) }
{
    match map.last_key_value() {
        Some((last, _)) => last.cmp(key).is_lt(),
        None => true,
    }
}
