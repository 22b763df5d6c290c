// A search among pairs in the order of their keys.
ghost use Rattle.std.specs.BTreeMap.{is_at};
ghost use Rattle.std.specs.List.Sorted.{IsStrictlySortedBy};
ghost use Rattle.std.specs.Map.{keys_of, lookup};
ghost use Rattle.std.specs.Prelude.{◌≡◌, option_copied};

use std::cmp::Ordering;

/// Returns the value of a key among pairs whose keys rise. `None` exactly when no pair has the key. Allocates nothing,
/// and looks at few of the pairs.
pub fn find_sorted<'a, K: Ord, V>(pairs: &'a [(K, V)], key: &K) -> Option<&'a V>
    requires { IsStrictlySortedBy K.cmp (keys_of pairs.now) }
    ensures { option_copied result ≡ lookup (is_at (K.cmp key.now)) pairs.now }
{
    let (mut low, mut high) = (0, pairs.len());
    while low < high {
        let middle = low + (high - low) / 2;
        match key.cmp(&pairs[middle].0) {
            Ordering::Equal => return Some(&pairs[middle].1),
            Ordering::Less => high = middle,
            Ordering::Greater => low = middle + 1,
        }
    }
    None
}
