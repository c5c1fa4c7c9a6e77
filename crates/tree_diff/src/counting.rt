//! How many keys a tree has, up to 18,446,744,073,709,551,615.

ghost use Rattle.std.specs.Prelude.{◌≡◌};
ghost use Rattle.hive_model.specs.Tree.{key_count, keys_count, trees};
ghost use Rattle.nt_bytes.specs.Counts.{capped};

use reg_tree::Key;

/// How many keys the tree has.
#[cycle(keys)]
pub(crate) fn key_count(key: &Key) -> u64
    ensures { result ≡ capped (key_count key.now) }
{
    1u64.saturating_add(keys_count(key.children.as_slice()))
}

#[cycle(keys)]
fn keys_count(keys: &[Key]) -> u64
    ensures { result ≡ capped (keys_count (trees keys.now)) }
{
    let mut total: u64 = 0;
    let mut rest = keys;
    'keys: loop {
        let [key, more @ ..] = rest else {
            return total;
        };
        total = total.saturating_add(key_count(key));
        rest = more;
    }
}
