//! The sizes of a tree's cells, one by one.

ghost use Rattle.std.specs.Prelude.{◌≡◌, ℕ, List, sum};
ghost use Rattle.nt_bytes.specs.declared.version.HiveVersion.{HiveVersion as Version};
ghost use Rattle.hive_model.specs.Tree.{Tree, Trees};
ghost use Rattle.hive_model.specs.Size.{size, size_of_all, list_size};
ghost use Rattle.hive_model.specs.Footprint.{sizes, sizes_of_all, list_sizes};

/// One by one, the cells of a tree, of trees in sequence, and of a list of children have together the
/// size that counts in the bulk.
pub fn sizes_add_up()
    ensures tree { (version : Version) (shared : List ℕ) (t : Tree) → sum (sizes version shared t) ≡ size version shared t }
    ensures siblings { (version : Version) (shared : List ℕ) (ts : Trees) → sum (sizes_of_all version shared ts) ≡ size_of_all version shared ts }
    ensures lists { (n : ℕ) → sum (list_sizes n) ≡ list_size n }
{}
