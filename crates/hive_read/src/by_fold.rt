//! Names that are in their cells, in the order of their folded units.

ghost use Rattle.std.specs.Prelude.{Some, nat_eq, refl};
ghost use Rattle.std.specs.Cmp.{on_per, on_po, partial_equiv_from_equiv};
ghost use Rattle.std.specs.Cmp.Lexicographic.{nat_list_eq_equiv, on_texts, on_texts_equal, pointwise, slice_cmp, texts_po, texts_ties};
ghost use Rattle.std.specs.Ordering.{nat_cmp};
ghost use Rattle.hive_read.specs.Taken.{folded_name};

use cell_forms::{StoredName, compare_stored};
use std::cmp::Ordering;

/// A name that is in its cell, compared by fold.
#[derive(Clone, Copy)]
pub struct ByFold<'a> {
    pub name: StoredName<'a>,
}

impl<'a> PartialEq for ByFold<'a> {
    ghost eq = { λ a b. pointwise nat_eq (folded_name a.name) (folded_name b.name) };

    ghost laws = { on_per (λ n. folded_name n.name) (partial_equiv_from_equiv nat_list_eq_equiv) };

    fn eq(&self, other: &ByFold<'a>) -> bool {
        compare_stored(self.name, other.name).is_eq()
    }
}

impl<'a> Eq for ByFold<'a> {
    ghost laws = { on_texts_equal (λ n. folded_name n.name) };
}

impl<'a> PartialOrd for ByFold<'a> {
    ghost partial_cmp = { λ a b. Some (slice_cmp nat_cmp (folded_name a.name) (folded_name b.name)) };

    ghost laws = { on_po (λ n. folded_name n.name) texts_po };

    fn partial_cmp(&self, other: &ByFold<'a>) -> Option<Ordering> {
        Some(self.cmp(other))
    }
}

impl<'a> Ord for ByFold<'a> {
    ghost cmp = { λ a b. slice_cmp nat_cmp (folded_name a.name) (folded_name b.name) };

    ghost total = { on_texts (λ n. folded_name n.name) };

    ghost matches_partial_cmp = { λ a b. refl };

    ghost matches_eq = { λ a b. texts_ties (folded_name a.name) (folded_name b.name) };

    fn cmp(&self, other: &ByFold<'a>) -> Ordering {
        compare_stored(self.name, other.name)
    }
}
