//! How many bytes a tree takes in packed cells of a version. Sums stay at the greatest number.

ghost use Rattle.std.specs.Prelude.{◌≡◌, sum_by};
ghost use Rattle.hive_model.specs.Tree.{head};
ghost use Rattle.hive_model.specs.Size.{item_size, items_size, head_size, size, bulk_of};
ghost use Rattle.nt_bytes.specs.Counts.{capped};

use crate::key::{Key, Keys};
use crate::sizes::{cell_size, class_size, data_size, list_size, named_size, security_size};
use crate::value::Value;
use nt_bytes::HiveVersion;

#[tactic(auto, using(crate::proofs::Sums::sums))]
fn value_size(value: &Value, version: HiveVersion) -> u64
    ensures { result ≡ capped (item_size version value.now) }
{
    let own = named_size(20, value.name.as_slice());
    own.saturating_add(data_size(version, value.bytes.as_slice().len() as u64))
}

#[tactic(auto, using(crate::proofs::Sums::sums))]
fn values_sum(values: &[Value], version: HiveVersion) -> u64
    ensures { result ≡ capped (sum_by (item_size version) values.now) }
{
    let mut total = 0;
    for value in values {
        total = value_size(value, version).saturating_add(total);
    }
    total
}

#[tactic(auto, using(crate::proofs::Sums::sums, crate::proofs::Sums::some_items))]
fn values_size(values: &[Value], version: HiveVersion) -> u64
    ensures { result ≡ capped (items_size version values.now) }
{
    if values.len() == 0 {
        return 0;
    }
    let list = cell_size((values.len() as u64).saturating_mul(4));
    list.saturating_add(values_sum(values, version))
}

impl Key {
    #[tactic(auto, using(crate::proofs::Sums::sums))]
    fn head_len(&self, shared: &[u8], version: HiveVersion) -> u64
        ensures { result ≡ capped (head_size version shared.now (head self.now)) }
    {
        let own = named_size(76, self.name.as_slice());
        let class = class_size(self.class.as_slice());
        let security = security_size(shared, self.security.as_slice());
        let values = values_size(self.values.as_slice(), version);
        own.saturating_add(class)
            .saturating_add(security)
            .saturating_add(values)
    }

    #[cycle(cells_size)]
    #[tactic(auto, using(crate::proofs::Sums::sums))]
    fn cells_size(&self, shared: &[u8], version: HiveVersion) -> u64
        ensures { result ≡ capped (size version shared.now self.now) }
    {
        let own = self.head_len(shared, version);
        let lists = list_size(self.children.as_slice().len() as u64);
        let below = self.children.cells_size(self.security.as_slice(), version);
        own.saturating_add(lists).saturating_add(below)
    }

    /// How many bytes the tree takes in packed cells of a version with the bin's header, or the greatest
    /// number.
    #[tactic(auto, using(crate::proofs::Sums::sums))]
    pub fn bulk(&self, version: HiveVersion) -> u64
        ensures { result ≡ bulk_of version self.now }
    {
        self.cells_size(&[], version).saturating_add(32)
    }
}

impl Keys {
    #[cycle(cells_size)]
    #[tactic(auto, using(crate::proofs::Sums::sums))]
    fn cells_size(&self, shared: &[u8], version: HiveVersion) -> u64
        ensures { result ≡ capped (sum_by (size version shared.now) self.now) }
    {
        let mut total = 0;
        for child in &self.items {
            total = child.cells_size(shared, version).saturating_add(total);
        }
        total
    }
}
