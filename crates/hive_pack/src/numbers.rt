//! That the numbers of a key fit their fields, which their types say.

ghost use Rattle.std.specs.Prelude.{◌<◌, ℕ, slice_index};
ghost use Rattle.std.specs.List.{AllByRecursion};
ghost use Rattle.hive_model.specs.Tree.{head, trees};
ghost use Rattle.hive_pack.specs.Numbers.{ItemNumbers, HeadNumbers, HasNumbers, AllHaveNumbers};

use reg_tree::{Key, Value};

fn units_fit(units: &[u16])
    ensures { (k : ℕ) → slice_index units.now k < 65536 }
{}

fn bytes_fit(bytes: &[u8])
    ensures { (k : ℕ) → slice_index bytes.now k < 256 }
{}

fn value_fits(value: &Value)
    ensures { ItemNumbers value.now }
{
    units_fit(value.name());
    bytes_fit(value.data());
    let _kind = value.kind;
}

fn values_fit(values: &[Value])
    ensures { AllByRecursion ItemNumbers values.now }
{
    let mut rest = values;
    'values: loop {
        let [value, more @ ..] = rest else {
            return;
        };
        value_fits(value);
        rest = more;
    }
}

fn head_fits(key: &Key)
    ensures { HeadNumbers (head key.now) }
{
    units_fit(key.name());
    values_fit(key.items());
    let _flags = key.flags;
    let _stamp = key.stamp;
}

/// The numbers of a tree fit their fields.
#[cycle(numbers)]
pub(crate) fn numbers_fit(key: &Key)
    ensures { HasNumbers key.now }
{
    head_fits(key);
    all_fit(key.subkeys());
}

#[cycle(numbers)]
fn all_fit(keys: &[Key])
    ensures { AllHaveNumbers (trees keys.now) }
{
    let mut rest = keys;
    'keys: loop {
        let [key, more @ ..] = rest else {
            return;
        };
        numbers_fit(key);
        rest = more;
    }
}
