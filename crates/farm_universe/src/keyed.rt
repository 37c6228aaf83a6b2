//! Items by the number of their key: the keys in the order in which they first stood, and beside
//! them the items of each.

ghost use Rattle.std.specs.Prelude.{◌≡◌, ◌<◌, ◌++◌, ◌∷◌, [], OnOk, IfErr, None, MatchOption, false, length};
ghost use Rattle.std.specs.List.{list_any};
ghost use Rattle.std.specs.Str.{bytes_eq};
ghost use Rattle.deb_text.specs.Lists.{lists};
ghost use Rattle.farm_universe.specs.Keyed.{group_at};
ghost use Rattle.farm_universe.specs.View.{refusal_of};

use crate::error::FieldFault;
use indexmap::IndexSet;
use std::alloc::Global;

/// The items of the key with this number, if there is one.
pub fn group_at<V>(groups: &[Vec<V>], at: Option<usize>) -> &[V]
    requires { MatchOption at (Unit {0}) (λ i. i < length groups.now) }
    ensures { result.now ≡ group_at (lists groups.now) at }
{
    match at {
        None => &[],
        Some(i) => &groups[i],
    }
}

/// Puts an item of a new key.
pub fn put_new<V: Drop>(
    alloc: Global,
    keys: &mut IndexSet<Vec<u8>>,
    groups: &mut Vec<Vec<V>>,
    key: Vec<u8>,
    item: V,
) -> Result<(), FieldFault>
    requires { list_any (bytes_eq key.items) (lists keys.old.keys) ≡ false }
    ensures keys { OnOk result (lists keys.new.keys ≡ lists keys.old.keys ++ key.items ∷ []) }
    ensures groups { OnOk result
        (lists groups.new.items ≡ lists groups.old.items ++ (item ∷ []) ∷ []) }
    ensures memory { IfErr result (λ e. refusal_of e ≡ None) }
{
    let mut group = Vec::with_capacity(alloc, 1)?;
    group.push(item)?;
    groups.push(group)?;
    keys.insert(key)?;
    Ok(())
}
