//! Whether an alternative is wanted for an architecture and under some build profiles.

ghost use Rattle.std.specs.Prelude.{◌≡◌};
ghost use Rattle.std.specs.List.{list_any};
ghost use Rattle.std.specs.Option.{option_copied};
ghost use Rattle.deb_relation.specs.Holding.{archs_hold, item_holds, list_holds, profiles_hold};
ghost use Rattle.deb_profile.specs.Restriction.{is_among, keeps};

use crate::word_list::{ArchNames, ProfileSet};
use deb_relation::{ArchList, Atom, Item, ProfileList, Word};

/// Tells whether an alternative stays: its architecture list and its profile lists hold
/// (Debian Policy 7.1, BuildProfileSpec). The call takes no memory.
pub fn keeps(atom: &Atom, names: &ArchNames, active: &ProfileSet) -> bool
    ensures { result ≡ keeps names.now active.now atom.now }
{
    arch_holds(names, atom.archs()) && profiles_hold(active, atom.profiles())
}

fn arch_holds(names: &ArchNames, archs: Option<&ArchList>) -> bool
    ensures { result ≡ archs_hold (is_among names.now) (option_copied archs.entry) }
{
    match archs {
        Some(list) => list.negated != some_matches(names, &list.names),
        None => true,
    }
}

fn some_matches(names: &ArchNames, list: &[Word]) -> bool
    ensures { result ≡ list_any (is_among names.now) list.now }
{
    list.iter().any(|name| names.matches(name.text()))
}

fn profiles_hold(active: &ProfileSet, lists: &[ProfileList]) -> bool
    ensures { result ≡ profiles_hold (is_among active.now) lists.now }
{
    lists.is_empty() || some_list_holds(active, lists)
}

fn some_list_holds(active: &ProfileSet, lists: &[ProfileList]) -> bool
    ensures { result ≡ list_any (list_holds (is_among active.now)) lists.now }
{
    lists.iter().any(|list| list_holds(active, list))
}

fn list_holds(active: &ProfileSet, list: &ProfileList) -> bool
    ensures { result ≡ list_holds (is_among active.now) list.now }
{
    list.items().iter().all(|item| item_holds(active, item))
}

fn item_holds(active: &ProfileSet, item: &Item) -> bool
    ensures { result ≡ item_holds (is_among active.now) item.now }
{
    item.negated != active.is_active(item.word.text())
}
