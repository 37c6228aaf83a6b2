//! What a base chroot may hold: packages that need and allow each other (Debian Policy 7).

ghost use Rattle.std.specs.Prelude.{◌≡◌, IfOk, All, map, nat_le};
ghost use Rattle.std.specs.List.{list_any};
ghost use Rattle.farm_universe.specs.BaseText as base;
ghost use Rattle.farm_universe.specs.FarmView.{IsPlace};
ghost use Rattle.farm_universe.specs.TableView.{table_view, IsFit};

use crate::among::Among;
use crate::member::Member;
use crate::package_table::PackageTable;
use deb_relation::Relations;
use farm_model::Variant;
use std::alloc::{AllocError, Global};

/// Tells whether no two are of one name. The last of them is looked at first.
fn one_of_each(
    alloc: Global,
    table: &PackageTable,
    variants: &[Variant],
) -> Result<bool, AllocError>
    requires { All (IsPlace (table_view table.now)) variants.now }
    ensures { IfOk result (λ once. once
        ≡ base.one_of_each (map (base.member_of (table_view table.now)) variants.now)) }
{
    let mut seen = vec![in alloc; false; table.names.len()]?;
    let mut left = variants.len();
    while left > 0 {
        left -= 1;
        let name = variants[left].name as usize;
        if seen[name] {
            return Ok(false);
        }
        seen[name] = true;
    }
    Ok(true)
}

fn are_met(among: &Among, field: &Relations) -> bool
    ensures { result ≡ base.are_met among.now field.now }
{
    field
        .entries()
        .iter()
        .all(|entry| among.some_meets(None, entry))
}

/// Tells whether Depends and Pre-Depends of each are met among them.
#[tactic(auto, unfolding(crate::specs::BaseText::all_met))]
fn all_met(among: &Among) -> bool
    ensures { result ≡ base.all_met among.now }
{
    among.members().iter().all(|member| {
        let relations = member.relations();
        are_met(among, &relations.depends) && are_met(among, &relations.pre_depends)
    })
}

/// Tells whether a member excludes one of them.
fn excludes_some(among: &Among, member: &Member) -> bool
    ensures { result ≡ list_any (base.excludes member.now) among.now }
{
    let relations = member.relations();
    let besides = Some(member.number());
    among.some_meets_any(besides, &relations.conflicts)
        || among.some_meets_any(besides, &relations.breaks)
}

#[tactic(auto, unfolding(crate::specs::BaseText::some_excluded))]
fn some_excluded(among: &Among) -> bool
    ensures { result ≡ base.some_excluded among.now }
{
    among
        .members()
        .iter()
        .any(|member| excludes_some(among, member))
}

/// Tells whether they fit into this room, in KiB.
fn fit(members: &[Member], room: u64) -> bool
    ensures { result ≡ nat_le (base.size_of_all members.now) room }
{
    match members {
        [] => true,
        [first, rest @ ..] => match room.checked_sub(first.size()) {
            Some(left) => fit(rest, left),
            None => false,
        },
    }
}

/// Tells whether these variants can be what a base chroot of this capacity holds.
#[tactic(auto, unfolding(crate::specs::BaseText::is_settled_base))]
pub fn is_settled_base(
    alloc: Global,
    table: &PackageTable,
    capacity: u64,
    variants: &[Variant],
) -> Result<bool, AllocError>
    requires fit { IsFit (table_view table.now) }
    requires places { All (IsPlace (table_view table.now)) variants.now }
    ensures { IfOk result
        (λ settled. settled ≡ base.is_settled_base (table_view table.now) capacity variants.now) }
{
    let once = one_of_each(alloc, table, variants)?;
    let among = Among::of(alloc, table, variants)?;
    Ok(once && all_met(&among) && !some_excluded(&among) && fit(among.members(), capacity))
}
