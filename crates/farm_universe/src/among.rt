//! The members of a base chroot, found by the names that they go by.

ghost use Rattle.std.specs.Prelude.{◌≡◌, ◌&&◌, IfOk, All, map};
ghost use Rattle.std.specs.List.{list_any};
ghost use Rattle.std.specs.Option.{is_none};
ghost use Rattle.deb_relation.specs.Satisfaction.{is_its_own, is_provided, package_satisfies};
ghost use Rattle.farm_universe.specs.Among.{provides_at, is_another_member, at_owner, AreFound};
ghost use Rattle.farm_universe.specs.BaseText as base;
ghost use Rattle.farm_universe.specs.FarmView.{IsPlace};
ghost use Rattle.farm_universe.specs.TableView.{table_view, IsFit};

use crate::member::Member;
use crate::package_table::PackageTable;
use deb_relation::{Atom, Entry, Relations};
use farm_model::Variant;
use item_index::{Item, ItemIndex};
use std::alloc::{AllocError, Global};
use std::marker::Model;

/// The members of a base chroot. A contract sees their list.
#[derive(Drop)]
pub struct Among<'a> {
    members: Vec<Member<'a>>,
    /// Each under its name, by its place in the list.
    named: ItemIndex<usize>,
    /// What each provides, under the names of that.
    provided: ItemIndex<usize>,
}

impl<'a> Model for Among<'a> {
    ghost use Rattle.std.specs.Prelude.{List};
    ghost use Rattle.farm_universe.specs.BaseText as base;
    ghost use Rattle.farm_universe.specs.Among.{AreFound};

    ghost Value = { List base.Member };

    ghost view = { λ among. among.members.items };

    ghost invariant = { λ among. AreFound among.members.items among.named among.provided };
}

fn members_of<'a>(
    alloc: Global,
    table: &'a PackageTable,
    variants: &[Variant],
) -> Result<Vec<Member<'a>>, AllocError>
    requires fit { IsFit (table_view table.now) }
    requires places { All (IsPlace (table_view table.now)) variants.now }
    ensures { IfOk result
        (λ members. members.items ≡ map (base.member_of (table_view table.now)) variants.now) }
{
    let mut members = Vec::with_capacity(alloc, variants.len())?;
    for variant in variants {
        members.push(Member::of(table, *variant))?;
    }
    Ok(members)
}

/// The members, listed by name.
fn found<'a>(alloc: Global, members: Vec<Member<'a>>) -> Result<Among<'a>, AllocError>
    ensures { IfOk result (λ among. among ≡ members.entry.items) }
{
    let mut named = ItemIndex::new(alloc, members.len())?;
    let mut provided = ItemIndex::new(alloc, members.len())?;
    for owner in 0..members.len() {
        let member = &members[owner];
        let item = Item {
            owner,
            entry: 0,
            alternative: 0,
        };
        named.add(member.name(), item)?;
        provided.add_field(owner, &member.relations().provides)?;
    }
    Ok(Among {
        members,
        named,
        provided,
    })
}

impl<'a> Among<'a> {
    /// The members that these variants of a table are.
    pub fn of(
        alloc: Global,
        table: &'a PackageTable,
        variants: &[Variant],
    ) -> Result<Among<'a>, AllocError>
        requires fit { IsFit (table_view table.now) }
        requires places { All (IsPlace (table_view table.now)) variants.now }
        ensures { IfOk result
            (λ among. among ≡ map (base.member_of (table_view table.now)) variants.now) }
    {
        Ok(found(alloc, members_of(alloc, table, variants)?)?)
    }

    /// The members, as the list has them.
    pub fn members(&self) -> &[Member<'a>]
        ensures { result.now ≡ self.now }
    {
        &self.members
    }

    fn is_named_at(&self, besides: Option<u32>, atom: &Atom, item: &Item<usize>) -> bool
        ensures { result ≡ at_owner (λ m. is_another_member besides m
            && is_its_own (base.member_facts m) atom.now) self.now item.now }
    {
        match self.members.get(item.owner) {
            Some(member) => is_other(besides, member) && member.is_named(atom),
            None => false,
        }
    }

    fn is_provided_at(&self, besides: Option<u32>, atom: &Atom, item: &Item<usize>) -> bool
        ensures { result ≡ at_owner (λ m. is_another_member besides m
            && provides_at item.now m atom.now) self.now item.now }
    {
        match self.members.get(item.owner) {
            Some(member) => is_other(besides, member) && member.provides_at(item, atom),
            None => false,
        }
    }

    fn any_named_at(&self, besides: Option<u32>, atom: &Atom, items: &[Item<usize>]) -> bool
        ensures { result ≡ list_any (at_owner (λ m. is_another_member besides m
            && is_its_own (base.member_facts m) atom.now) self.now) items.now }
    {
        items
            .iter()
            .any(|item| self.is_named_at(besides, atom, item))
    }

    fn any_provided_at(&self, besides: Option<u32>, atom: &Atom, items: &[Item<usize>]) -> bool
        ensures { result ≡ list_any (λ item. at_owner (λ m. is_another_member besides m
            && provides_at item m atom.now) self.now item) items.now }
    {
        items
            .iter()
            .any(|item| self.is_provided_at(besides, atom, item))
    }

    /// Tells whether one of them, of another name than this, has the name of an alternative and a
    /// version in its relation.
    fn some_named(&self, besides: Option<u32>, atom: &Atom) -> bool
        ensures { result ≡ list_any (λ m. is_another_member besides m
            && is_its_own (base.member_facts m) atom.now) self.now }
    {
        self.any_named_at(besides, atom, self.named.listed(atom.name()))
    }

    /// Tells whether one of them, of another name than this, provides an alternative.
    fn some_provides(&self, besides: Option<u32>, atom: &Atom) -> bool
        ensures { result ≡ list_any (λ m. is_another_member besides m
            && is_provided m.binary.provides atom.now) self.now }
    {
        self.any_provided_at(besides, atom, self.provided.listed(atom.name()))
    }

    /// Tells whether one of them, of another name than this, satisfies an alternative.
    fn some_satisfies(&self, besides: Option<u32>, atom: &Atom) -> bool
        ensures { result ≡ list_any (λ m. is_another_member besides m
            && package_satisfies (base.member_facts m) atom.now) self.now }
    {
        is_bare(atom) && (self.some_named(besides, atom) || self.some_provides(besides, atom))
    }

    fn any_satisfied(&self, besides: Option<u32>, entry: &Entry) -> bool
        ensures { result ≡ list_any (λ a. list_any (λ m. is_another_member besides m
            && package_satisfies (base.member_facts m) a) self.now) entry.now }
    {
        entry
            .alternatives()
            .iter()
            .any(|atom| self.some_satisfies(besides, atom))
    }

    /// Tells whether one of them, of another name than this if one is given, satisfies some
    /// alternative of an entry.
    pub fn some_meets(&self, besides: Option<u32>, entry: &Entry) -> bool
        ensures { result ≡ list_any (λ m. is_another_member besides m
            && base.member_meets m entry.now)
            self.now }
    {
        self.any_satisfied(besides, entry)
    }

    fn any_met(&self, besides: Option<u32>, field: &Relations) -> bool
        ensures { result ≡ list_any (λ e. list_any (λ m. is_another_member besides m
            && base.member_meets m e) self.now) field.now }
    {
        field
            .entries()
            .iter()
            .any(|entry| self.some_meets(besides, entry))
    }

    /// Tells whether one of them, of another name than this if one is given, satisfies some entry
    /// of a field.
    pub fn some_meets_any(&self, besides: Option<u32>, field: &Relations) -> bool
        ensures { result
            ≡ list_any (λ m. is_another_member besides m && base.meets_any m field.now) self.now }
    {
        self.any_met(besides, field)
    }
}

/// Tells whether an alternative has no qualifier.
fn is_bare(atom: &Atom) -> bool
    ensures { result ≡ is_none atom.now.qualifier }
{
    atom.qualifier().is_none()
}

/// Tells whether a member is of another name than this, if one is given.
fn is_other(besides: Option<u32>, member: &Member) -> bool
    ensures { result ≡ is_another_member besides member.now }
{
    match besides {
        Some(number) => member.number() != number,
        None => true,
    }
}
