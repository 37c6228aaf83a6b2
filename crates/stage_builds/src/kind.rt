//! Kinds of builds.

ghost use Rattle.std.specs.Prelude.{◌≡◌, map};
ghost use Rattle.std.specs.List.{list_all};
ghost use Rattle.deb_text.specs.Common.{words};
ghost use Rattle.stage_builds.specs.Kinds.{are_final, is_final, is_final_under, keeps_contents, kind_of};

use deb_profile::ProfileSet;
use deb_text::next_word;

/// What a build is for others, by the profiles that it has beyond those of every build.
#[derive(Clone, Copy, Debug, PartialEq, Eq)]
pub enum Kind {
    /// It has none: what it gives is final.
    Whole,
    /// All of them are among `nocheck`, `noinsttest` and `noudeb`, which leave the contents of what
    /// is still given as they are (BuildProfileSpec): that is final too.
    Light,
    /// It has another one, under which contents may differ.
    Staged,
}

fn keeps_contents(profile: &[u8]) -> bool
    ensures { result ≡ keeps_contents profile.now }
{
    profile == b"nocheck".as_slice()
        || profile == b"noinsttest".as_slice()
        || profile == b"noudeb".as_slice()
}

fn each_keeps(profiles: &[&[u8]]) -> bool
    ensures { result ≡ list_all (λ profile. keeps_contents profile.now) profiles.now }
{
    profiles.iter().all(|profile| keeps_contents(profile))
}

fn keep_contents(profiles: &[&[u8]]) -> bool
    ensures { result ≡ list_all keeps_contents (map (λ profile. profile.now) profiles.now) }
{
    each_keeps(profiles)
}

/// The kind of a build that has these profiles beyond those of every build.
pub fn kind_of(more: &[&[u8]]) -> Kind
    ensures { result ≡ kind_of (map (λ profile. profile.now) more.now) }
{
    match more {
        [] => Kind::Whole,
        [_, ..] => {
            if keep_contents(more) {
                Kind::Light
            } else {
                Kind::Staged
            }
        }
    }
}

fn is_final_under(base: &ProfileSet, profile: &[u8]) -> bool
    ensures { result ≡ is_final_under base.now profile.now }
{
    base.is_active(profile) || keeps_contents(profile)
}

/// Tells whether a build is whole or light by the text of its profiles: each is one of those of every
/// build, or leaves contents as they are.
pub fn are_final(base: &ProfileSet, profiles: &[u8]) -> bool
    ensures { result ≡ are_final base.now (words profiles.now) }
{
    let mut rest = profiles;
    while let Some((profile, behind)) = next_word(rest) {
        if !is_final_under(base, profile) {
            return false;
        }
        rest = behind;
    }
    true
}

impl Kind {
    /// Tells whether others may take what a build of this kind gives as built for good.
    pub fn is_final(self) -> bool
        ensures { result ≡ is_final self }
    {
        match self {
            Kind::Whole | Kind::Light => true,
            Kind::Staged => false,
        }
    }

    /// The word for it.
    pub fn word(self) -> &'static [u8] {
        match self {
            Kind::Whole => b"whole",
            Kind::Light => b"light",
            Kind::Staged => b"staged",
        }
    }
}
