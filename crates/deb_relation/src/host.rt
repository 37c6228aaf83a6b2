//! What restrictions are held against.

ghost use Rattle.std.specs.Prelude.{◌≡◌, false};

/// An architecture, and the build profiles that are active.
pub trait Host {
    ghost use Rattle.std.specs.Prelude.{ℕ, List, Bool};

    ghost is_arch: { Self → List ℕ → Bool };

    ghost is_active: { Self → List ℕ → Bool };

    /// Tells whether a name is the architecture's.
    fn matches(&self, name: &[u8]) -> bool
        ensures { result ≡ is_arch self.now name.now };

    /// Tells whether a profile is active.
    fn has_profile(&self, profile: &[u8]) -> bool
        ensures { result ≡ is_active self.now profile.now };
}

/// A host for restrictions that are judged alone, whatever they say of it.
#[derive(Drop)]
pub struct NoHost;

impl Host for NoHost {
    ghost is_arch = { λ _ _. false };

    ghost is_active = { λ _ _. false };

    fn matches(&self, _name: &[u8]) -> bool {
        false
    }

    fn has_profile(&self, _profile: &[u8]) -> bool {
        false
    }
}
