//! Permissions (System V gABI, chapter 5, "Segment Permissions").

ghost use Rattle.std.specs.Prelude.{⊤, ◌≡◌, [], ◌∷◌, codes};
ghost use Rattle.rz_image.specs.Perm.{executes, writes, reads, perm_of};

use bitflags::{Flag, Flags, bitflag_items};

/// What may be done with the bytes of a region: the bits of `p_flags`.
#[derive(Clone, Copy, PartialEq, Eq, Debug)]
pub struct Perm(u8);

bitflag_items! {
    impl Perm: u8 {
        const EXECUTE = 1;
        const WRITE = 2;
        const READ = 4;
    }
}

impl Flags for Perm {
    type Bits = u8;

    ghost exact = { ⊤ };

    ghost table = { (codes "EXECUTE", 1) ∷ (codes "WRITE", 2) ∷ (codes "READ", 4) ∷ [] };

    ghost set_of = { λ p. p.0 };

    fn flags<'a>() -> &'a [Flag<Perm>] {
        Perm::FLAGS
    }

    fn bits(&self) -> u8 {
        self.0
    }

    fn from_bits_retain(bits: u8) -> Perm {
        Perm(bits)
    }
}

impl Perm {
    /// The permissions that the low three bits of `p_flags` give. The other bits give none.
    pub fn of_flags(flags: u32) -> Perm
        ensures { result ≡ perm_of flags }
    {
        Perm((flags % 8) as u8)
    }

    /// Whether the bytes may be executed.
    #[tactic(auto, using(crate::proofs::PermLaws::has_execute))]
    pub fn executes(self) -> bool
        ensures { result ≡ executes self }
    {
        self.contains(Perm::EXECUTE)
    }

    /// Whether the bytes may be written.
    #[tactic(auto, using(crate::proofs::PermLaws::has_write))]
    pub fn writes(self) -> bool
        ensures { result ≡ writes self }
    {
        self.contains(Perm::WRITE)
    }

    /// Whether the bytes may be read.
    #[tactic(auto, using(crate::proofs::PermLaws::has_read))]
    pub fn reads(self) -> bool
        ensures { result ≡ reads self }
    {
        self.contains(Perm::READ)
    }
}
