//! The bits of mip and mie by their names.

ghost use Rattle.std.specs.Prelude.{⊤, [], ◌∷◌, codes};

use bitflags::{Flag, Flags, bitflag_items};

/// A set of interrupts, as it stands in mip, mie and mideleg.
#[derive(Clone, Copy, PartialEq, Eq, Debug)]
pub struct Interrupts(u32);

bitflag_items! {
    impl Interrupts: u32 {
        const SSI = 0x2;
        const MSI = 0x8;
        const STI = 0x20;
        const MTI = 0x80;
        const SEI = 0x200;
        const MEI = 0x800;
    }
}

impl Flags for Interrupts {
    type Bits = u32;

    ghost exact = { ⊤ };

    ghost table = { (codes "SSI", 0x2) ∷ (codes "MSI", 0x8) ∷ (codes "STI", 0x20) ∷ (codes "MTI", 0x80) ∷ (codes "SEI", 0x200) ∷ (codes "MEI", 0x800) ∷ [] };

    ghost set_of = { λ s. s.0 };

    fn flags<'a>() -> &'a [Flag<Interrupts>] {
        Interrupts::FLAGS
    }

    fn bits(&self) -> u32 {
        self.0
    }

    fn from_bits_retain(bits: u32) -> Interrupts {
        Interrupts(bits)
    }
}
