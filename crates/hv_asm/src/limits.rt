//! How much a text of assembly can make.

ghost use Rattle.std.specs.Prelude.{◌≡◌};
ghost use Rattle.hv_asm.specs.Limits.{image_limit, space_limit};

/// How many bytes the words of a text can have.
pub const IMAGE_BYTES: u64 = 0x10_0000;

/// How many bytes of zero a line `.space` can ask for.
pub const SPACE_BYTES: u64 = 0x10_0000;

/// The constants of the code are the numbers that the definitions speak of.
pub fn asm_limits_are_kept()
    ensures image { IMAGE_BYTES ≡ image_limit }
    ensures space { SPACE_BYTES ≡ space_limit }
{}
