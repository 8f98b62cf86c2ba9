//! The names of the control and status registers.

ghost use Rattle.std.specs.Prelude.{◌≡◌, Some, IfNone, IfSome};
ghost use Rattle.std.specs.Option.{option_copied};
ghost use Rattle.hv_isa.specs.Csrs.{LacksName, csr_name_of, csr_number_of};

// The table: each register's number and its name.
macro_rules! csrs {
    ($then:ident $choice:ident) => {
        $then! { [$choice]
            0x100 "sstatus",
            0x104 "sie",
            0x105 "stvec",
            0x106 "scounteren",
            0x140 "sscratch",
            0x141 "sepc",
            0x142 "scause",
            0x143 "stval",
            0x144 "sip",
            0x180 "satp",
            0x300 "mstatus",
            0x301 "misa",
            0x302 "medeleg",
            0x303 "mideleg",
            0x304 "mie",
            0x305 "mtvec",
            0x306 "mcounteren",
            0x310 "mstatush",
            0x340 "mscratch",
            0x341 "mepc",
            0x342 "mcause",
            0x343 "mtval",
            0x344 "mip",
            0xf11 "mvendorid",
            0xf12 "marchid",
            0xf13 "mimpid",
            0xf14 "mhartid",
        }
    };
}

macro_rules! name_arms {
    ([$choice:ident] $($number:literal $name:literal,)*) => {
        match $choice {
            $($number => Some($name),)*
            _ => None,
        }
    };
}

macro_rules! number_arms {
    ([$choice:ident] $($number:literal $name:literal,)*) => {
        match $choice {
            $($name => Some($number),)*
            _ => None,
        }
    };
}

#[tactic(auto, unfolding(crate::specs::Csrs::csr_name_of))]
fn find_csr_name(number: u32) -> Option<&'static str>
    ensures { option_copied result ≡ csr_name_of number }
{
    csrs!(name_arms number)
}

/// The name of the control and status register of this number; None where the table has none.
pub fn csr_name(number: u32) -> Option<&'static str>
    ensures name { option_copied result ≡ csr_name_of number }
    ensures back { IfSome result (λ name. csr_number_of name.now ≡ Some number) }
{
    find_csr_name(number)
}

#[tactic(auto, unfolding(crate::specs::Csrs::csr_name_of))]
fn find_csr_number(text: &str) -> Option<u32>
    ensures found { IfSome result (λ number. csr_name_of number ≡ Some text.now) }
    ensures none { IfNone result (LacksName text.now) }
{
    csrs!(number_arms text)
}

/// The number of the control and status register of this name; None where the table has none.
pub fn csr_by_name(text: &str) -> Option<u32>
    ensures number { result ≡ csr_number_of text.now }
    ensures back { IfSome result (λ number. csr_name_of number ≡ Some text.now) }
{
    find_csr_number(text)
}
