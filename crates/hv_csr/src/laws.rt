//! What always holds of control registers. Each function here is empty: it states laws, which are proved.

ghost use Rattle.hv_csr.specs.Laws.{NameLaw, NumberLaw};

/// The machine's table of control registers and the assembler's are one: each number has the same name in both, or none
/// in either, and each register's name has its number.
pub fn one_table_of_control_registers()
    ensures name { NameLaw }
    ensures number { NumberLaw }
{}
