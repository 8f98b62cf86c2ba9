//! What always holds of one instruction. The function here is empty: it states one law, which is proved.

ghost use Rattle.hv_exec.specs.Changes.{FewLaw};

/// One instruction, with its trap if it has one, changes at most six words of the storage and of the registers.
pub fn instruction_changes_few_words()
    ensures { FewLaw }
{}
