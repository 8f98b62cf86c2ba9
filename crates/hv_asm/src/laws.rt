//! What the assembler's words mean. Each function here is empty: it states one law, which is proved.

ghost use Rattle.hv_asm.specs.Law.{AssemblerLaw};

/// In a text that is assembled, the word of each line of an instruction decodes to the named operation with the operands'
/// values, and so do the words of a short form; `.word` and `.space` make the words that they say. An offset to a label
/// is the label's address less the line's, and a label's address is the base and four times the number of words before it.
pub fn words_decode_to_their_lines()
    ensures { AssemblerLaw }
{}
