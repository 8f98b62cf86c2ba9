//! What a job's lines look like. Each function here is empty: it states one law, which is proved.

ghost use Rattle.hv_grammar.specs.First.{FirstCommandLaw, FirstLineLaw};
ghost use Rattle.hv_grammar.specs.Forms.{CommandFormLaw, LineFormLaw, StorageFormLaw};
ghost use Rattle.hv_grammar.specs.Kinds.{KindWordLaw};
ghost use Rattle.hv_grammar.specs.Texts.{JobTextLaw, RefusedTextLaw, ThroughTextLaw};

/// A line among the directives says something exactly where its words are those of a form that says it, with every
/// value in its range.
pub fn lines_are_their_forms()
    ensures { LineFormLaw }
{}

/// A line gives the pages of the storage exactly where its words are `storage` and their number, in its range.
pub fn the_storage_is_its_form()
    ensures { StorageFormLaw }
{}

/// A line is a command of the debugger exactly where its words are those of a form of that command, in range.
pub fn commands_are_their_forms()
    ensures { CommandFormLaw }
{}

/// A line of a `job 1` says what the same words say in a `job 2`, wherever that is something that a `job 1` can say,
/// and says nothing else.
pub fn first_lines_say_the_same()
    ensures { FirstLineLaw }
{}

/// The same of commands of the debugger.
pub fn first_commands_are_the_same()
    ensures { FirstCommandLaw }
{}

/// A text is a job exactly where its lines go from the header, which says the version, through the storage, the
/// directives and the images, and then perhaps through the commands, what they assemble is assembled, and the limits
/// are kept; and the job is what they say, one after another.
pub fn jobs_are_what_their_lines_say()
    ensures { JobTextLaw }
{}

/// The lines of a refused text go this way up to the line that is refused.
pub fn lines_before_the_refused_one_are_good()
    ensures { RefusedTextLaw }
{}

/// A text whose lines go this way to their end is refused for a limit, a second number of harts, or what an image or a
/// sample is assembled to, and for nothing else.
pub fn texts_that_go_through_have_no_other_fault()
    ensures { ThroughTextLaw }
{}

/// A line of assembly inside an image is refused with the word that the assembler has for it.
pub fn assembly_is_refused_in_its_own_words()
    ensures { KindWordLaw }
{}
