//! What always holds of an upgrade. Each function here is empty: it states one law, which is proved.

ghost use Rattle.hv_apart.specs.Laws.{MapLaw, PathLaw, WordsLaw};

/// An upgrade changes the words of the directory's page, the machine's present table words and two words of its block, and
/// no other word.
pub fn upgrade_changes_listed_words()
    ensures { WordsLaw }
{}

/// The machines on the path of an upgraded machine stay where they are; it has a directory and version 2.
pub fn upgraded_machine_is_on_its_path()
    ensures { PathLaw }
{}

/// An upgraded machine has the map that it had.
pub fn upgraded_map_is_the_same()
    ensures { MapLaw }
{}
