//! What always holds of composed maps. Each function here is empty: it states one law, which is proved.

ghost use Rattle.hv_map.specs.Held.{GatheredMapLaw, GatheredSlotLaw, ListedLaw, ListKeepsLaw, PlacedLaw, HeldIsRightLaw, PinIsRightLaw, HeldStaysLaw, PinStaysLaw};
ghost use Rattle.hv_map.specs.Laws.{SizeLaw, TableLaw, OpensLaw, SameLaw, LevelLaw, CarryLaw, TrailLaw, AssociativeLaw, AlongLaw, PinnedLaw, RunningLaw};

/// A child's map has a slot for each of its pages, and no other.
pub fn map_has_each_page()
    ensures { SizeLaw }
{}

/// A child's map depends on no words but those of its table, and of its directory, that its parent can read: it is the
/// same for two storages that agree on them.
pub fn map_depends_on_table_words()
    ensures { TableLaw }
{}

/// A child's map opens no page, for any access, but those that its parent's map opens for that access.
pub fn map_opens_only_parents_pages()
    ensures { OpensLaw }
{}

/// Where the open ways of the parent's map for writing and fetching are its open ways for reading of the same pages, so
/// are those of the child's.
pub fn map_opens_same_page()
    ensures { SameLaw }
{}

/// A way that is shut in a child's map is shut at its parent's level, or at the level of a way that is shut in the
/// parent's map.
pub fn map_is_shut_at_known_levels()
    ensures { LevelLaw }
{}

/// Composing and carrying change places: where a storage agrees with what a machine sees of it, the map of a child in the
/// one, carried through that machine's map, is the map of the child in the other, but for ways that are refused further out.
pub fn map_is_carried()
    ensures { CarryLaw }
{}

/// For every path with a map, the way of each page of the machine, for each access, is the one that is found from the
/// inside out.
pub fn trail_is_map()
    ensures { TrailLaw }
{}

/// Maps associate: the map at the end of a path in two parts is the map at the end of the second part, in the storage
/// that the machine at the end of the first part sees, carried through that machine's map, but for ways that are refused
/// further out.
pub fn maps_associate()
    ensures { AssociativeLaw }
{}

/// The map along a row of machines depends on no words but those of their tables and directories, and on pages, table and
/// version in their blocks.
pub fn map_along_depends_on_its_words()
    ensures { AlongLaw }
{}

/// The machines that are found on a path are the machines of that path, each on its page of the one before.
pub fn machines_are_on_their_path()
    ensures { PinnedLaw }
{}

/// The path of the machine that a hart runs is one with a map, and no longer than machines may be deep.
pub fn running_path_has_a_map()
    ensures { RunningLaw }
{}

/// A map with gathered pages is the map, where these are left out.
pub fn gathered_pages_stand_beside_map()
    ensures { GatheredMapLaw }
{}

/// A slot depends on nothing but the words of the pages that are gathered beside it.
pub fn slot_depends_on_gathered_pages()
    ensures { GatheredSlotLaw }
{}

/// A list that isn't full has all pages that were added.
pub fn list_has_what_was_added()
    ensures { ListedLaw }
{}

/// Adding pages to a list keeps those that were there.
pub fn list_keeps_its_pages()
    ensures { ListKeepsLaw }
{}

/// The machines on a path are placed where what is read to find their blocks is listed.
pub fn pinned_machines_are_placed()
    ensures { PlacedLaw }
{}

/// What is held is right: its machines are those on their path, and its page has its slot in the last one's map.
pub fn held_translation_is_right()
    ensures { HeldIsRightLaw }
{}

/// A pin is right: its machines are those on the running path.
pub fn pin_is_right()
    ensures { PinIsRightLaw }
{}

/// What is held stays while the words of the listed pages stay, and the blocks of its machines say what they did.
pub fn held_translation_stays()
    ensures { HeldStaysLaw }
{}

/// And so does a pin, while the hart's next and those in the blocks stay too.
pub fn pin_stays()
    ensures { PinStaysLaw }
{}
