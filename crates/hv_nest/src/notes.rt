//! Notes of the words that a step changes, as they were before it.

ghost use Rattle.std.specs.Prelude.{◌≡◌, ◌≢◌, ℕ, ◌+◌, ◌<◌, ◌≤◌, ◌++◌, ◌∷◌, [], true, false, IfNone, IfSome, length, slice_index, slice_set};
ghost use Rattle.hv_nest.specs.Changes.{differences};
ghost use Rattle.hv_nest.specs.Noted.{told_too};
ghost use Rattle.hv_nest.specs.Notes.{undone, is_noted, is_exact, AreApart};
ghost use Rattle.hv_nest.specs.Rows.{rows_limit};

use crate::changed::{Changed, ChangedRow, ROWS};
use hv_store::Store;
use std::marker::Model;

/// A word of the bare storage, by its place, and what it was before the step.
#[derive(Clone, Copy, Debug)]
pub struct Note {
    pub at: u32,
    pub before: u32,
}

/// The notes of a step, in the order in which its words were changed first, at most ROWS, each of another place.
#[derive(Drop)]
pub struct Notes {
    len: u32,
    items: [Note; ROWS],
}

impl Model for Notes {
    ghost use Rattle.std.specs.Prelude.{◌≡◌, ◌≤◌, List, length, take};
    ghost use Rattle.hv_nest.specs.declared.notes.Note.{Note};
    ghost use Rattle.hv_nest.specs.Notes.{AreApart};
    ghost use Rattle.hv_nest.specs.Rows.{rows_limit};

    ghost Value = { List Note };

    ghost view = { λ n. take n.len n.items };

    ghost invariant = { λ n. (n.len ≤ rows_limit) × (length n.items ≡ rows_limit) × AreApart (take n.len n.items) };
}

impl Notes {
    ghost use Rattle.hv_nest.specs.declared.notes.Note.{Note};

    /// No note.
    #[tactic(auto, unfolding(crate::specs::Notes::AreApart))]
    pub fn new() -> Notes
        ensures { result ≡ [] }
    {
        Notes {
            len: 0,
            items: [Note { at: 0, before: 0 }; ROWS],
        }
    }

    /// Forgets its notes.
    #[inline(always)]
    #[tactic(auto, unfolding(crate::specs::Notes::AreApart))]
    pub fn clear(&mut self)
        ensures { self.new ≡ [] }
    {
        self.len = 0;
    }

    /// The notes in order.
    #[inline(always)]
    pub fn as_slice(&self) -> &[Note]
        ensures items { result.now ≡ self.now }
        ensures bound { length result.now ≤ rows_limit }
    {
        &self.items[..self.len as usize]
    }

    // Whether the word at a place is noted.
    #[inline(always)]
    fn has(&self, at: u32) -> bool
        ensures { result ≡ is_noted at self.now }
    {
        self.len > 0 && self.as_slice().iter().any(|note| note.at == at)
    }

    // Notes one more word.
    #[inline(always)]
    fn push(&mut self, at: u32, before: u32)
        requires room { length self.old < rows_limit }
        requires other { is_noted at self.old ≡ false }
        ensures { self.new ≡ self.old ++ record { at = at; before = before } ∷ [] }
    {
        self.items[self.len as usize] = Note { at, before };
        self.len += 1;
    }

    /// Changes the word at a place, and notes what it was where it changes for the first time.
    #[inline(always)]
    #[tactic(auto, using(crate::proofs::Undone::undoing))]
    pub fn put(&mut self, store: &mut Store, at: u32, value: u32)
        requires at { at < length store.old }
        requires room { slice_index (undone store.old self.old) at ≢ value → length self.old < rows_limit }
        ensures put { store.new ≡ slice_set store.old at value }
        ensures origin { undone store.new self.new ≡ undone store.old self.old }
        ensures count { length self.new ≤ length self.old + 1 }
        ensures kept { slice_index (undone store.old self.old) at ≡ value → length self.new ≡ length self.old }
        ensures apart { (b : ℕ) → b ≢ at → is_noted b self.new ≡ is_noted b self.old }
        ensures exact { is_noted at self.old ≡ false → is_exact store.old self.old ≡ true → is_exact store.new self.new ≡ true }
    {
        let before = store.get(at);
        if before == value {
            return;
        }
        if !self.has(at) {
            self.push(at, before);
        }
        store.put(at, value);
    }

    /// Puts the noted words back as they were, and notes nothing any more.
    #[tactic(auto, using(crate::proofs::Undone::taking_back))]
    pub fn undo(&mut self, store: &mut Store)
        requires { is_exact store.old self.old ≡ true }
        ensures store { store.new ≡ undone store.old self.old }
        ensures none { self.new ≡ [] }
    {
        while let Some(note) = self.pop() {
            store.put(note.at, note.before);
        }
    }

    // Takes the last note away.
    fn pop(&mut self) -> Option<Note>
        ensures some { IfSome result (λ note. self.old ≡ self.new ++ note ∷ []) }
        ensures none { IfNone result ((self.old ≡ []) × (self.new ≡ [])) }
    {
        self.len = self.len.checked_sub(1)?;
        Some(self.items[self.len as usize])
    }

    /// The words that are others now, by rising place.
    #[inline(always)]
    pub fn changed(&self, store: &Store) -> Changed
        ensures { result ≡ differences (undone store.now self.now) store.now }
    {
        let mut changed = Changed::none();
        self.tell(store, &mut changed);
        changed
    }

    /// The same, told in `changed` in place of what that told.
    #[inline(always)]
    pub fn tell(&self, store: &Store, changed: &mut Changed)
        ensures { changed.new ≡ differences (undone store.now self.now) store.now }
    {
        changed.clear();
        match &self.items[..self.len as usize] {
            [] => {}
            [note] => tell_note(note, store, changed),
            [first, second] => {
                tell_note(first, store, changed);
                tell_note(second, store, changed);
            }
            notes => tell_each(notes, store, changed),
        }
    }
}

// Tells the noted words that are others now, one by one.
#[inline(never)]
#[tactic(auto, using(crate::proofs::Told::telling))]
fn tell_each(notes: &[Note], store: &Store, changed: &mut Changed)
    requires apart { AreApart notes.now }
    requires few { length notes.now ≤ rows_limit }
    requires none { changed.old ≡ [] }
    ensures { changed.new ≡ differences (undone store.now notes.now) store.now }
{
    for note in notes {
        tell_note(note, store, changed);
    }
}

// Tells a noted word too, if it is another now.
#[inline(always)]
#[tactic(auto, unfolding(crate::specs::Noted::told_too))]
fn tell_note(note: &Note, store: &Store, changed: &mut Changed)
    requires { length changed.old < rows_limit }
    ensures { changed.new ≡ told_too store.now note.now changed.old }
{
    if note.at >= 1024 * store.pages() {
        return;
    }
    let value = store.get(note.at);
    if note.before != value {
        changed.insert(ChangedRow { at: note.at, value });
    }
}
