// What is in flight, oldest first: tags are not stored, they count up, modulo 256, from the oldest entry's.
ghost use Rattle.std.specs.Prelude.{◌≡◌, ◌<◌, ◌≤◌, ◌+◌, ◌%◌, ◌∷◌, ◌++◌, [], ◌==◌, length, cond, Ok, Err, MatchOption, drop, slice_get, slice_set};
ghost use Rattle.recovery.specs.declared.AdmitError.TheVariants.{Full};
ghost use Rattle.recovery.specs.Flight.{is_full, next_tag, distance, entry_at};
ghost use Rattle.recovery.specs.Meaning.{start_answer};
ghost use Rattle.recovery.specs.Search.{last_of};

use crate::AdmitError;
use crate::search::{Naming, youngest};
use arrayvec::ArrayVec;

// The entries, oldest first, where the oldest has the tag `first`. No more than the capacity are in it.
#[derive(Drop)]
pub struct Flight<E> {
    capacity: u32,
    first: u8,
    entries: ArrayVec<E, 16>,
    ghost some: { 1 ≤ capacity },
    ghost most: { capacity ≤ 16 },
    ghost room: { length entries.items ≤ capacity },
    ghost tagged: { first < 256 },
}

impl<E: Copy + Default> Flight<E> {
    // An empty flight of capacity 1.
    pub fn new() -> Flight<E>
        ensures capacity { result.capacity ≡ 1 }
        ensures first { result.first ≡ 0 }
        ensures entries { result.entries.items ≡ [] }
    {
        Flight {
            capacity: 1,
            first: 0,
            entries: ArrayVec::new(),
        }
    }

    // Sets the capacity, and empties the flight; outside 1 to 16 it answers no.
    pub fn start(&mut self, capacity: u32) -> bool
        ensures answer { result ≡ start_answer capacity }
        ensures capacity { self.new.capacity ≡ cond (start_answer capacity) capacity self.old.capacity }
        ensures first { self.new.first ≡ self.old.first }
        ensures entries { self.new.entries.items ≡ cond (start_answer capacity) [] self.old.entries.items }
    {
        if !(1..=16).contains(&capacity) {
            return false;
        }
        self.clear();
        self.capacity = capacity;
        true
    }

    // The entries, oldest first.
    pub fn entries(&self) -> &[E]
        ensures { result.now ≡ self.now.entries.items }
    {
        self.entries.as_slice()
    }

    // Appends an entry and answers its tag, unless the flight is full.
    pub fn push(&mut self, entry: E) -> Result<u8, AdmitError>
        ensures answer { result ≡ cond (is_full self.old.capacity self.old.entries.items) (Err Full) (Ok (next_tag self.old.first self.old.entries.items)) }
        ensures entries { self.new.entries.items ≡ cond (is_full self.old.capacity self.old.entries.items) self.old.entries.items (self.old.entries.items ++ (entry ∷ [])) }
        ensures capacity { self.new.capacity ≡ self.old.capacity }
        ensures first { self.new.first ≡ self.old.first }
    {
        if self.entries.len() >= self.capacity as usize {
            return Err(AdmitError::Full);
        }
        let tag = self.first.wrapping_add(self.entries.len() as u8);
        self.entries.push(entry);
        Ok(tag)
    }

    // The entry at a place, if any.
    fn get(&self, i: usize) -> Option<E>
        ensures { result ≡ slice_get self.now.entries.items i }
    {
        self.entries.get(i).copied()
    }

    // The entry of a tag, if any.
    pub fn entry_at(&self, tag: u8) -> Option<E>
        ensures { result ≡ entry_at self.now.first self.now.entries.items tag }
    {
        self.get(tag.wrapping_sub(self.first) as usize)
    }

    // Puts an entry in the place of the one of a tag, if any.
    pub fn replace(&mut self, tag: u8, entry: E)
        ensures entries { self.new.entries.items ≡ slice_set self.old.entries.items (distance self.old.first tag) entry }
        ensures capacity { self.new.capacity ≡ self.old.capacity }
        ensures first { self.new.first ≡ self.old.first }
    {
        let i = tag.wrapping_sub(self.first) as usize;
        if let Some(place) = self.entries.get_mut(i) {
            *place = entry;
        }
    }

    // The oldest entry, if any.
    pub fn oldest(&self) -> Option<E>
        ensures { MatchOption result (self.now.entries.items ≡ []) (λ head. self.now.entries.items ≡ head ∷ drop 1 self.now.entries.items) }
    {
        self.entries.first().copied()
    }

    // Takes the oldest entry off, if any.
    pub fn remove_oldest(&mut self)
        ensures entries { self.new.entries.items ≡ drop 1 self.old.entries.items }
        ensures capacity { self.new.capacity ≡ self.old.capacity }
        ensures first { self.new.first ≡ cond (length self.old.entries.items == 0) self.old.first ((self.old.first + 1) % 256) }
    {
        if !self.entries.is_empty() {
            self.entries.remove(0);
            self.first = self.first.wrapping_add(1);
        }
    }

    // Empties the flight.
    pub fn clear(&mut self)
        ensures entries { self.new.entries.items ≡ [] }
        ensures capacity { self.new.capacity ≡ self.old.capacity }
        ensures first { self.new.first ≡ self.old.first }
    {
        self.entries.clear();
    }
}

impl<E: Copy + Default + Naming<u8>> Flight<E> {
    // The youngest entry that names a register, if any.
    #[tactic(auto, using(crate::proofs::Lasts::get_last, crate::proofs::Lasts::get_last_at))]
    pub fn newest(&self, register: u8) -> Option<E>
        ensures { result ≡ last_of (λ x. E.names x register) self.now.entries.items }
    {
        let i = youngest(&self.entries, register)?;
        self.get(i)
    }
}
