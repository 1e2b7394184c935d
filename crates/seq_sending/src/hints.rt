//! Guesses where in a list the item of a node and of a form of a message stands.

use memory::OutOfMemory;
use route_filter::FORMS;
use std::alloc::Global;

/// For each place and form, where in a list its item may stand.
///
/// What they say is tested before it is used, so nothing rests on them but speed, and the list may be cleared without
/// them.
#[derive(Drop)]
pub(crate) struct Hints {
    alloc: Global,
    // By place: the item that came first. Mostly a message comes to a node in one form.
    firsts: Vec<u32>,
    // By place, and by form once the place has a second.
    rows: Vec<Vec<u32>>,
}

impl Hints {
    /// No hints. It takes no memory.
    pub(crate) fn new(alloc: Global) -> Hints {
        Hints {
            alloc,
            firsts: Vec::new(alloc),
            rows: Vec::new(alloc),
        }
    }

    /// Where the first item of a place may stand.
    pub(crate) fn first(&self, place: usize) -> usize {
        self.firsts.get(place).copied().unwrap_or(0) as usize
    }

    /// Where the item of a place and a form may stand, if it is not the first of the place.
    pub(crate) fn later(&self, place: usize, form: usize) -> usize {
        match self.rows.get(place) {
            Some(row) => row.get(form).copied().unwrap_or(0) as usize,
            None => 0,
        }
    }

    /// Notes where the first item of a place stands.
    pub(crate) fn note_first(&mut self, place: usize, at: usize) -> Result<(), OutOfMemory> {
        while self.firsts.len() <= place {
            self.firsts.push(0)?;
        }
        if let Some(first) = self.firsts.get_mut(place) {
            *first = hint(at);
        }
        Ok(())
    }

    /// Notes where the item of a place and a form stands, which is not the first of the place.
    pub(crate) fn note_later(
        &mut self,
        place: usize,
        form: usize,
        at: usize,
    ) -> Result<(), OutOfMemory> {
        while self.rows.len() <= place {
            self.rows.push(Vec::new(self.alloc))?;
        }
        if let Some(row) = self.rows.get_mut(place) {
            note_form(row, form, at)?;
        }
        Ok(())
    }
}

/// A place in a list as it is noted.
fn hint(at: usize) -> u32 {
    at.min(u32::MAX as usize) as u32
}

/// Notes where the item of a form stands.
fn note_form(row: &mut Vec<u32>, form: usize, at: usize) -> Result<(), OutOfMemory> {
    if row.is_empty() {
        row.resize(FORMS, 0)?;
    }
    if let Some(place) = row.get_mut(form) {
        *place = hint(at);
    }
    Ok(())
}
