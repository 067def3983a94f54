//! The productions of a grammar, as a caller lists them by their texts in several parts.
ghost use Rattle.std.specs.Prelude.{◌≡◌, None, IfErr, IfOk, OnOk, slice_index_or};
ghost use Rattle.lrpar_grammar.specs.SpelledFaults.{AreUnlistedInParts, IsSpelledFault};
ghost use Rattle.lrpar_grammar.specs.SpelledParts.{AppendsIndexes, AreIndexesInParts, IsListingInParts, joined, parts_in};

use super::spelled::Spelled;
use super::spelled_fault::SpelledFault;
use super::value::YaccGrammar;
use lrpar_grammar_places::span::{PIdx, StorageIndex};
use std::alloc::{AllocError, AllocFailed, Global};
use std::marker::Model;

/// The productions of a grammar by their places in a caller's list of texts that comes in parts, as
/// `YaccGrammar::prods_spelled_in_parts` gives them.
#[derive(Debug)]
pub struct SpelledParts<StorageT: StorageIndex> {
    spelled: Spelled<StorageT>,
    // for each text of the list the number of its part, and its place in this part
    places: Vec<(usize, usize)>,
}

// An `impl Drop` of its own, so that a function that drops a value proves one call only.
impl<StorageT: StorageIndex> Drop for SpelledParts<StorageT> {
    fn drop(self) {
        let SpelledParts { spelled, places } = self;
        drop(spelled);
        drop(places);
    }
}

impl<StorageT: StorageIndex> Model for SpelledParts<StorageT> {
    ghost use Rattle.std.specs.Prelude.{ℕ, List, Option, map};
    ghost use Rattle.lrpar_grammar.specs.SpelledParts.{index_in_parts};

    ghost Value = { List (Option (ℕ × ℕ)) };

    ghost view = { λ s. map (index_in_parts s.places.items) s.spelled };
}

impl<StorageT: StorageIndex> SpelledParts<StorageT> {
    /// The part that has the text of the production, and the place of the text in this part, both counted from 0. `None` for the start
    /// production, and for a number that is no production of the grammar. Takes constant time.
    pub fn of(&self, pidx: PIdx<StorageT>) -> Option<(usize, usize)>
        ensures { result ≡ slice_index_or self.now (StorageT.index pidx.0) None }
    {
        self.of_number(usize::from(pidx))
    }

    /// The part, and the position in it, of the text of the production with this number. Takes constant time.
    pub fn of_number(&self, production: usize) -> Option<(usize, usize)>
        ensures { result ≡ slice_index_or self.now production None }
    {
        match self.spelled.of_number(production) {
            Some(place) => self.places.get(place).copied(),
            None => None,
        }
    }
}

impl<StorageT: StorageIndex> YaccGrammar<StorageT> {
    /// The productions by their places in a list of texts that comes in parts, so that each part can have a function of its own, whose
    /// `match` begins at 0.
    ///
    /// The parts, one after another, list the productions as `prods_spelled` wants them: so each production is in one part, once. A
    /// part may be empty. Productions that are spelled alike get their places in order, first those of the first part.
    ///
    /// Fails as `prods_spelled` does for the list of all parts. The place in `Unknown` or `Repeated` is that in this whole list. Takes
    /// the time and the memory of `prods_spelled`, and memory linear in the list.
    pub fn prods_spelled_in_parts(
        &self,
        alloc: Global,
        parts: &[&[&str]],
    ) -> Result<SpelledParts<StorageT>, SpelledFault>
        ensures listed { IfOk result (IsListingInParts self.now (parts_in parts.now)) }

        // An error is the first fault of the whole list or, wherever an allocation failed, `Memory`. A list with a fault is none.
        ensures faulty { IfErr result (IsSpelledFault self.now (joined (parts_in parts.now))) }
        ensures unlisted { IfErr result (AreUnlistedInParts self.now (parts_in parts.now)) }
    {
        let places = positions_of(alloc, parts)?;
        let texts = parts.concat(alloc)?;
        let spelled = self.prods_spelled(alloc, &texts)?;
        Ok(SpelledParts { spelled, places })
    }
}

// For each text of the parts the number of its part, and its place in this part.
fn positions_of(alloc: Global, parts: &[&[&str]]) -> Result<Vec<(usize, usize)>, AllocError>
    ensures { IfOk result (λ places. AreIndexesInParts (parts_in parts.now) places.items) }
{
    let mut places = Vec::new(alloc);
    for (part, texts) in parts.iter().enumerate() {
        push_positions(&mut places, part, texts.len())?;
    }
    Ok(places)
}

// Adds the places of a part of this length.
fn push_positions(
    places: &mut Vec<(usize, usize)>,
    part: usize,
    len: usize,
) -> Result<(), AllocFailed<(usize, usize)>>
    ensures { OnOk result (AppendsIndexes places.old places.new part len) }
{
    for place in 0..len {
        places.push((part, place))?;
    }
    Ok(())
}
