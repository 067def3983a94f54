//! Productions and the texts of a list, each text at its production.
ghost use Rattle.std.specs.Prelude.{◌≡◌, [], ◌∷◌, ◌++◌, IfErr, IfNone, IfOk, IfSome, OnOk, length};
ghost use Rattle.lrpar_grammar.specs.SameProds.{AreFirstFrom, AreNextFrom, AreOwnNumbers};
ghost use Rattle.lrpar_grammar.specs.Stored.{rows_in};
ghost use Rattle.lrpar_grammar.specs.declared.grammar.matching.Misfit.TheVariants.{Memory};

use std::alloc::{AllocError, AllocFailed, Global};
use std::collections::BTreeMap;

// Productions, each as numbers of symbols, and the texts of a list so far, in the same form. Productions with the same numbers get
// the texts with these numbers in order.
pub(super) struct Matching<'a> {
    prods: &'a [Vec<usize>],
    // the first production with these numbers
    first: BTreeMap<&'a [usize], usize>,
    // for each production the next one with the same numbers
    next: Vec<Option<usize>>,
    // for the first production with its numbers, the first one with these that has no text
    free: Vec<Option<usize>>,
    // for each production the place of its text
    places: Vec<Option<usize>>,
    texts: Vec<Vec<usize>>,
}

// Hand-written, so that code that drops a matching needs the proof of one call only.
impl<'a> Drop for Matching<'a> {
    fn drop(self) {
        let Matching {
            prods: _,
            first,
            next,
            free,
            places,
            texts,
        } = self;
        drop(first);
        drop(next);
        drop(free);
        drop(places);
        drop(texts);
    }
}

// Why a text has no production.
#[derive(Drop)]
pub(super) enum Misfit {
    // No production has its numbers.
    Unknown,
    // Each production with its numbers has a text.
    Repeated,
    // An allocation failed.
    Memory,
}

impl<T: Drop> From<AllocFailed<T>> for Misfit {
    ghost from_gives = { λ _ misfit. misfit ≡ Memory };

    fn from(_: AllocFailed<T>) -> Misfit {
        Misfit::Memory
    }
}

impl<'a> Matching<'a> {
    ghost use Rattle.lrpar_grammar.specs.Matching.{HasAllTexts, IsFirstWithout, IsMatched, IsMisfit, prods_of, texts_of};

    // The productions, and no texts. Takes logarithmic time for each production.
    pub(super) fn new(alloc: Global, prods: &'a [Vec<usize>]) -> Result<Self, AllocError>
        ensures matched { IfOk result IsMatched }
        ensures prods { IfOk result (λ matching. prods_of matching ≡ rows_in prods.now) }
        ensures texts { IfOk result (λ matching. texts_of matching ≡ []) }
    {
        let (first, next) = link_equals(alloc, prods)?;
        let free = own_numbers(alloc, prods.len())?;
        let places = vec![in alloc; None; prods.len()]?;
        Ok(Matching {
            prods,
            first,
            next,
            free,
            places,
            texts: Vec::new(alloc),
        })
    }

    // Takes one more text, with these numbers. It goes to the first production with these numbers that has no text. Takes
    // logarithmic time. After an error the matching is of no use.
    pub(super) fn match_text(&mut self, numbers: Vec<usize>) -> Result<(), Misfit>
        requires { IsMatched self.old }
        ensures matched { OnOk result (IsMatched self.new) }
        ensures prods { OnOk result (prods_of self.new ≡ prods_of self.old) }
        ensures texts { OnOk result (texts_of self.new ≡ texts_of self.old ++ numbers.items ∷ []) }
        ensures misfit { IfErr result (IsMisfit (prods_of self.old) (texts_of self.old) numbers.items) }
    {
        let Some(first) = self.first.get(numbers.as_slice()).copied() else {
            return Err(Misfit::Unknown);
        };
        let Some(prod) = self.free[first] else {
            return Err(Misfit::Repeated);
        };
        let place = self.texts.len();
        self.texts.push(numbers)?;
        self.free[first] = self.next[prod];
        self.places[prod] = Some(place);
        Ok(())
    }

    // The first production without a text.
    pub(super) fn first_without_text(&self) -> Option<usize>
        ensures all { IfNone result (HasAllTexts self.now) }
        ensures first { IfSome result (IsFirstWithout (self.now).places.items) }
    {
        for (prod, place) in self.places.iter().enumerate() {
            if place.is_none() {
                return Some(prod);
            }
        }
        None
    }

    // For each production the place of its text.
    pub(super) fn into_positions(self) -> Vec<Option<usize>>
        ensures { result ≡ self.entry.places }
    {
        let Matching {
            prods: _,
            first,
            next,
            free,
            places,
            texts,
        } = self;
        drop(first);
        drop(next);
        drop(free);
        drop(texts);
        places
    }
}

// For all numbers of productions the first production that has them; and for each production the next one with its numbers.
fn link_equals<'a>(
    alloc: Global,
    prods: &'a [Vec<usize>],
) -> Result<(BTreeMap<&'a [usize], usize>, Vec<Option<usize>>), AllocError>
    ensures first { IfOk result (λ pair. AreFirstFrom (rows_in prods.now) 0 pair.0) }
    ensures len { IfOk result (λ pair. length pair.1.items ≡ length prods.now) }
    ensures next { IfOk result (λ pair. AreNextFrom (rows_in prods.now) 0 pair.1.items) }
{
    let mut first = BTreeMap::new(alloc);
    let mut next = vec![in alloc; None; prods.len()]?;
    for prod in (0..prods.len()).rev() {
        next[prod] = first.insert(prods[prod].as_slice(), prod)?;
    }
    Ok((first, next))
}

// The numbers below `len`, each at its place.
fn own_numbers(alloc: Global, len: usize) -> Result<Vec<Option<usize>>, AllocError>
    ensures len { IfOk result (λ free. length free.items ≡ len) }
    ensures own { IfOk result (AreOwnNumbers len) }
{
    let mut numbers = Vec::with_capacity(alloc, len)?;
    for number in 0..len {
        numbers.push(Some(number))?;
    }
    Ok(numbers)
}
