//! The least number of tokens that the symbols of productions derive from each dot on.

use lrpar_grammar::grammar::YaccGrammar;
use lrpar_grammar::span::{PIdx, StorageIndex, Symbol};
use lrpar_table_sentences::shortest::Shortest;
use std::alloc::{AllocError, Global};

/// For each production and each dot in it the least number of tokens that the symbols after the dot derive.
pub(crate) struct MinLengths {
    starts: Vec<usize>,
    rests: Vec<usize>,
}

// A drop of its own, so that code that drops one elsewhere proves one call.
impl Drop for MinLengths {
    fn drop(self) {
        let MinLengths { starts, rests } = self;
        drop(starts);
        drop(rests);
    }
}

impl MinLengths {
    /// Those of the grammar.
    pub(crate) fn new<StorageT: StorageIndex>(
        alloc: Global,
        grm: &YaccGrammar<StorageT>,
        shortest: &Shortest<StorageT>,
    ) -> Result<Self, AllocError> {
        let mut starts = Vec::new(alloc);
        let mut rests = Vec::new(alloc);
        for number in 0..grm.prods_len() {
            starts.push(rests.len())?;
            if let Some(prod) = StorageT::from_index(number) {
                push_rests(grm.prod(PIdx(prod)), shortest, &mut rests)?;
            }
        }
        Ok(MinLengths { starts, rests })
    }

    /// The least number of tokens that the production's symbols derive from the dot on, and `usize::MAX` out of range.
    pub(crate) fn rest(&self, prod: usize, dot: usize) -> usize {
        if prod >= self.starts.len() {
            return usize::MAX;
        }
        let place = self.starts[prod].saturating_add(dot);
        if place < self.rests.len() {
            self.rests[place]
        } else {
            usize::MAX
        }
    }
}

// Appends the least number of tokens for each dot, the one after all symbols too.
fn push_rests<StorageT: StorageIndex>(
    symbols: &[Symbol<StorageT>],
    shortest: &Shortest<StorageT>,
    rests: &mut Vec<usize>,
) -> Result<(), AllocError> {
    for dot in 0..symbols.len() {
        rests.push(shortest.len_of_all(&symbols[dot..]).unwrap_or(usize::MAX))?;
    }
    rests.push(0)?;
    Ok(())
}
