//! The items of a state, one by one.
ghost use Rattle.std.specs.Prelude.{◌≡◌, length};
ghost use Rattle.std.specs.Iterator.{YieldsFirstBy, item_count};
ghost use Rattle.lrpar_table_rows.specs.PlainItems.{item_of};
ghost use Rattle.lrpar_table_rows.specs.Runs.{FindsNextItem, set_of_runs};

use crate::ascending::Ascending;
use crate::items::{Core, Item};
use lrpar_grammar::span::{StorageIndex, TIdx};
use std::marker::Model;

/// The LR(1) items of a state, ascending.
#[derive(Debug, Drop)]
pub struct Items<'a, StorageT: StorageIndex> {
    cores: &'a [Core<StorageT>],
    runs: &'a [Ascending<TIdx<StorageT>>],
    place: usize,
    token: usize,
}

impl<'a, StorageT: StorageIndex> Model for Items<'a, StorageT> {
    ghost use Rattle.std.specs.Prelude.{◌≡◌, List, length, map};
    ghost use Rattle.lrpar_table_rows.specs.Graph.{ItemOf};
    ghost use Rattle.lrpar_table_rows.specs.PlainItems.{item_of};
    ghost use Rattle.lrpar_table_rows.specs.Runs.{items_left};

    ghost Value = { List ItemOf };

    ghost view = { λ s. map (item_of StorageT.index) (items_left s.cores.now s.runs.now s.place s.token) };

    ghost invariant = { λ s. length s.runs.now ≡ length s.cores.now };
}

impl<'a, StorageT: StorageIndex> Items<'a, StorageT> {
    // The items of these cores with these runs.
    pub(crate) fn new(cores: &'a [Core<StorageT>], runs: &'a [Ascending<TIdx<StorageT>>]) -> Self
        requires { length runs.now ≡ length cores.now }
        ensures { result ≡ set_of_runs StorageT.index cores.now runs.now }
    {
        Items {
            cores,
            runs,
            place: 0,
            token: 0,
        }
    }
}

impl<'a, StorageT: StorageIndex> Iterator for Items<'a, StorageT> {
    type Item = Item<StorageT>;

    ghost next_gives = { YieldsFirstBy (item_of StorageT.index) (λ s. s) };

    ghost remaining = { item_count (λ s. s) };

    fn next(&mut self) -> Option<Item<StorageT>> {
        match next_position(self.cores, self.runs, self.place, self.token) {
            None => None,
            Some((place, token)) => {
                let (prod, dot) = self.cores[place];
                let run = self.runs[place].as_slice();
                let lookahead = run[token];
                self.place = place;
                self.token = token + 1;
                Some((prod, dot, lookahead))
            }
        }
    }
}

// The place of a run and of one of its lookaheads at which the next item is; from there on the same items are left.
fn next_position<StorageT: StorageIndex>(
    cores: &[Core<StorageT>],
    runs: &[Ascending<TIdx<StorageT>>],
    place: usize,
    token: usize,
) -> Option<(usize, usize)>
    ensures { FindsNextItem cores.now runs.now place token result }
{
    let mut place = place;
    let mut token = token;
    'runs: while place < runs.len() {
        let run = runs[place].as_slice();
        let count = run.len();
        if token < count {
            return Some((place, token));
        }
        place += 1;
        token = 0;
    }
    None
}
