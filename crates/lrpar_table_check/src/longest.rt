//! How many reductions the chains of a state make. A production of one symbol leads a chain from one goto of the state to
//! another one, at the same token. So the reductions from each goto are counted once, and the counts are used again.
ghost use Rattle.std.specs.Prelude.{◌≡◌, ◌<◌, ◌≤◌, ◌+◌, [], All, IfOk, IfSome, OnOk, MatchOption, length, slice_index, slice_index_or, Vec, ℕ};
ghost use Rattle.std.specs.declared.alloc.Global.{Global};
ghost use Rattle.lrpar_grammar.specs.Grammar.{prods_len};
ghost use Rattle.lrpar_table_check.specs.Counts.{AreOthersSame, HasRoom};

use crate::chains::Chains;
use lrpar_grammar::span::{PIdx, RIdx, StIdx, StorageIndex, TIdx};
use lrpar_table_rows::table::{Action, StateTable};
use std::alloc::{AllocError, Global};

/// The lists for the chains of one state after the other.
#[derive(Drop)]
pub(crate) struct Counts<StorageT: StorageIndex> {
    /// A row for each rule. It is empty, or it has for each token how many reductions the chain makes that begins with the state
    /// and its goto by the rule.
    pub(crate) rows: Vec<Vec<u16>>,
    /// The row that is counted: a number for each token.
    pub(crate) row: Vec<u16>,
    /// The gotos whose rows are counted next, the last one first.
    pub(crate) ahead: Vec<(RIdx<StorageT>, StIdx<StorageT>)>,
    /// The states of a chain that is made step by step.
    pub(crate) states: Vec<StIdx<StorageT>>,
}

impl<StorageT: StorageIndex> Counts<StorageT> {
    /// Lists for the states of this table.
    pub(crate) fn new(alloc: Global, stable: &StateTable<StorageT>) -> Result<Self, AllocError>
        ensures { IfOk result (λ counts. HasRoom stable.now counts.rows.items counts.row.items) }
    {
        let mut rows = Vec::new(alloc);
        for _rule in 0..stable.rules_len() {
            rows.push(Vec::new(alloc))?;
        }
        let row = vec![in alloc; 0u16; stable.tokens_len()]?;
        Ok(Counts {
            rows,
            row,
            ahead: Vec::new(alloc),
            states: Vec::new(alloc),
        })
    }
}

// Puts 0 for each token.
fn clear_row(row: &mut [u16])
    ensures { (t : ℕ) → slice_index row.new t ≡ 0 }
{
    for made in row.iter_mut() {
        *made = 0;
    }
}

// Empties each row.
fn clear_rows(rows: &mut [Vec<u16>])
    ensures { All (λ row. row.items ≡ []) rows.new }
{
    for row in rows.iter_mut() {
        row.clear();
    }
}

// Puts a counted row in its place.
fn keep_row(rows: &mut [Vec<u16>], place: usize, row: &[u16]) -> Result<(), AllocError>
    requires { place < length rows.old }
    ensures kept { OnOk result ((d : Vec ℕ Global) → (slice_index_or rows.new place d).items ≡ row.now) }
    ensures others { AreOthersSame rows.old place rows.new }
{
    let kept = &mut rows[place];
    kept.clear();
    kept.extend_from_slice(row)
}

impl<'a, StorageT: StorageIndex> Chains<'a, StorageT> {
    ghost use Rattle.lrpar_table_check.specs.Chains.{AreCountsFound, AreCountsIn, AreCountsOf, AreRowsOf, BeginsBy, HasGoto, HaveRoom, IsAbove, IsLeastOfState, IsLongestFrom, IsLongestOfChain, IsLongestThrough, IsRowOf, IsSound, IsState, Makes};

    /// The least cap from this one on that no chain of the state exceeds; `None` if a chain of the state makes more reductions
    /// than the cap of the check.
    ///
    /// The rows of its gotos are counted first, each after those to which productions of one symbol lead from it.
    pub(crate) fn find_longest_at(
        &self,
        counts: &mut Counts<StorageT>,
        s: StIdx<StorageT>,
        from: u16,
    ) -> Result<Option<u16>, AllocError>
        requires sound { IsSound self.now }
        requires state { IsState StorageT.index self.now s }
        requires from { from ≤ self.now.cap }
        requires room { HaveRoom self.now counts.old }
        ensures longest { IfOk result (IsLeastOfState StorageT.index self.now s from) }
        ensures room { IfOk result (λ found. IfSome found (λ _. HaveRoom self.now counts.new)) }
    {
        clear_rows(&mut counts.rows);
        let mut longest = from;
        let (rules, nexts) = self.stable.gotos_of(s);
        for (place, rule) in rules.iter().enumerate() {
            match self.find_longest_with(counts, s, (*rule, nexts[place]), longest)? {
                Some(more) => longest = more,
                None => return Ok(None),
            }
        }
        self.find_longest_from(
            &counts.rows,
            &mut counts.row,
            &mut counts.states,
            s,
            None,
            longest,
        )
    }

    // The greatest of `from` and the reductions of some chains of the state, among them the one that begins with the state and
    // this goto of it; `None` if one of them makes more reductions than the cap.
    fn find_longest_with(
        &self,
        counts: &mut Counts<StorageT>,
        s: StIdx<StorageT>,
        goto: (RIdx<StorageT>, StIdx<StorageT>),
        from: u16,
    ) -> Result<Option<u16>, AllocError>
        requires sound { IsSound self.now }
        requires state { IsState StorageT.index self.now s }
        requires goto { HasGoto StorageT.index self.now s goto }
        requires from { from ≤ self.now.cap }
        requires counts { AreCountsOf StorageT.index self.now s from counts.old }
        ensures longest { IfOk result (IsLongestThrough StorageT.index self.now s goto.1 from) }
        ensures counts { IfOk result (AreCountsFound StorageT.index self.now s counts.new) }
    {
        self.find_ahead(&counts.rows, &mut counts.ahead, s, goto)?;
        let mut longest = from;
        while let Some((rule, next)) = counts.ahead.pop() {
            match self.count(counts, s, rule, next, longest)? {
                Some(most) => longest = most,
                None => return Ok(None),
            }
        }
        self.count(counts, s, goto.0, goto.1, longest)
    }

    // The goto of the state by the rule, and after it those to which productions of one symbol lead from there, up to one whose
    // row is counted. They are a guess at what is needed: what isn't counted then is counted step by step.
    fn find_ahead(
        &self,
        rows: &[Vec<u16>],
        ahead: &mut Vec<(RIdx<StorageT>, StIdx<StorageT>)>,
        s: StIdx<StorageT>,
        first: (RIdx<StorageT>, StIdx<StorageT>),
    ) -> Result<(), AllocError>
        requires sound { IsSound self.now }
        requires state { IsState StorageT.index self.now s }
        requires first { HasGoto StorageT.index self.now s first }
        requires rows { length rows.now ≡ self.now.stable.now.rules }
        ensures { OnOk result (All (HasGoto StorageT.index self.now s) ahead.new.items) }
    {
        ahead.clear();
        let mut goto = first;
        for _row in rows {
            if !rows[usize::from(goto.0)].is_empty() {
                return Ok(());
            }
            ahead.push(goto)?;
            match self.leads_to(s, goto.1) {
                Some(next) => goto = next,
                None => return Ok(()),
            }
        }
        Ok(())
    }

    // The goto of the state to which the first reduction of this one leads, if that is by a production of one symbol.
    fn leads_to(
        &self,
        s: StIdx<StorageT>,
        above: StIdx<StorageT>,
    ) -> Option<(RIdx<StorageT>, StIdx<StorageT>)>
        requires sound { IsSound self.now }
        requires state { IsState StorageT.index self.now s }
        requires above { IsState StorageT.index self.now above }
        ensures { IfSome result (HasGoto StorageT.index self.now s) }
    {
        let (tokens, actions) = self.stable.actions_of(above);
        for (place, _token) in tokens.iter().enumerate() {
            let action = actions[place];
            if let Action::Reduce(prod) = action {
                return self.unit_goto(s, prod);
            }
        }
        None
    }

    // The goto of the state by the rule of a production, if the production has one symbol.
    fn unit_goto(
        &self,
        s: StIdx<StorageT>,
        prod: PIdx<StorageT>,
    ) -> Option<(RIdx<StorageT>, StIdx<StorageT>)>
        requires sound { IsSound self.now }
        requires state { IsState StorageT.index self.now s }
        requires prod { StorageT.index prod.0 < prods_len self.now.grm.now }
        ensures { IfSome result (HasGoto StorageT.index self.now s) }
    {
        if self.grm.prod(prod).len() != 1 {
            return None;
        }
        let rule = self.grm.prod_to_rule(prod);
        match self.stable.goto(s, rule) {
            Some(next) => Some((rule, next)),
            None => None,
        }
    }

    // The greatest of `from` and the reductions of the chain that begins with the state and this goto of it, whatever its token;
    // `None` if it makes more reductions than the cap. Afterwards the row of the rule is counted.
    fn count(
        &self,
        counts: &mut Counts<StorageT>,
        s: StIdx<StorageT>,
        rule: RIdx<StorageT>,
        next: StIdx<StorageT>,
        from: u16,
    ) -> Result<Option<u16>, AllocError>
        requires sound { IsSound self.now }
        requires state { IsState StorageT.index self.now s }
        requires goto { HasGoto StorageT.index self.now s (rule, next) }
        requires from { from ≤ self.now.cap }
        requires counts { AreCountsOf StorageT.index self.now s from counts.old }
        ensures longest { IfOk result (IsLongestFrom StorageT.index self.now s next from) }
        ensures counts { IfOk result (AreCountsFound StorageT.index self.now s counts.new) }
        ensures ahead { counts.new.ahead ≡ counts.old.ahead }
    {
        let place = usize::from(rule);
        let counted = counts.rows[place].len();
        if counted > 0 {
            return Ok(Some(from));
        }
        let found = self.find_longest_from(
            &counts.rows,
            &mut counts.row,
            &mut counts.states,
            s,
            Some(next),
            from,
        )?;
        match found {
            Some(longest) => {
                keep_row(&mut counts.rows, place, &counts.row)?;
                Ok(Some(longest))
            }
            None => Ok(None),
        }
    }

    // The greatest of `from` and the reductions of the chain that begins with the state, and with `above` on it, whatever its
    // token; `None` if it makes more reductions than the cap. The row gets the number for each token.
    fn find_longest_from(
        &self,
        rows: &[Vec<u16>],
        row: &mut [u16],
        states: &mut Vec<StIdx<StorageT>>,
        s: StIdx<StorageT>,
        above: Option<StIdx<StorageT>>,
        from: u16,
    ) -> Result<Option<u16>, AllocError>
        requires sound { IsSound self.now }
        requires state { IsState StorageT.index self.now s }
        requires above { IsAbove StorageT.index self.now above }
        requires from { from ≤ self.now.cap }
        requires counts { AreCountsIn StorageT.index self.now s from rows.now row.old }
        ensures longest { IfOk result (IsLongestOfChain StorageT.index self.now s above from) }
        ensures row { IfOk result (IsRowOf StorageT.index self.now s above row.new) }
    {
        clear_row(row);
        let top = above.unwrap_or(s);
        let (tokens, actions) = self.stable.actions_of(top);
        let mut longest = from;
        for (place, token) in tokens.iter().enumerate() {
            let action = actions[place];
            if let Action::Reduce(prod) = action {
                match self.count_made_at(rows, states, s, above, *token, prod)? {
                    Some(made) => {
                        row[usize::from(*token)] = made;
                        longest = longest.max(made);
                    }
                    None => return Ok(None),
                }
            }
        }
        Ok(Some(longest))
    }

    // How many reductions the chain makes at the token that begins with the state, and with `above` on it, if the first one is by
    // this production; `None` if they are more than the cap.
    fn count_made_at(
        &self,
        rows: &[Vec<u16>],
        states: &mut Vec<StIdx<StorageT>>,
        s: StIdx<StorageT>,
        above: Option<StIdx<StorageT>>,
        t: TIdx<StorageT>,
        prod: PIdx<StorageT>,
    ) -> Result<Option<u16>, AllocError>
        requires sound { IsSound self.now }
        requires state { IsState StorageT.index self.now s }
        requires above { IsAbove StorageT.index self.now above }
        requires token { StorageT.index t.0 < self.now.stable.now.tokens }
        requires rows { length rows.now ≡ self.now.stable.now.rules }
        requires counted { AreRowsOf StorageT.index self.now s rows.now }
        requires action { BeginsBy StorageT.index self.now s above t prod }
        ensures { IfOk result (Makes StorageT.index self.now s above t) }
    {
        let symbols = self.grm.prod(prod).len();
        let height = match above {
            Some(_) => 2,
            None => 1,
        };
        if height <= symbols {
            return Ok(self.one_more(0));
        }
        if symbols + 1 == height {
            let row = &rows[usize::from(self.grm.prod_to_rule(prod))];
            let token = usize::from(t);
            if token < row.len() {
                return Ok(self.one_more(row[token]));
            }
        }
        self.count_reductions_from(states, s, above, t)
    }

    // One reduction more than these, if they are within the cap.
    fn one_more(&self, made: u16) -> Option<u16>
        ensures { MatchOption result (self.now.cap ≤ made) (λ more. (more ≡ made + 1) × (more ≤ self.now.cap)) }
    {
        if made < self.cap {
            Some(made + 1)
        } else {
            None
        }
    }
}
