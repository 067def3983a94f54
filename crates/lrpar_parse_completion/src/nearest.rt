//! The nearest lexeme at which a parse can go on, after some first tokens of a completion are inserted.
ghost use Rattle.std.specs.Prelude.{◌≡◌, ◌≤◌, ◌↔◌, [], IfOk, IsTrue, OnOk, length};

use lrpar_grammar::span::{StIdx, StorageIndex, TIdx};
use lrpar_parse_lexemes::lex_api::Lexeme;
use lrpar_parse_repair::engine::Engine;
use lrpar_parse_repair::repair::{RecoveryPoint, RepairStep};
use lrpar_table_check::check::Overlay;
use std::alloc::{AllocError, Global};

/// A repair: how many tokens of a completion are inserted, and the place up to which lexemes are deleted.
#[derive(Clone, Copy)]
pub(crate) struct Nearest {
    pub(crate) inserted: usize,
    pub(crate) place: usize,
}

/// An error point, the tokens of a completion of its stack, and how many of them are tried before the end of the input.
#[derive(Drop)]
pub(crate) struct Search<'a, 'p, StorageT: StorageIndex, LexemeT: Lexeme<StorageT>> {
    pub(crate) point: &'a RecoveryPoint<'p, StorageT, LexemeT>,
    pub(crate) tokens: &'a [TIdx<StorageT>],
    pub(crate) most: usize,
}

impl<'a, 'p, StorageT: StorageIndex, LexemeT: Lexeme<StorageT>> Search<'a, 'p, StorageT, LexemeT> {
    ghost use Rattle.lrpar_parse_completion.specs.SearchView.{FindsNearest, FirstAt, FirstAtEnd, GoesOnBy, HasPointStack, HasStack, HasSteps, InsertsToken, IsNearestAnswer, TriesStacks};

    // The repair at the nearest place; of several, the one that inserts fewest tokens.
    fn nearest(&self, alloc: Global) -> Result<Option<Nearest>, AllocError>
        ensures { IfOk result (FindsNearest StorageT.index LexemeT.parts self.now) }
    {
        let stacks = self.stacks(alloc)?;
        for place in self.point.place()..self.point.lexemes().len() {
            if let Some(inserted) = self.first_going_on(alloc, &stacks, place)? {
                return Ok(Some(Nearest { inserted, place }));
            }
        }
        let Some(inserted) = self.at_end(alloc)? else {
            return Ok(None);
        };
        let place = self.point.lexemes().len();
        Ok(Some(Nearest { inserted, place }))
    }

    // The stacks after none, one, two, .. of the tokens, up to the number that is tried, as long as they can be fed.
    fn stacks(&self, alloc: Global) -> Result<Vec<Vec<StIdx<StorageT>>>, AllocError>
        ensures { IfOk result (λ stacks. TriesStacks StorageT.index self.now stacks.items) }
    {
        let mut stacks = Vec::new(alloc);
        self.push_stacks(alloc, &mut stacks)?;
        Ok(stacks)
    }

    // Puts these stacks into the empty list.
    fn push_stacks(
        &self,
        alloc: Global,
        stacks: &mut Vec<Vec<StIdx<StorageT>>>,
    ) -> Result<(), AllocError>
        requires empty { stacks.old.items ≡ [] }
        ensures { OnOk result (TriesStacks StorageT.index self.now stacks.new.items) }
    {
        let tried = &self.tokens[..self.tokens.len().min(self.most)];
        let mut stack = Vec::from_slice(alloc, self.point.stack())?;
        'tokens: for token in tried {
            let before = Vec::from_slice(alloc, &stack)?;
            stacks.push(before)?;
            if !self.feed(&mut stack, *token)? {
                return Ok(());
            }
        }
        stacks.push(stack)?;
        Ok(())
    }

    // How many tokens lead to the first of the stacks from which a parse can go on at the place.
    fn first_going_on(
        &self,
        alloc: Global,
        stacks: &[Vec<StIdx<StorageT>>],
        place: usize,
    ) -> Result<Option<usize>, AllocError>
        requires tried { TriesStacks StorageT.index self.now stacks.now }
        requires within { place ≤ length self.now.point.now.lexemes }
        ensures { IfOk result (FirstAt StorageT.index LexemeT.parts self.now place) }
    {
        for (inserted, stack) in stacks.iter().enumerate() {
            if self.goes_on(alloc, stack, place)? {
                return Ok(Some(inserted));
            }
        }
        Ok(None)
    }

    // The fewest tokens after which a parse can go on at the end of the lexemes: the stack then accepts.
    fn at_end(&self, alloc: Global) -> Result<Option<usize>, AllocError>
        ensures { IfOk result (FirstAtEnd StorageT.index LexemeT.parts self.now) }
    {
        let mut stack = Vec::from_slice(alloc, self.point.stack())?;
        self.feed_to_end(alloc, &mut stack)
    }

    // The fewest tokens after which a parse can go on at the end of the lexemes. Feeds the tokens to this copy of the point's stack.
    fn feed_to_end(
        &self,
        alloc: Global,
        stack: &mut Vec<StIdx<StorageT>>,
    ) -> Result<Option<usize>, AllocError>
        requires stack { HasPointStack StorageT.index self.now stack.old.items }
        ensures { IfOk result (FirstAtEnd StorageT.index LexemeT.parts self.now) }
    {
        let place = self.point.lexemes().len();
        'tokens: for (inserted, token) in self.tokens.iter().enumerate() {
            if self.goes_on(alloc, stack, place)? {
                return Ok(Some(inserted));
            }
            if !self.feed(stack, *token)? {
                return Ok(None);
            }
        }
        if self.goes_on(alloc, stack, place)? {
            Ok(Some(self.tokens.len()))
        } else {
            Ok(None)
        }
    }

    // Feeds the token, if it is one of the grammar other than the end token; returns whether it was fed.
    fn feed(
        &self,
        stack: &mut Vec<StIdx<StorageT>>,
        token: TIdx<StorageT>,
    ) -> Result<bool, AllocError>
        requires { HasStack StorageT.index self.now stack.old.items }
        ensures fed { IfOk result (InsertsToken StorageT.index self.now token stack.old stack.new) }
        ensures stack { HasStack StorageT.index self.now stack.new.items }
    {
        let data = self.point.data();
        if usize::from(token) >= usize::from(data.grm().eof_token_idx()) {
            return Ok(false);
        }
        data.feed(stack, token)
    }

    // Whether a parse can go on from the stack at the place.
    fn goes_on(
        &self,
        alloc: Global,
        stack: &[StIdx<StorageT>],
        place: usize,
    ) -> Result<bool, AllocError>
        requires stack { HasStack StorageT.index self.now stack.now }
        requires within { place ≤ length self.now.point.now.lexemes }
        ensures { IfOk result (λ goes_on. IsTrue goes_on ↔ GoesOnBy StorageT.index LexemeT.parts self.now stack.now place) }
    {
        let engine = Engine::new(self.point.data(), self.point.lexemes(), self.point.shifts());
        let mut states = Overlay::new(alloc, stack);
        engine.can_go_on(&mut states, place)
    }

    /// The answer: the steps of the repair at the nearest place, if there is one.
    pub(crate) fn answer(&self, alloc: Global) -> Result<Vec<Vec<RepairStep<StorageT>>>, AllocError>
        ensures { IfOk result (IsNearestAnswer StorageT.index LexemeT.parts self.now) }
    {
        let mut answer = Vec::new(alloc);
        let Some(repair) = self.nearest(alloc)? else {
            return Ok(answer);
        };
        let steps = self.steps(alloc, repair)?;
        answer.push(steps)?;
        Ok(answer)
    }

    // The steps of the repair: the inserted tokens, and then a deletion of each lexeme before its place.
    fn steps(&self, alloc: Global, repair: Nearest) -> Result<Vec<RepairStep<StorageT>>, AllocError>
        requires tokens { repair.inserted ≤ length self.now.tokens.now }
        requires after { self.now.point.now.place ≤ repair.place }
        ensures { IfOk result (HasSteps StorageT.index self.now repair) }
    {
        let mut steps = Vec::new(alloc);
        let inserted = &self.tokens[..repair.inserted];
        'inserted: for token in inserted {
            steps.push(RepairStep::Insert(*token))?;
        }
        'deleted: for _ in self.point.place()..repair.place {
            steps.push(RepairStep::Delete)?;
        }
        Ok(steps)
    }
}
