//! The declarations and rules of a `.y` file, as lists of words.
ghost use Rattle.std.specs.Prelude.{◌≡◌, ◌++◌, ◌∷◌, [], IfErr, IfOk, OnOk};
ghost use Rattle.lrpar_grammar_bison.specs.Words.{placed};
ghost use Rattle.lrpar_grammar_bison_rules.specs.declared.rules.RulesFault.TheVariants.{Memory};
ghost use Rattle.lrpar_grammar_bison_rules.specs.Rules.{AreReadWords, AreRulesOfText, IsReadFault, IsRulesFault, end_word};

use crate::aliases::{Alias, first_aliases};
use crate::signs::sign_of;
use crate::word_order::{Expected, ItemKind, Role, Step};
use lrpar_grammar_bison::spellings::with_one_spelling;
use lrpar_grammar_bison::word_list::{WordsFault, read_words};
use lrpar_grammar_bison::words::{Unread, Word, WordKind};
use lrpar_grammar_places::span::Span;
use lrpar_table_precedence::precedence::{AssocKind, Precedence};
use std::alloc::{AllocError, AllocFailed, Global};
use std::mem;

/// A part of an alternative.
#[derive(Clone, Copy, Debug)]
pub struct Item<'a> {
    pub kind: ItemKind,
    pub word: Word<'a>,
}

/// An alternative of a rule.
#[derive(Debug, Drop)]
pub struct Alternative<'a> {
    /// The last rule defined before it.
    pub rule: Word<'a>,
    /// Its parts, in the order of the text.
    pub items: Vec<Item<'a>>,
    /// The word that ends it.
    pub end: Word<'a>,
}

/// A token and its number.
#[derive(Clone, Copy, Debug)]
pub struct TokenNumber<'a> {
    pub token: Word<'a>,
    pub number: Word<'a>,
}

/// A token with a precedence. The levels are counted from 0, the weakest first.
#[derive(Clone, Copy, Debug)]
pub struct RankedWord<'a> {
    pub word: Word<'a>,
    pub precedence: Precedence,
}

/// The declarations and rules of a `.y` file, each list in the order of the text. Each symbol has one name: a literal between single
/// quotes is spelled as the first one of its character is, and `YYerror` is `error`.
pub struct FileRules<'a> {
    /// The start rules.
    pub starts: Vec<Word<'a>>,
    /// The tokens of `%token`.
    pub tokens: Vec<Word<'a>>,
    /// The tokens that have a text. A token has one text, and a text is that of one token: the first.
    pub aliases: Vec<Alias<'a>>,
    /// The tokens that have a number.
    pub numbers: Vec<TokenNumber<'a>>,
    /// How the tokens of each level of precedence associate, the weakest level first.
    pub levels: Vec<AssocKind>,
    /// The tokens of these levels.
    pub ranked: Vec<RankedWord<'a>>,
    /// The numbers of conflicts between a shift and a reduction that are expected.
    pub expected: Vec<Word<'a>>,
    /// The numbers of conflicts between reductions that are expected.
    pub expected_rr: Vec<Word<'a>>,
    /// Whether the parser follows each way out of a conflict.
    pub is_glr: bool,
    /// Whether a production without `%prec` has the precedence of its last token.
    pub has_default_prec: bool,
    /// The rules that are defined.
    pub defined: Vec<Word<'a>>,
    /// The alternatives of the rules.
    pub alternatives: Vec<Alternative<'a>>,
    // the parts of an alternative that hasn't ended
    items: Vec<Item<'a>>,
}

// Hand-written, so that code that drops rules needs the proof of one call only.
impl<'a> Drop for FileRules<'a> {
    fn drop(self) {
        let FileRules {
            starts,
            tokens,
            aliases,
            numbers,
            levels,
            ranked,
            expected,
            expected_rr,
            is_glr: _,
            has_default_prec: _,
            defined,
            alternatives,
            items,
        } = self;
        drop(starts);
        drop(tokens);
        drop(aliases);
        drop(numbers);
        drop(levels);
        drop(ranked);
        drop(expected);
        drop(expected_rr);
        drop(defined);
        drop(alternatives);
        drop(items);
    }
}

/// Why a file has no declarations and rules.
#[derive(Clone, Copy, Debug, PartialEq, Eq)]
pub enum RulesFault {
    /// No word and no blanks begin at this byte, but what the second part says.
    Unread(usize, Unread),
    /// The word here isn't allowed: the second part is.
    Unexpected(Span, Expected),
    /// The file ends too early: the second part is expected.
    End(Expected),
    /// An allocation failed.
    Memory,
}

impl From<AllocError> for RulesFault {
    ghost from_gives = { λ _ fault. fault ≡ Memory };

    fn from(_: AllocError) -> RulesFault {
        RulesFault::Memory
    }
}

impl<T: Drop> From<AllocFailed<T>> for RulesFault {
    ghost from_gives = { λ _ fault. fault ≡ Memory };

    fn from(_: AllocFailed<T>) -> RulesFault {
        RulesFault::Memory
    }
}

impl<'a> FileRules<'a> {
    ghost use Rattle.lrpar_grammar_bison_rules.specs.Rules.{AreOfDefinedRules, AreRulesOfWords, HaveOrderedItems, IsOrderFault, no_rules, rules_in, with_closed, with_first_aliases, with_role, with_step};

    /// The declarations and rules of a file.
    ///
    /// Fails with `Unread` at the first place where no word and no blanks begin; else with `Unexpected` at the first word that isn't
    /// allowed where it is, or with `End` if the file ends too early; or with `Memory`. Takes memory linear in the text, and time linear
    /// in it but for texts of tokens: each is looked up in logarithmic time.
    pub fn read(alloc: Global, text: &'a str) -> Result<Self, RulesFault>
        ensures rules { IfOk result (λ r. AreRulesOfText text.now (rules_in r)) }
        ensures defined { IfOk result (λ r. AreOfDefinedRules (rules_in r)) }
        ensures order { IfOk result (λ r. HaveOrderedItems (rules_in r)) }
        ensures fault { IfErr result (IsRulesFault text.now) }
    {
        let words = words_of(alloc, text)?;
        let words = with_one_spelling(alloc, &words)?;
        let mut rules = FileRules::of_words(alloc, &words, text.len())?;
        rules.keep_first_aliases(alloc)?;
        Ok(rules)
    }

    // Leaves out the texts that are no names of tokens.
    fn keep_first_aliases(&mut self, alloc: Global) -> Result<(), AllocError>
        ensures { OnOk result (rules_in self.new ≡ with_first_aliases (rules_in self.old)) }
    {
        self.aliases = first_aliases(alloc, &self.aliases)?;
        Ok(())
    }

    // The declarations and rules that the words of a text make, which has that length in bytes.
    fn of_words(alloc: Global, words: &[Word<'a>], len: usize) -> Result<Self, RulesFault>
        ensures rules { IfOk result (λ r. AreRulesOfWords len words.now (rules_in r)) }
        ensures fault { IfErr result (IsOrderFault words.now) }
    {
        let mut rules = FileRules::new(alloc);
        let mut expected = Expected::Declaration;
        for (i, word) in words.iter().enumerate() {
            let Some(step) = expected.after(sign_of(word, &words[i + 1..])) else {
                return Err(RulesFault::Unexpected(word.span(), expected));
            };
            rules.add_word(alloc, step, *word)?;
            expected = step.next;
        }
        if !expected.may_end() {
            return Err(RulesFault::End(expected));
        }
        if expected.is_in_alternative() {
            rules.end_alternative(alloc, end_word(len))?;
        }
        Ok(rules)
    }

    // The declarations and rules of a file without words.
    fn new(alloc: Global) -> Self
        ensures { rules_in result ≡ no_rules }
    {
        FileRules {
            starts: Vec::new(alloc),
            tokens: Vec::new(alloc),
            aliases: Vec::new(alloc),
            numbers: Vec::new(alloc),
            levels: Vec::new(alloc),
            ranked: Vec::new(alloc),
            expected: Vec::new(alloc),
            expected_rr: Vec::new(alloc),
            is_glr: false,
            has_default_prec: true,
            defined: Vec::new(alloc),
            alternatives: Vec::new(alloc),
            items: Vec::new(alloc),
        }
    }

    // Adds one more word, by what it does.
    fn add_word(&mut self, alloc: Global, step: Step, word: Word<'a>) -> Result<(), AllocError>
        ensures { OnOk result (rules_in self.new ≡ with_step (rules_in self.old) step (placed word.entry)) }
    {
        if step.closes {
            self.end_alternative(alloc, word)?;
        }
        self.add_by_role(step.role, word)
    }

    // Adds one more word, by its role.
    #[tactic(auto, unfolding(crate::specs::Rules::with_role))]
    fn add_by_role(&mut self, role: Role, word: Word<'a>) -> Result<(), AllocError>
        ensures { OnOk result (rules_in self.new ≡ with_role (rules_in self.old) role (placed word.entry)) }
    {
        match role {
            Role::Nothing => Ok(()),
            Role::Start => push(&mut self.starts, word),
            Role::Token => push(&mut self.tokens, word),
            Role::Alias => self.add_alias(word),
            Role::Number => self.add_number(word),
            Role::LevelNumber => self.add_level_number(word),
            Role::Level(kind) => push(&mut self.levels, kind),
            Role::LevelName => self.add_ranked(word),
            Role::Expected => push(&mut self.expected, word),
            Role::ExpectedRr => push(&mut self.expected_rr, word),
            Role::Glr => {
                self.is_glr = true;
                Ok(())
            }
            Role::DefaultPrec(has) => {
                self.has_default_prec = has;
                Ok(())
            }
            Role::Defined => push(&mut self.defined, word),
            Role::Item(kind) => push(&mut self.items, Item { kind, word }),
        }
    }

    // Adds the text of the last token.
    #[tactic(auto, unfolding(crate::specs::Rules::with_role))]
    fn add_alias(&mut self, text: Word<'a>) -> Result<(), AllocError>
        ensures { OnOk result (rules_in self.new ≡ with_role (rules_in self.old) Role.Alias (placed text.entry)) }
    {
        if let Some(token) = self.tokens.last() {
            let token = *token;
            self.aliases.push(Alias { token, text })?;
        }
        Ok(())
    }

    // Adds the number of the last token.
    #[tactic(auto, unfolding(crate::specs::Rules::with_role))]
    fn add_number(&mut self, number: Word<'a>) -> Result<(), AllocError>
        ensures { OnOk result (rules_in self.new ≡ with_role (rules_in self.old) Role.Number (placed number.entry)) }
    {
        if let Some(last) = self.tokens.last() {
            let token = *last;
            self.numbers.push(TokenNumber { token, number })?;
        }
        Ok(())
    }

    // Adds the number of the last token of a level.
    #[tactic(auto, unfolding(crate::specs::Rules::with_role))]
    fn add_level_number(&mut self, number: Word<'a>) -> Result<(), AllocError>
        ensures { OnOk result (rules_in self.new ≡ with_role (rules_in self.old) Role.LevelNumber (placed number.entry)) }
    {
        if let Some(last) = self.ranked.last() {
            let token = last.word;
            self.numbers.push(TokenNumber { token, number })?;
        }
        Ok(())
    }

    // Adds a token of the last level.
    #[tactic(auto, unfolding(crate::specs::Rules::with_role))]
    fn add_ranked(&mut self, word: Word<'a>) -> Result<(), AllocError>
        ensures { OnOk result (rules_in self.new ≡ with_role (rules_in self.old) Role.LevelName (placed word.entry)) }
    {
        if let Some(kind) = self.levels.last() {
            let kind = *kind;
            let level = self.levels.len() - 1;
            let precedence = Precedence { level, kind };
            self.ranked.push(RankedWord { word, precedence })?;
        }
        Ok(())
    }

    // Ends the alternative that has the parts so far.
    fn end_alternative(&mut self, alloc: Global, end: Word<'a>) -> Result<(), AllocError>
        ensures { OnOk result (rules_in self.new ≡ with_closed (rules_in self.old) (placed end.entry)) }
    {
        let items = mem::replace(&mut self.items, Vec::new(alloc));
        if let Some(rule) = self.defined.last() {
            let rule = *rule;
            self.alternatives.push(Alternative { rule, items, end })?;
        }
        Ok(())
    }
}

// The words of a text.
fn words_of<'a>(alloc: Global, text: &'a str) -> Result<Vec<Word<'a>>, RulesFault>
    ensures words { IfOk result (λ words. AreReadWords text.now words) }
    ensures fault { IfErr result (IsReadFault text.now) }
{
    match read_words(alloc, text) {
        Ok(words) => Ok(words),
        Err(WordsFault::Unread(place, what)) => Err(RulesFault::Unread(place, what)),
        Err(WordsFault::Memory) => Err(RulesFault::Memory),
    }
}

// What comes after all words, at the end of a text of that length in bytes.
fn end_word<'a>(len: usize) -> Word<'a>
    ensures { placed result ≡ end_word len }
{
    Word {
        kind: WordKind::Semicolon,
        name: "",
        len: 0,
        end: len,
    }
}

// Appends a thing.
fn push<T: Copy + Drop>(things: &mut Vec<T>, thing: T) -> Result<(), AllocError>
    ensures { OnOk result (things.new.items ≡ things.old.items ++ thing ∷ []) }
{
    Ok(things.push(thing)?)
}
