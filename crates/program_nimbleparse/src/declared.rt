//! What a grammar file declares beside its grammar.
use lrpar_grammar::grammar::YaccGrammar;
use lrpar_grammar::span::TIdx;
use lrpar_grammar_bison::words::Word;
use lrpar_grammar_bison_parts::unquoted::unquoted;
use lrpar_grammar_bison_rules::rules::{FileRules, Item};
use lrpar_grammar_bison_rules::word_order::ItemKind;
use lrpar_grammar_yacc::declarations::{Declarations, Number};
use lrpar_table_levels::precedences_of_declarations;
use lrpar_table_precedence::precedences::Precedences;
use std::alloc::{AllocError, Global};

/// What a file declares beside its grammar.
pub(crate) struct Declared<'a> {
    /// The precedences of tokens and productions.
    pub(crate) precedences: Precedences,
    /// Whether the file declares precedences.
    pub(crate) has_precedences: bool,
    /// The tokens that repairs are to avoid.
    pub(crate) avoided: Vec<TIdx<u32>>,
    /// The names of rules and tokens that may be unused.
    pub(crate) unused: Vec<&'a str>,
    /// The names of tokens that productions have their precedence from.
    pub(crate) prec_names: Vec<&'a str>,
    /// How many conflicts between a shift and a reduction are expected.
    pub(crate) expected: Option<Number>,
    /// How many conflicts between reductions are expected.
    pub(crate) expected_rr: Option<Number>,
    /// Whether the file is one of bison.
    pub(crate) is_bison: bool,
    /// Whether the parser is to follow each way out of a conflict.
    pub(crate) is_glr: bool,
    /// The token that no lexer gives: `error` in a file of bison.
    pub(crate) hidden: Option<TIdx<u32>>,
}

// Hand-written, so that code that drops one needs the proof of one call only.
impl<'a> Drop for Declared<'a> {
    fn drop(self) {
        let Declared {
            precedences,
            has_precedences: _,
            avoided,
            unused,
            prec_names,
            expected: _,
            expected_rr: _,
            is_bison: _,
            is_glr: _,
            hidden: _,
        } = self;
        drop(precedences);
        drop(avoided);
        drop(unused);
        drop(prec_names);
    }
}

impl<'a> Declared<'a> {
    /// Nothing.
    pub(crate) fn nothing(alloc: Global) -> Declared<'a> {
        Declared::with_precedences(alloc, Precedences::none(alloc), false)
    }

    // Nothing but precedences.
    fn with_precedences(
        alloc: Global,
        precedences: Precedences,
        has_precedences: bool,
    ) -> Declared<'a> {
        Declared {
            precedences,
            has_precedences,
            avoided: Vec::new(alloc),
            unused: Vec::new(alloc),
            prec_names: Vec::new(alloc),
            expected: None,
            expected_rr: None,
            is_bison: false,
            is_glr: false,
            hidden: None,
        }
    }

    /// What a `.y` file of lrpar declares.
    pub(crate) fn of_declarations(
        alloc: Global,
        grm: &YaccGrammar<u32>,
        declarations: &Declarations<'a>,
    ) -> Result<Declared<'a>, AllocError> {
        let precedences = precedences_of_declarations(alloc, grm, declarations)?;
        let has_precedences = !declarations.levels.is_empty();
        let mut declared = Declared::with_precedences(alloc, precedences, has_precedences);
        declared.add_names(grm, declarations)?;
        declared.expected = declarations.expected.last().copied();
        declared.expected_rr = declarations.expected_rr.last().copied();
        Ok(declared)
    }

    // Adds the tokens and names of a `.y` file of lrpar.
    fn add_names(
        &mut self,
        grm: &YaccGrammar<u32>,
        declarations: &Declarations<'a>,
    ) -> Result<(), AllocError> {
        for word in &declarations.avoided {
            if let Some(token) = grm.token_idx(word.name) {
                self.avoided.push(token)?;
            }
        }
        for word in &declarations.unused {
            self.unused.push(word.name)?;
        }
        for prec in &declarations.precs {
            self.prec_names.push(prec.name.name)?;
        }
        Ok(())
    }

    /// What a `.y` file of bison declares, with its precedences. Fails with the last number of conflicts of a kind, if it is none.
    pub(crate) fn of_rules(
        alloc: Global,
        grm: &YaccGrammar<u32>,
        rules: &FileRules<'a>,
        precedences: Precedences,
    ) -> Result<Result<Declared<'a>, Word<'a>>, AllocError> {
        let mut declared = Declared::with_precedences(alloc, precedences, !rules.levels.is_empty());
        for alternative in &rules.alternatives {
            push_prec_names(&mut declared.prec_names, &alternative.items)?;
        }
        declared.is_bison = true;
        declared.is_glr = rules.is_glr;
        declared.hidden = grm.token_idx("error");
        Ok(declared.with_numbers(rules))
    }

    // With the numbers of conflicts that are expected; or the one that is none. Only a GLR parser expects conflicts between reductions.
    fn with_numbers(self, rules: &FileRules<'a>) -> Result<Declared<'a>, Word<'a>> {
        let expected = last_number(&rules.expected)?;
        let expected_rr = last_number(&rules.expected_rr)?;
        let mut declared = self;
        declared.expected = expected;
        declared.expected_rr = if rules.is_glr { expected_rr } else { None };
        Ok(declared)
    }
}

// Adds the names of the symbols of `%prec`s.
fn push_prec_names<'a>(names: &mut Vec<&'a str>, items: &[Item<'a>]) -> Result<(), AllocError> {
    for item in items {
        if matches!(item.kind, ItemKind::Prec) {
            names.push(unquoted(item.word.name))?;
        }
    }
    Ok(())
}

// The last of some numbers, if there is one; or that word, if it is none.
fn last_number<'a>(words: &[Word<'a>]) -> Result<Option<Number>, Word<'a>> {
    let Some(word) = words.last() else {
        return Ok(None);
    };
    match word.name.parse::<usize>() {
        Ok(number) => Ok(Some(Number {
            number,
            span: word.span(),
        })),
        Err(_) => Err(*word),
    }
}
