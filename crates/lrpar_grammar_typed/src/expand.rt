//! What a typed grammar means: each list, option and group is a rule.
ghost use Rattle.std.specs.Prelude.{◌≡◌, ◌≢◌, ◌+◌, ◌≤◌, [], IfOk, None, OnOk, vec_len, string_bytes};
ghost use Rattle.lrpar_grammar_typed.specs.Expanding.{AddsRule, AppendsProds, Begins, Extends, IsDeclared, IsExpanded, IsGroupOf, IsSound, IsTokenAt, rule_index};
ghost use Rattle.lrpar_grammar_typed.specs.Expansion as spec;
ghost use Rattle.lrpar_grammar_typed.specs.Expansion.{AreAlternatives, AreApart, AreDistinct, AreParts, AreRepeated, FitForm, HaveProdsOfForms, IsAtom, IsDefined, IsExpansionOf, IsItemSymbol, IsMeant, IsOfForm, IsRepeated, IsStart, declared_start, rule_names, start_after, token_names};
ghost use Rattle.lrpar_grammar_typed.specs.declared.typed.Form.TheVariants.{Written};

use crate::file::{
    Alternative, Atom, Declaration, File, Item, MAX_DEPTH, Mention, Part, Repeat, Rule,
};
use crate::forms::form_prods;
use crate::names::{form_name, group_name};
use crate::typed::{
    Form, Making, TypedFault, TypedGrammar, TypedProd, TypedRule, TypedSymbol, TypedToken, word_at,
};
use lrpar_grammar::grammar::GrammarFault;
use lrpar_grammar::span::{RIdx, Span, Symbol, TIdx};
use std::alloc::{AllocError, Global};
use std::collections::BTreeMap;
use thiserror::Error;

/// The typed grammar that is written. Each list, option and group becomes a rule, named after what it is of: `Expr_list` for `Expr*`.
///
/// `Err`: the first fault, looked for in this order: a repeated `%type`; a repeated `%start`, or a `%token` that is a rule; faults of
/// productions; a `%type` of no rule; no rules; a `%start` that is no rule. Too many symbols and `Memory` can come at any step.
pub fn expand(alloc: Global, text: &str, file: &File) -> Result<TypedGrammar, TypedFault>
    ensures expansion { IfOk result (λ g. IsExpansionOf text.now file.now.rules.items g) }
    ensures forms { IfOk result (λ g. HaveProdsOfForms g.rules.items) }
    ensures rules { IfOk result (λ g. AreDistinct (rule_names g)) }
    ensures tokens { IfOk result (λ g. AreDistinct (token_names g)) }
    ensures apart { IfOk result (λ g. AreApart g) }
    ensures start { IfOk result (λ g. IsStart text.now (declared_start file.now.declarations.items) (rule_names g) g.start) }
{
    let types = Types::of_declarations(alloc, text, &file.declarations)?;
    let mut expander = Expander::new(alloc, text, types);
    expander.declare_rules(&file.rules)?;
    let start = expander.declare(&file.declarations)?;
    for rule in &file.rules {
        let prods = expander.expand_prods(rule.name, &rule.alternatives, MAX_DEPTH)?;
        expander.add_prods(rule.name, prods)?;
    }
    expander.finish(start)
}

// Why a definition or an item is refused. It is a type of its own, since at a `?` the prover doesn't find the type of `GrammarFault` by
// `TypedFault`.
#[derive(Debug, Drop, Error)]
enum Refusal {
    // A second `%start`.
    #[error("repeated %start")]
    RepeatedStart(Span),
    // The name here is no rule and no declared token.
    #[error("unknown rule")]
    UnknownRule(Span),
    // The token here has the name of a rule.
    #[error("token is a rule")]
    TokenIsRule(Span),
    // There are more rules or tokens than can be numbered.
    #[error("too many symbols")]
    TooMany,
    // A list, an option or a group here would have the name of another rule.
    #[error("the name is taken")]
    TakenName(Span),
    // Groups are nested too deeply.
    #[error("groups are nested too deeply")]
    TooDeep(Span),
    // An allocation failed.
    #[error("out of memory")]
    Memory(#[from(alloc)] AllocError),
}

impl From<Refusal> for TypedFault {
    fn from(fault: Refusal) -> TypedFault {
        match fault {
            Refusal::RepeatedStart(span) => TypedFault::Grammar(GrammarFault::RepeatedStart(span)),
            Refusal::UnknownRule(span) => TypedFault::Grammar(GrammarFault::UnknownRule(span)),
            Refusal::TokenIsRule(span) => TypedFault::Grammar(GrammarFault::TokenIsRule(span)),
            Refusal::TooMany => TypedFault::Grammar(GrammarFault::StorageTooSmall),
            Refusal::TakenName(span) => TypedFault::TakenName(span),
            Refusal::TooDeep(span) => TypedFault::TooDeep(span),
            Refusal::Memory(error) => TypedFault::Memory(error),
        }
    }
}

// The types that are declared, in the order of the text, and the index of each by the name of its rule.
#[derive(Drop)]
struct Types<'a> {
    text: &'a str,
    declared: Vec<DeclaredType>,
    indexes: BTreeMap<&'a str, usize>,
}

// Where the type of a rule is, and where the rule's name is beside it.
#[derive(Clone, Copy)]
struct DeclaredType {
    value: Span,
    rule: Span,
}

impl<'a> Types<'a> {
    // The types that the declarations have for rules.
    fn of_declarations(
        alloc: Global,
        text: &'a str,
        declarations: &[Declaration],
    ) -> Result<Types<'a>, TypedFault> {
        let mut declared = Vec::new(alloc);
        let mut indexes = BTreeMap::new(alloc);
        for declaration in declarations {
            if let Declaration::Type(value, rules) = declaration {
                for rule in rules {
                    let name = word_at(text, *rule);
                    if indexes.contains_key(name) {
                        return Err(TypedFault::RepeatedType(*rule));
                    }
                    let _ = indexes.insert(name, declared.len())?;
                    declared.push(DeclaredType {
                        value: *value,
                        rule: *rule,
                    })?;
                }
            }
        }
        Ok(Types {
            text,
            declared,
            indexes,
        })
    }

    // The type that is declared for a rule, or this one.
    fn value_or(&self, alloc: Global, rule: &str, otherwise: &str) -> Result<String, AllocError> {
        let index = self.indexes.get(rule).copied();
        let value = match index.and_then(|index| self.declared.get(index)) {
            Some(found) => word_at(self.text, found.value),
            None => otherwise,
        };
        String::from_str(alloc, value)
    }
}

// A typed grammar that is being expanded.
#[derive(Drop)]
struct Expander<'a> {
    alloc: Global,
    text: &'a str,
    grammar: TypedGrammar,
    // The index of each rule, and the number of groups of each that has some.
    rules: BTreeMap<String, usize>,
    groups: BTreeMap<&'a str, usize>,
    tokens: BTreeMap<&'a str, u32>,
    types: Types<'a>,
}

impl<'a> Expander<'a> {
    fn new(alloc: Global, text: &'a str, types: Types<'a>) -> Expander<'a>
        ensures declared { IsDeclared result }
        ensures rules { result.grammar.rules.items ≡ [] }
        ensures text { result.text.now ≡ text.now }
    {
        Expander {
            alloc,
            text,
            grammar: TypedGrammar {
                uses: Vec::new(alloc),
                rules: Vec::new(alloc),
                tokens: Vec::new(alloc),
                start: RIdx(1),
            },
            rules: BTreeMap::new(alloc),
            groups: BTreeMap::new(alloc),
            tokens: BTreeMap::new(alloc),
            types,
        }
    }

    // Adds the rules that are defined.
    fn declare_rules(&mut self, rules: &[Rule]) -> Result<(), Refusal>
        requires declared { IsDeclared self.old }
        requires none { self.old.grammar.rules.items ≡ [] }
        ensures { OnOk result (IsExpanded self.old.text.now rules.now [] self.new) }
    {
        for rule in rules {
            self.declare_rule(rule.name)?;
        }
        Ok(())
    }

    // Adds the rule whose name is at this span, unless it is there.
    fn declare_rule(&mut self, rule: Span) -> Result<(), Refusal>
        requires { IsDeclared self.old }
        ensures declared { OnOk result (IsDeclared self.new) }
        ensures text { OnOk result (self.new.text.now ≡ self.old.text.now) }
        ensures rules { OnOk result (Begins self.old.grammar.rules.items self.new.grammar.rules.items) }
        ensures defined { OnOk result (IsDefined self.old.text.now self.new.grammar rule) }
        ensures one_more { OnOk result (vec_len self.new.grammar.rules ≤ vec_len self.old.grammar.rules + 1) }
    {
        let word = word_at(self.text, rule);
        if self.rules.contains_key(word) {
            return Ok(());
        }
        let name = String::from_str(self.alloc, word)?;
        let value = self.types.value_or(self.alloc, word, "()")?;
        let _ = self.add_rule(TypedRule {
            name,
            span: rule,
            form: Form::Written,
            value,
            prods: Vec::new(self.alloc),
        })?;
        Ok(())
    }

    // Adds the other declarations. Returns the start rule, if it is declared.
    fn declare(&mut self, declarations: &[Declaration]) -> Result<Option<Span>, Refusal>
        requires { IsSound self.old }
        ensures sound { OnOk result (IsSound self.new) }
        ensures extends { OnOk result (Extends self.old self.new) }
        ensures start { IfOk result (λ start. start ≡ declared_start declarations.now) }
    {
        let mut start = None;
        for declaration in declarations {
            start = self.declare_one(declaration, start)?;
        }
        Ok(start)
    }

    // Adds a declaration. Returns the start rule, if it is this one or was declared before.
    fn declare_one(
        &mut self,
        declaration: &Declaration,
        start: Option<Span>,
    ) -> Result<Option<Span>, Refusal>
        requires { IsSound self.old }
        ensures sound { OnOk result (IsSound self.new) }
        ensures extends { OnOk result (Extends self.old self.new) }
        ensures start { IfOk result (λ new. new ≡ start_after start declaration.now) }
    {
        match declaration {
            Declaration::Use(path) => {
                self.grammar.uses.push(*path)?;
                Ok(start)
            }
            Declaration::Start(rule) if start.is_some() => Err(Refusal::RepeatedStart(*rule)),
            Declaration::Start(rule) => Ok(Some(*rule)),
            Declaration::Tokens(tokens) => {
                self.number_tokens(tokens)?;
                Ok(start)
            }
            Declaration::Type(_, _) => Ok(start),
        }
    }

    // Numbers the tokens that aren't numbered yet.
    fn number_tokens(&mut self, tokens: &[Mention]) -> Result<(), Refusal>
        requires { IsSound self.old }
        ensures sound { OnOk result (IsSound self.new) }
        ensures extends { OnOk result (Extends self.old self.new) }
    {
        for token in tokens {
            let _ = self.number_token(token.name)?;
        }
        Ok(())
    }

    // The productions that the alternatives are, of this rule or of a group in it.
    #[cycle(groups)]
    fn expand_prods(
        &mut self,
        rule: Span,
        alternatives: &[Alternative],
        depth: usize,
    ) -> Result<Vec<TypedProd>, Refusal>
        requires { IsSound self.old }
        ensures sound { OnOk result (IsSound self.new) }
        ensures extends { OnOk result (Extends self.old self.new) }
        ensures prods { IfOk result (λ prods. AreAlternatives self.new.text.now self.new.grammar alternatives.now prods.items) }
    {
        let mut prods = Vec::with_capacity(self.alloc, alternatives.len())?;
        for alternative in alternatives {
            prods.push(TypedProd {
                symbols: self.expand_parts(rule, &alternative.parts, depth)?,
                making: Making::Action(alternative.label),
                span: alternative.span,
            })?;
        }
        Ok(prods)
    }

    // The symbols that the parts are.
    #[cycle(groups)]
    fn expand_parts(
        &mut self,
        rule: Span,
        parts: &[Part],
        depth: usize,
    ) -> Result<Vec<TypedSymbol>, Refusal>
        requires { IsSound self.old }
        ensures sound { OnOk result (IsSound self.new) }
        ensures extends { OnOk result (Extends self.old self.new) }
        ensures symbols { IfOk result (λ symbols. AreParts self.new.text.now self.new.grammar parts.now symbols.items) }
    {
        let mut symbols = Vec::with_capacity(self.alloc, parts.len())?;
        for part in parts {
            symbols.push(TypedSymbol {
                symbol: self.expand_item(rule, &part.item, depth)?,
                span: part.item.span,
                name: part.name,
            })?;
        }
        Ok(symbols)
    }

    // The symbol that the item is.
    #[cycle(groups)]
    fn expand_item(&mut self, rule: Span, item: &Item, depth: usize) -> Result<Symbol<u32>, Refusal>
        requires { IsSound self.old }
        ensures sound { OnOk result (IsSound self.new) }
        ensures extends { OnOk result (Extends self.old self.new) }
        ensures symbol { IfOk result (λ symbol. IsItemSymbol self.new.text.now self.new.grammar item.now symbol) }
    {
        let symbol = self.expand_atom(rule, &item.atom, item.span, depth)?;
        self.repeat(symbol, &item.repeats, item.span)
    }

    // The symbol that is written, or that of the group.
    #[cycle(groups)]
    fn expand_atom(
        &mut self,
        rule: Span,
        atom: &Atom,
        span: Span,
        depth: usize,
    ) -> Result<Symbol<u32>, Refusal>
        requires { IsSound self.old }
        ensures sound { OnOk result (IsSound self.new) }
        ensures extends { OnOk result (Extends self.old self.new) }
        ensures symbol { IfOk result (λ symbol. IsAtom self.new.text.now self.new.grammar atom.now symbol) }
    {
        match atom {
            Atom::Symbol(mention) => self.find_symbol(*mention),
            Atom::Group(alternatives) => {
                let depth = depth.checked_sub(1).ok_or(Refusal::TooDeep(span))?;
                let name = self.next_group_name(rule)?;
                let prods = self.expand_prods(rule, alternatives, depth)?;
                self.add_group(name, span, prods)
            }
        }
    }

    // The name of the next group in this rule.
    fn next_group_name(&mut self, rule: Span) -> Result<String, AllocError>
        requires { IsSound self.old }
        ensures sound { OnOk result (IsSound self.new) }
        ensures extends { OnOk result (Extends self.old self.new) }
    {
        let rule = word_at(self.text, rule);
        let number = self
            .groups
            .get(rule)
            .map_or(1, |count| count.saturating_add(1));
        let _ = self.groups.insert(rule, number)?;
        group_name(self.alloc, rule, number)
    }

    // The symbol that is meant.
    fn find_symbol(&mut self, mention: Mention) -> Result<Symbol<u32>, Refusal>
        requires { IsSound self.old }
        ensures sound { OnOk result (IsSound self.new) }
        ensures extends { OnOk result (Extends self.old self.new) }
        ensures symbol { IfOk result (λ symbol. IsMeant self.new.text.now self.new.grammar mention symbol) }
    {
        if !mention.is_quoted {
            let name = word_at(self.text, mention.name);
            if let Some(index) = self.rules.get(name) {
                return rule_symbol(*index);
            }
            if !self.tokens.contains_key(name) {
                return Err(Refusal::UnknownRule(mention.name));
            }
        }
        Ok(Symbol::Token(self.number_token(mention.name)?))
    }

    // The token whose name is here.
    fn number_token(&mut self, span: Span) -> Result<TIdx<u32>, Refusal>
        requires { IsSound self.old }
        ensures sound { OnOk result (IsSound self.new) }
        ensures extends { OnOk result (Extends self.old self.new) }
        ensures token { IfOk result (λ token. IsTokenAt self.new.text.now self.new.grammar span token) }
    {
        let name = word_at(self.text, span);
        if let Some(token) = self.tokens.get(name) {
            return Ok(TIdx(*token));
        }
        if self.rules.contains_key(name) {
            return Err(Refusal::TokenIsRule(span));
        }
        let token = u32::try_from(self.grammar.tokens.len()).map_err(|_| Refusal::TooMany)?;
        let _ = self.tokens.insert(name, token)?;
        let name = String::from_str(self.alloc, name)?;
        self.grammar.tokens.push(TypedToken { name, span })?;
        Ok(TIdx(token))
    }

    // The symbol of a list or an option of this symbol; this one if nothing repeats it.
    fn repeat(
        &mut self,
        symbol: Symbol<u32>,
        repeats: &[Repeat],
        span: Span,
    ) -> Result<Symbol<u32>, Refusal>
        requires { IsSound self.old }
        ensures sound { OnOk result (IsSound self.new) }
        ensures extends { OnOk result (Extends self.old self.new) }
        ensures symbol { IfOk result (λ y. AreRepeated self.new.text.now self.new.grammar symbol repeats.now y) }
    {
        let mut repeated = symbol;
        for repeat in repeats {
            repeated = self.repeat_once(repeated, *repeat, span)?;
        }
        Ok(repeated)
    }

    // The symbol of the list or the option of this symbol.
    fn repeat_once(
        &mut self,
        symbol: Symbol<u32>,
        repeat: Repeat,
        span: Span,
    ) -> Result<Symbol<u32>, Refusal>
        requires { IsSound self.old }
        ensures sound { OnOk result (IsSound self.new) }
        ensures extends { OnOk result (Extends self.old self.new) }
        ensures symbol { IfOk result (λ y. IsRepeated self.new.text.now self.new.grammar symbol repeat y) }
    {
        match repeat {
            Repeat::ZeroOrMore => self.add_form(Form::ZeroOrMore(symbol), span),
            Repeat::OneOrMore => self.add_form(Form::OneOrMore(symbol), span),
            Repeat::Optional => self.add_form(Form::Optional(symbol), span),
            Repeat::Separated(mention) => {
                let separator = self.find_symbol(mention)?;
                self.add_form(Form::Separated(symbol, separator), span)
            }
            Repeat::Terminated(mention) => {
                let separator = self.find_symbol(mention)?;
                let list = self.add_form(Form::Separated(symbol, separator), span)?;
                self.add_form(Form::Terminated(list, separator), span)
            }
        }
    }

    // The rule of a form, which is made if it isn't there.
    fn add_form(&mut self, form: Form, span: Span) -> Result<Symbol<u32>, Refusal>
        requires sound { IsSound self.old }
        requires made { form ≢ Written }
        ensures sound { OnOk result (IsSound self.new) }
        ensures extends { OnOk result (Extends self.old self.new) }
        ensures symbol { IfOk result (λ symbol. IsOfForm self.new.grammar form symbol) }
    {
        let name = form_name(self.alloc, &self.grammar, form)?;
        if let Some(index) = self.rules.get(name.as_str()) {
            return self.find_form(*index, form, span);
        }
        let value = form_type(self.alloc, &self.grammar, form)?;
        let value = self
            .types
            .value_or(self.alloc, name.as_str(), value.as_str())?;
        let rule = rule_symbol(self.grammar.rules.len())?;
        let prods = form_prods(self.alloc, rule, form, span)?;
        self.add_rule(TypedRule {
            name,
            span,
            form,
            value,
            prods,
        })
    }

    // The rule with this index, which has to be of this form.
    fn find_form(&self, index: usize, form: Form, span: Span) -> Result<Symbol<u32>, Refusal>
        ensures { IfOk result (λ symbol. IsOfForm self.now.grammar form symbol) }
    {
        match self.grammar.rules.get(index) {
            Some(rule) if rule.form == form => rule_symbol(index),
            _ => Err(Refusal::TakenName(span)),
        }
    }

    // The rule of a group.
    fn add_group(
        &mut self,
        name: String,
        span: Span,
        prods: Vec<TypedProd>,
    ) -> Result<Symbol<u32>, Refusal>
        requires { IsSound self.old }
        ensures sound { OnOk result (IsSound self.new) }
        ensures extends { OnOk result (Extends self.old self.new) }
        ensures symbol { IfOk result (λ symbol. IsGroupOf self.new.grammar prods symbol) }
    {
        if self.rules.contains_key(name.as_str()) {
            return Err(Refusal::TakenName(span));
        }
        let value = self.types.value_or(
            self.alloc,
            name.as_str(),
            group_type(&self.grammar, self.text, &prods),
        )?;
        self.add_rule(TypedRule {
            name,
            span,
            form: Form::Group,
            value,
            prods,
        })
    }

    // Adds a rule, which has to be a new one.
    fn add_rule(&mut self, rule: TypedRule) -> Result<Symbol<u32>, Refusal>
        requires sound { IsSound self.old }
        requires new { rule_index self.old (string_bytes rule.name) ≡ None }
        requires prods { FitForm (vec_len self.old.grammar.rules) rule.form rule.prods }
        requires apart { rule.form ≡ Written → self.old.grammar.tokens.items ≡ [] }
        ensures sound { OnOk result (IsSound self.new) }
        ensures symbol { IfOk result (λ symbol. symbol ≡ spec.rule_symbol (vec_len self.old.grammar.rules)) }
        ensures rule { OnOk result (AddsRule self.old self.new rule) }
    {
        let index = self.grammar.rules.len();
        let symbol = rule_symbol(index)?;
        let name = String::from_str(self.alloc, rule.name.as_str())?;
        let _ = self.rules.insert(name, index)?;
        self.grammar.rules.push(rule)?;
        Ok(symbol)
    }

    // Adds these productions to the rule whose name is here.
    fn add_prods(&mut self, name: Span, prods: Vec<TypedProd>) -> Result<(), Refusal>
        requires { IsSound self.old }
        ensures { OnOk result (AppendsProds self.old self.new name prods.items) }
    {
        let Some(index) = self.rules.get(word_at(self.text, name)) else {
            return Err(Refusal::UnknownRule(name));
        };
        let rule = &mut self.grammar.rules[*index];
        let mut prods = prods;
        rule.prods.append(&mut prods)?;
        Ok(())
    }

    // The grammar, if each name that a declaration has for a rule is one.
    fn finish(self, start: Option<Span>) -> Result<TypedGrammar, TypedFault>
        requires { IsSound self }
        ensures rules { IfOk result (λ g. g.rules ≡ self.entry.grammar.rules) }
        ensures tokens { IfOk result (λ g. g.tokens ≡ self.entry.grammar.tokens) }
        ensures start { IfOk result (λ g. IsStart self.entry.text.now start (rule_names self.entry.grammar) g.start) }
    {
        for found in &self.types.declared {
            if !self.rules.contains_key(word_at(self.text, found.rule)) {
                return Err(TypedFault::Grammar(GrammarFault::UnknownRule(found.rule)));
            }
        }
        if self.grammar.rules.is_empty() {
            return Err(TypedFault::Grammar(GrammarFault::NoRules));
        }
        let start = self.start_rule(start)?;
        let Expander { grammar, .. } = self;
        Ok(TypedGrammar { start, ..grammar })
    }

    // The start rule: the one whose name is here, or the first one.
    fn start_rule(&self, start: Option<Span>) -> Result<RIdx<u32>, Refusal>
        requires { IsSound self.now }
        ensures { IfOk result (IsStart self.now.text.now start (rule_names self.now.grammar)) }
    {
        let Some(name) = start else {
            return Ok(RIdx(1));
        };
        match self.rules.get(word_at(self.text, name)) {
            Some(index) => rule_number(*index),
            None => Err(Refusal::UnknownRule(name)),
        }
    }
}

// The symbol of the rule with this index.
fn rule_symbol(index: usize) -> Result<Symbol<u32>, Refusal>
    ensures { IfOk result (λ symbol. symbol ≡ spec.rule_symbol index) }
{
    Ok(Symbol::Rule(rule_number(index)?))
}

// The number of the rule with this index.
fn rule_number(index: usize) -> Result<RIdx<u32>, Refusal>
    ensures { IfOk result (λ rule. rule.0 ≡ index + 1) }
{
    match u32::try_from(index)
        .ok()
        .and_then(|index| index.checked_add(1))
    {
        Some(number) => Ok(RIdx(number)),
        None => Err(Refusal::TooMany),
    }
}

// The type of the values of a form.
fn form_type(alloc: Global, grammar: &TypedGrammar, form: Form) -> Result<String, AllocError> {
    let mut value = String::new(alloc);
    match form {
        Form::Written | Form::Group => value.push_str("()")?,
        Form::ZeroOrMore(item) | Form::OneOrMore(item) | Form::Separated(item, _) => {
            let item = grammar.type_of(item);
            write!(value, "Vec<{item}>")?;
        }
        Form::Optional(item) => {
            let item = grammar.type_of(item);
            write!(value, "Option<{item}>")?;
        }
        Form::Terminated(list, _) => value.push_str(grammar.type_of(list))?,
    }
    Ok(value)
}

// The type of the values of a group: that of the value that each alternative passes on, if it is the same one.
fn group_type<'a>(grammar: &'a TypedGrammar, text: &str, prods: &[TypedProd]) -> &'a str {
    let mut value = None;
    for prod in prods {
        let mut passed = prod
            .symbols
            .iter()
            .filter(|symbol| grammar.is_passed(text, symbol));
        let (Some(only), None) = (passed.next(), passed.next()) else {
            return "()";
        };
        let found = grammar.type_of(only.symbol);
        match value {
            Some(value) if value != found => return "()",
            _ => value = Some(found),
        }
    }
    value.unwrap_or("()")
}
