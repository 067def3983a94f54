//! What the code of each production does.
use crate::args::{Arg, args_of};
use crate::names::{action_name, folded, snake};
use crate::rules::{PlannedRule, plan_rules};
use lrpar_grammar::span::{Span, Symbol};
use lrpar_grammar_typed::file::Label;
use lrpar_grammar_typed::typed::{Making, TypedGrammar, TypedProd, TypedRule, rule_index, word_at};
use std::alloc::{AllocError, Global};
use std::collections::BTreeMap;
use thiserror::Error;

/// Why a typed grammar has no code.
#[derive(Clone, Debug, Drop, PartialEq, Eq, Error)]
pub enum CodeFault {
    /// An earlier production with this label has other arguments, or a value of another type.
    #[error("the label at byte {at} is that of another action", at = .0.start())]
    OtherAction(Span),
    /// The name of a rule is that of an earlier one in code, where case and underscores don't count.
    #[error("the rule at byte {at} has the same name in code as an earlier one", at = .0.start())]
    SameName(Span),
    /// An allocation failed.
    #[error("out of memory")]
    Memory(#[from(alloc)] AllocError),
}

/// What the code does.
#[derive(Drop)]
pub(crate) struct Plan {
    /// In the order of the grammar.
    pub(crate) rules: Vec<PlannedRule>,
    /// In the order of the grammar.
    pub(crate) prods: Vec<PlannedProd>,
    /// How many productions there are.
    pub(crate) count: String,
    /// In the order of their first productions.
    pub(crate) actions: Vec<Action>,
}

/// What the code of a production does.
#[derive(Drop)]
pub(crate) struct PlannedProd {
    /// Its number.
    pub(crate) number: String,
    /// The production, as `Rule: Symbol 'token'`.
    pub(crate) spelled: String,
    /// The index of its rule.
    pub(crate) rule: usize,
    /// Its arguments, from left to right.
    pub(crate) args: Vec<Arg>,
    /// What makes its value.
    pub(crate) call: Call,
}

/// What makes a value.
#[derive(Drop)]
pub(crate) enum Call {
    /// An expression.
    Value(String),
    /// An action, and its arguments after `at`.
    Action(String, Vec<String>),
}

/// An action: a function of the trait.
#[derive(Drop)]
pub(crate) struct Action {
    pub(crate) name: String,
    /// Its parameters after `at`.
    pub(crate) params: Vec<Param>,
    /// The index of the rule of its value.
    pub(crate) rule: usize,
    /// The type of its value.
    pub(crate) value: String,
    /// The productions with this action.
    pub(crate) spelled: Vec<String>,
}

/// A parameter of an action.
#[derive(Drop)]
pub(crate) struct Param {
    pub(crate) name: String,
    pub(crate) value: String,
    /// The index of the rule of its value, if it has one.
    pub(crate) rule: Option<usize>,
}

/// Plans the code of a grammar.
pub(crate) fn make_plan<'a>(
    alloc: Global,
    text: &'a str,
    grammar: &'a TypedGrammar,
) -> Result<Plan, CodeFault> {
    check_names(alloc, grammar)?;
    let mut planner = Planner {
        alloc,
        text,
        grammar,
        actions: Vec::new(alloc),
        indexes: BTreeMap::new(alloc),
    };
    let mut prods: Vec<PlannedProd> = Vec::new(alloc);
    for (rule_index, rule) in grammar.rules.iter().enumerate() {
        for (index, prod) in rule.prods.iter().enumerate() {
            let number = number_of(alloc, prods.len())?;
            prods.push(planner.make_prod(number, rule_index, rule, index, prod)?)?;
        }
    }
    let Planner { actions, .. } = planner;
    Ok(Plan {
        rules: plan_rules(alloc, grammar)?,
        count: number_of(alloc, prods.len())?,
        prods,
        actions,
    })
}

// A number, as text.
fn number_of(alloc: Global, number: usize) -> Result<String, AllocError> {
    format!(in alloc; "{number}")
}

// Refuses rules that have one name in code.
fn check_names(alloc: Global, grammar: &TypedGrammar) -> Result<(), CodeFault> {
    let mut names = BTreeMap::new(alloc);
    for rule in &grammar.rules {
        let name = folded(alloc, rule.name.as_str())?;
        if names.contains_key(name.as_str()) {
            return Err(CodeFault::SameName(rule.span));
        }
        let _ = names.insert(name, ())?;
    }
    Ok(())
}

// A plan that is being made.
#[derive(Drop)]
struct Planner<'a> {
    alloc: Global,
    text: &'a str,
    grammar: &'a TypedGrammar,
    actions: Vec<Action>,
    // The index of each action by its name.
    indexes: BTreeMap<String, usize>,
}

impl<'a> Planner<'a> {
    // What the code of the production of this number does, which has this index in its rule.
    fn make_prod(
        &mut self,
        number: String,
        rule_index: usize,
        rule: &TypedRule,
        index: usize,
        prod: &TypedProd,
    ) -> Result<PlannedProd, CodeFault> {
        let args = args_of(self.alloc, self.text, self.grammar, prod)?;
        let spelled = spelled(self.alloc, self.grammar, rule, prod)?;
        let call = match value_of(self.grammar, rule, prod.making, &args) {
            Some(value) => Call::Value(String::from_str(self.alloc, value)?),
            None => {
                let action = self.action_of(rule_index, rule, index, prod, &args)?;
                self.call_action(action, spelled.as_str(), prod)?
            }
        };
        Ok(PlannedProd {
            number,
            spelled,
            rule: rule_index,
            args,
            call,
        })
    }

    // The action of a production: that of its label, or else one that is named after the rule and the production's number in it.
    fn action_of(
        &self,
        rule_index: usize,
        rule: &TypedRule,
        index: usize,
        prod: &TypedProd,
        args: &[Arg],
    ) -> Result<Action, AllocError> {
        let name = match label_of(prod) {
            Some(label) => String::from_str(self.alloc, word_at(self.text, label.name))?,
            None => {
                let rule = snake(self.alloc, rule.name.as_str())?;
                let (rule, number) = (rule.as_str(), index.saturating_add(1));
                format!(in self.alloc; "{rule}_{number}")?
            }
        };
        let mut params = Vec::with_capacity(self.alloc, args.len())?;
        if let Some(kind) = label_of(prod).and_then(|label| label.kind) {
            params.push(self.kind_param(word_at(self.text, kind))?)?;
        }
        for arg in args.iter().filter(|arg| arg.is_passed) {
            params.push(self.param_of(arg)?)?;
        }
        Ok(Action {
            name: action_name(name)?,
            params,
            rule: rule_index,
            value: String::from_str(self.alloc, rule.value.as_str())?,
            spelled: Vec::new(self.alloc),
        })
    }

    // The parameter for a constant.
    fn kind_param(&self, path: &str) -> Result<Param, AllocError> {
        let value = path.rsplit_once("::").map_or(path, |parts| parts.0);
        Ok(Param {
            name: String::from_str(self.alloc, "kind")?,
            value: String::from_str(self.alloc, value)?,
            rule: None,
        })
    }

    // The parameter for an argument.
    fn param_of(&self, arg: &Arg) -> Result<Param, AllocError> {
        let rule = match arg.symbol {
            Symbol::Rule(ridx) => rule_index(ridx),
            Symbol::Token(_) => None,
        };
        Ok(Param {
            name: String::from_str(self.alloc, arg.name.as_str())?,
            value: String::from_str(self.alloc, self.grammar.type_of(arg.symbol))?,
            rule,
        })
    }

    // A call of the action, which is a new one or has to be as it was.
    fn call_action(
        &mut self,
        action: Action,
        spelled: &str,
        prod: &TypedProd,
    ) -> Result<Call, CodeFault> {
        let mut passed = Vec::with_capacity(self.alloc, action.params.len())?;
        let label = label_of(prod);
        for param in &action.params {
            passed.push(String::from_str(self.alloc, param.name.as_str())?)?;
        }
        if let (Some(kind), Some(first)) = (label.and_then(|it| it.kind), passed.first_mut()) {
            *first = String::from_str(self.alloc, word_at(self.text, kind))?;
        }
        let name = String::from_str(self.alloc, action.name.as_str())?;
        let spelled = String::from_str(self.alloc, spelled)?;
        self.add_action(action, spelled, label.map_or(prod.span, |label| label.name))?;
        Ok(Call::Action(name, passed))
    }

    // Adds a production to the action, which is a new one or has to be as it was.
    fn add_action(
        &mut self,
        mut action: Action,
        spelled: String,
        span: Span,
    ) -> Result<(), CodeFault> {
        if let Some(index) = self.indexes.get(action.name.as_str()) {
            return match self.actions.get_mut(*index) {
                Some(found) if is_same(found, &action) => Ok(found.spelled.push(spelled)?),
                _ => Err(CodeFault::OtherAction(span)),
            };
        }
        let name = String::from_str(self.alloc, action.name.as_str())?;
        let _ = self.indexes.insert(name, self.actions.len())?;
        action.spelled.push(spelled)?;
        self.actions.push(action)?;
        Ok(())
    }
}

// The label of a production.
fn label_of(prod: &TypedProd) -> Option<Label> {
    match prod.making {
        Making::Action(label) => label,
        _ => None,
    }
}

// Whether the actions take the same, and have values of the same type.
fn is_same(action: &Action, other: &Action) -> bool {
    action.value == other.value
        && action.params.len() == other.params.len()
        && action.params.iter().zip(&other.params).all(|(param, same)| param.name == same.name
            && param.value == same.value)
}

// The value of a production that needs no action: a list, an option, or, without a label, `()` or the only argument, if that has the type of
// the rule.
fn value_of<'a>(
    grammar: &TypedGrammar,
    rule: &TypedRule,
    making: Making,
    args: &'a [Arg],
) -> Option<&'a str> {
    match making {
        Making::Action(Some(_)) => None,
        Making::Action(None) if rule.value.as_str() == "()" => Some("()"),
        Making::Action(None) => {
            let mut passed = args.iter().filter(|arg| arg.is_passed);
            match (passed.next(), passed.next()) {
                (Some(only), None) if grammar.type_of(only.symbol) == rule.value.as_str() => {
                    Some(only.name.as_str())
                }
                _ => None,
            }
        }
        Making::Empty => Some("Vec::new(at.alloc)"),
        Making::First => Some("lrpar_typed::one_item(at.alloc, item)?"),
        Making::Push => Some("lrpar_typed::with_item(list, item)?"),
        Making::Nothing => Some("None"),
        Making::Just => Some("Some(item)"),
        Making::Same => Some("list"),
    }
}

// A production as it is in the text of a grammar, on one line.
fn spelled(
    alloc: Global,
    grammar: &TypedGrammar,
    rule: &TypedRule,
    prod: &TypedProd,
) -> Result<String, AllocError> {
    let mut spelled = String::from_str(alloc, rule.name.as_str())?;
    spelled.push(':')?;
    for symbol in &prod.symbols {
        spelled.push(' ')?;
        push_symbol(&mut spelled, grammar, symbol.symbol)?;
    }
    Ok(spelled)
}

/// Appends a symbol as it is in the text of a grammar.
pub(crate) fn push_symbol(
    out: &mut String,
    grammar: &TypedGrammar,
    symbol: Symbol<u32>,
) -> Result<(), AllocError> {
    let name = grammar.name(symbol);
    match symbol {
        Symbol::Rule(_) => out.push_str(name),
        Symbol::Token(_) => push_quoted(out, name),
    }
}

/// Appends the name of a token in quotes.
pub(crate) fn push_quoted(out: &mut String, name: &str) -> Result<(), AllocError> {
    let quote = if name.contains('\'') { '"' } else { '\'' };
    out.push(quote)?;
    out.push_str(name)?;
    out.push(quote)
}
