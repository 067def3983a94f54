//! The rules, as code has them.
use crate::names::{camel, snake};
use lrpar_grammar::span::Symbol;
use lrpar_grammar_typed::typed::{Form, TypedGrammar, TypedRule, rule_index};
use std::alloc::{AllocError, Global};
use std::collections::BTreeMap;

/// A rule, as code has it.
#[derive(Drop)]
pub(crate) struct PlannedRule {
    /// Its name.
    pub(crate) name: String,
    /// Its name in camel case, for types.
    pub(crate) camel: String,
    /// Its name in snake case, for functions.
    pub(crate) snake: String,
    /// Its number.
    pub(crate) number: String,
    /// The type of its values.
    pub(crate) value: String,
    /// What holds of its value `v`, by what actions show; `None` if that is nothing.
    pub(crate) fact: Option<String>,
    /// Whether a production has it among its symbols.
    pub(crate) is_used: bool,
}

/// The rules of a grammar, in order.
pub(crate) fn plan_rules(
    alloc: Global,
    grammar: &TypedGrammar,
) -> Result<Vec<PlannedRule>, AllocError> {
    let types = types_of(alloc, grammar)?;
    let mut rules = Vec::with_capacity(alloc, grammar.rules.len())?;
    for (place, rule) in grammar.rules.iter().enumerate() {
        let number = place.saturating_add(1);
        rules.push(PlannedRule {
            name: String::from_str(alloc, rule.name.as_str())?,
            camel: camel(alloc, rule.name.as_str())?,
            snake: snake(alloc, rule.name.as_str())?,
            number: format!(in alloc; "{number}")?,
            value: String::from_str(alloc, rule.value.as_str())?,
            fact: fact_of(alloc, grammar, &types, rule.value.as_str())?,
            is_used: false,
        })?;
    }
    for rule in &grammar.rules {
        for prod in &rule.prods {
            for symbol in &prod.symbols {
                note_used(&mut rules, symbol.symbol);
            }
        }
    }
    Ok(rules)
}

// Notes that a symbol is used.
fn note_used(rules: &mut [PlannedRule], symbol: Symbol<u32>) {
    let Symbol::Rule(ridx) = symbol else {
        return;
    };
    let Some(index) = rule_index(ridx) else {
        return;
    };
    if let Some(rule) = rules.get_mut(index) {
        rule.is_used = true;
    }
}

// What the values of a type are.
#[derive(Clone, Copy)]
enum Kind<'a> {
    // Those of a rule with this name.
    Made(&'a str),
    // Lists of values of this type.
    List(&'a str),
    // Options of values of this type.
    Maybe(&'a str),
}

// What the values of each type of a rule are: of its first list or option, or else of its first rule.
fn types_of<'a>(
    alloc: Global,
    grammar: &'a TypedGrammar,
) -> Result<BTreeMap<&'a str, Kind<'a>>, AllocError> {
    let mut types = BTreeMap::new(alloc);
    for rule in &grammar.rules {
        let value = rule.value.as_str();
        let kind = kind_of(grammar, rule);
        let is_better = match types.get(value) {
            Some(Kind::Made(_)) => !matches!(kind, Kind::Made(_)),
            Some(_) => false,
            None => value != "()",
        };
        if is_better {
            let _ = types.insert(value, kind)?;
        }
    }
    Ok(types)
}

// What the values of a rule are.
fn kind_of<'a>(grammar: &'a TypedGrammar, rule: &'a TypedRule) -> Kind<'a> {
    let value = rule.value.as_str();
    match rule.form {
        Form::ZeroOrMore(item) | Form::OneOrMore(item) | Form::Separated(item, _)
            if value.starts_with("Vec<") => Kind::List(grammar.type_of(item)),
        Form::Optional(item) if value.starts_with("Option<") => {
            Kind::Maybe(grammar.type_of(item))
        }
        _ => Kind::Made(rule.name.as_str()),
    }
}

// What holds of a value `v` of the type: of a list, what holds of its items, and of an option, what holds of what is there.
fn fact_of(
    alloc: Global,
    grammar: &TypedGrammar,
    types: &BTreeMap<&str, Kind<'_>>,
    value: &str,
) -> Result<Option<String>, AllocError> {
    let mut value = value;
    let mut name = "v";
    let mut fact = String::new(alloc);
    let mut ends = Vec::new(alloc);
    for _ in &grammar.rules {
        match types.get(value) {
            Some(Kind::List(item)) => {
                fact.push_str("All (λ x. ")?;
                ends.push(if name == "v" {
                    ") v.items"
                } else {
                    ") x.items"
                })?;
                value = *item;
            }
            Some(Kind::Maybe(item)) => {
                fact.push_str(if name == "v" {
                    "IfSome v (λ x. "
                } else {
                    "IfSome x (λ x. "
                })?;
                ends.push(")")?;
                value = *item;
            }
            Some(Kind::Made(rule)) => {
                let rule = camel(alloc, *rule)?;
                write!(fact, "holds ({rule} {name})", rule = rule.as_str())?;
                for end in ends.iter().rev() {
                    fact.push_str(*end)?;
                }
                return Ok(Some(fact));
            }
            None => return Ok(None),
        }
        name = "x";
    }
    Ok(None)
}
