//! The trait of actions.
use crate::names::push_in_clause;
use crate::plan::{Action, Plan};
use crate::rules::PlannedRule;
use crate::template::push_filled;
use std::alloc::{AllocError, Global};

// How long a line of a signature may be.
const MAX_LINE: usize = 100;

// What comes before the actions.
const HEAD: &str = "\
/// The allocator, the lexer, and where a production is.
#[derive(Clone, Copy)]
pub(crate) struct At<'a, 'text> {
    pub(crate) alloc: Global,
    pub(crate) lexer: &'a RuleLexer<'a, 'text>,
    pub(crate) range: lrpar_typed::TextRange,
}

/// The values of productions.
pub(crate) trait Actions@life@ {
    /// Why a text has no value.
    type Error: Drop + From<lrpar_typed::ParseFault> + From<AllocError>;

    /// A fact about each value. An action may assume it of its arguments and has to prove it of its result, so it is true of the value of a
    /// parse. Of a list or an option it is asked of the items. Rules of the same type share the fact of the first of them. Leave it out to
    /// claim nothing.
    ghost holds: { Self → RuleValue → Type 0 } = { λ _ _. Unit {0} };
";

/// Writes the struct `At` and the trait of actions.
pub(crate) fn write_actions(
    out: &mut String,
    alloc: Global,
    plan: &Plan,
    life: &str,
) -> Result<(), AllocError> {
    push_filled(out, HEAD, &[("life", life)])?;
    let text = if life.is_empty() { "'_" } else { "'text" };
    for action in &plan.actions {
        out.push('\n')?;
        for spelled in &action.spelled {
            push_filled(
                out,
                "    /// `@spelled@`\n",
                &[("spelled", spelled.as_str())],
            )?;
        }
        let has_clauses = has_clauses(&plan.rules, action);
        let end = if has_clauses { "" } else { ";" };
        write_signature(out, alloc, action, text, end)?;
        if has_clauses {
            write_clauses(out, &plan.rules, action)?;
        }
        out.push('\n')?;
    }
    out.push_str("}\n\n")
}

// Writes the signature of an action, with what ends it: on a line, if it is short enough.
fn write_signature<'x>(
    out: &mut String,
    alloc: Global,
    action: &'x Action,
    text: &'x str,
    end: &'x str,
) -> Result<(), AllocError> {
    let words = [
        ("name", action.name.as_str()),
        ("text", text),
        ("value", action.value.as_str()),
        ("end", end),
    ];
    let mut line = String::new(alloc);
    push_filled(&mut line, "    fn @name@(&self, at: At<'_, @text@>", &words)?;
    for param in &action.params {
        push_filled(
            &mut line,
            ", @name@: @value@",
            &[
                ("name", param.name.as_str()),
                ("value", param.value.as_str()),
            ],
        )?;
    }
    push_filled(&mut line, ") -> Result<@value@, Self::Error>@end@", &words)?;
    if line.len() <= MAX_LINE {
        return out.push_str(line.as_str());
    }
    push_filled(
        out,
        "    fn @name@(\n        &self,\n        at: At<'_, @text@>,\n",
        &words,
    )?;
    for param in &action.params {
        push_filled(
            out,
            "        @name@: @value@,\n",
            &[
                ("name", param.name.as_str()),
                ("value", param.value.as_str()),
            ],
        )?;
    }
    push_filled(out, "    ) -> Result<@value@, Self::Error>@end@", &words)
}

// Writes what holds of what an action is passed, and of its value.
fn write_clauses(
    out: &mut String,
    rules: &[PlannedRule],
    action: &Action,
) -> Result<(), AllocError> {
    let mut start = "\n        requires { ";
    for param in &action.params {
        if let Some(rule) = rule_with_fact(rules, param.rule) {
            out.push_str(start)?;
            push_filled(
                out,
                "HoldsOf (holds self.now) (RuleValue.@rule@ ",
                &[("rule", rule.camel.as_str())],
            )?;
            push_in_clause(out, param.name.as_str())?;
            out.push(')')?;
            start = " × ";
        }
    }
    if start == " × " {
        out.push_str(" }")?;
    }
    if let Some(rule) = rule_with_fact(rules, Some(action.rule)) {
        push_filled(
            out,
            "\n        ensures { IfOk result (λ made. HoldsOf (holds self.now) (RuleValue.@rule@ made)) }",
            &[("rule", rule.camel.as_str())],
        )?;
    }
    out.push(';')
}

// Whether something may hold of what an action is passed, or of its value.
fn has_clauses(rules: &[PlannedRule], action: &Action) -> bool {
    let mut params = action.params.iter();
    params.any(|param| rule_with_fact(rules, param.rule).is_some())
        || rule_with_fact(rules, Some(action.rule)).is_some()
}

// The rule with this index, if something may hold of its values.
fn rule_with_fact(rules: &[PlannedRule], index: Option<usize>) -> Option<&PlannedRule> {
    let rule = rules.get(index?)?;
    if rule.fact.is_some() {
        Some(rule)
    } else {
        None
    }
}
