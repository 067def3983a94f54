//! The values of rules, and what makes those of productions.
use crate::plan::{Call, Plan, PlannedProd};
use crate::rules::PlannedRule;
use crate::template::push_filled;
use lrpar_grammar::span::Symbol;
use lrpar_grammar_typed::typed::rule_index;
use std::alloc::{AllocError, Global};

// How many productions a function has.
const CHUNK: usize = 8;

// How long the arguments of a call on one line may be.
const MAX_ARGS: usize = 60;

// How long they may be together with the name of the action.
const MAX_CALL: usize = 65;

// How long the line of a signature may be.
const MAX_LINE: usize = 100;

// What comes after the enum of values.
const ACTING: &str = "\
// The arguments of a production.
type RuleArgs<'a, 'rules, 'text, ErrorT> = lrpar_typed::Args<
    'a,
    RuleLexer<'rules, 'text>,
    Token<u32>,
    RuleValue@life@,
    ErrorT,
>;

// The values by these actions.
#[derive(Drop)]
struct Acting<'a, A> {
    actions: &'a A,
}

";

/// Writes the enum of values, and the type that implements `Typed`.
pub(crate) fn write_values(
    out: &mut String,
    rules: &[PlannedRule],
    life: &str,
) -> Result<(), AllocError> {
    let head = "/// The value of a rule.\n#[derive(Drop)]\npub(crate) enum RuleValue@life@ {\n";
    push_filled(out, head, &[("life", life)])?;
    for rule in rules {
        let words = [
            ("rule", rule.camel.as_str()),
            ("value", rule.value.as_str()),
        ];
        push_filled(out, "    @rule@(@value@),\n", &words)?;
    }
    out.push_str("}\n\n")?;
    push_filled(out, ACTING, &[("life", life)])
}

// The impl of `Typed` up to the choice of a function.
const TYPED: &str = "\
impl<'a, 'rules, 'text, A: Actions@life@> Typed<u32, Token<u32>, RuleLexer<'rules, 'text>>
    for Acting<'a, A> {
    type Value = RuleValue@life@;

    type Error = A::Error;

    ghost rows = { ROWS };

    ghost start = { @start@ };

    ghost rule = { rule_of };

    ghost gives = { λ _ _ _ _. Unit {0} };

    ghost holds = { λ acting. HoldsOf (A.holds acting.actions.now) };

    fn takes(
        &self,
        pidx: lrpar_typed::PIdx<u32>,
        ridx: lrpar_typed::RIdx<u32>,
        symbols: &[lrpar_typed::Symbol<u32>],
    ) -> bool
        ensures { IsTrue result ↔ TakesRow (λ n. n) ROWS pidx ridx symbols.now }
    {
        lrpar_typed::has_row(&ROWS, pidx, ridx, symbols)
    }

    fn value(
        &self,
        alloc: Global,
        production: usize,
        args: &mut RuleArgs<'_, 'rules, 'text, A::Error>,
    ) -> Result<RuleValue@life@, A::Error>
        requires within { production < length ROWS }
        requires fits { AreOfRow (λ n. n) ⟦<Token<u32> as Lexeme<u32>>⟧.parts rule_of ROWS production args.old }
        requires hold { AllHold (HoldsOf (A.holds self.now.actions.now)) args.old.left }
        ensures rule { IsOfRow rule_of ROWS production result }
        ensures gives { Unit {0} }
        ensures holds { IfOk result (HoldsOf (A.holds self.now.actions.now)) }
    {
        let at = At {
            alloc,
            lexer: args.lexer(),
            range: lrpar_typed::TextRange::from(args.span()),
        };
";

/// Writes the impl of `Typed`.
pub(crate) fn write_typed<'x>(
    out: &mut String,
    plan: &'x Plan,
    start: &'x PlannedRule,
    life: &'x str,
) -> Result<(), AllocError> {
    let start = start.number.as_str();
    push_filled(out, TYPED, &[("life", life), ("start", start)])?;
    write_choice(out, plan)?;
    out.push_str("    }\n}\n\n")
}

// Writes the choice of the function that has the production.
fn write_choice(out: &mut String, plan: &Plan) -> Result<(), AllocError> {
    if plan.prods.len() <= CHUNK {
        return out.push_str("        make_from_0(self.actions, at, production, args)\n");
    }
    out.push_str("        ")?;
    for (place, prods) in plan.prods.chunks(CHUNK).enumerate() {
        let next = place.saturating_add(1).saturating_mul(CHUNK);
        let (low, next) = (first_number(prods), plan.prods.get(next));
        let template = if next.is_some() {
            "if production < @next@ {\n            make_from_@low@(self.actions, at, production, args)\n        } else "
        } else {
            "{\n            make_from_@low@(self.actions, at, production, args)\n        }\n"
        };
        let next = next.map_or("", |next| next.number.as_str());
        push_filled(out, template, &[("low", low), ("next", next)])?;
    }
    Ok(())
}

// The number of the first production.
fn first_number(prods: &[PlannedProd]) -> &str {
    prods.first().map_or("", |prod| prod.number.as_str())
}

// The signature of a function that has the productions from one number to another one.
const MAKER: &str = "\
// The values of productions @low@ to @last@.
fn make_from_@low@<'text, A: Actions@life@>(
    actions: &A,
    at: At<'_, 'text>,
    production: usize,
    args: &mut RuleArgs<'_, '_, 'text, A::Error>,
) -> Result<RuleValue@life@, A::Error>
";

// What comes after the first number in its contract.
const MAKER_CLAUSES: &str = "    requires high { production < @next@ }
    requires fits { AreOfRow (λ n. n) ⟦<Token<u32> as Lexeme<u32>>⟧.parts rule_of ROWS production args.old }
    requires hold { AllHold (HoldsOf (A.holds actions.now)) args.old.left }
    ensures rule { IsOfRow rule_of ROWS production result }
    ensures holds { IfOk result (HoldsOf (A.holds actions.now)) }
{
    match production {
";

/// Writes the functions that make the values of productions.
pub(crate) fn write_makers(
    out: &mut String,
    alloc: Global,
    plan: &Plan,
    life: &str,
) -> Result<(), AllocError> {
    for (place, prods) in plan.prods.chunks(CHUNK).enumerate() {
        let next = place.saturating_add(1).saturating_mul(CHUNK);
        write_maker_head(out, plan, prods, next, life)?;
        for prod in prods {
            write_maker(out, alloc, plan, prod)?;
        }
        out.push_str("        _ => unreachable!(),\n    }\n}\n\n")?;
    }
    Ok(())
}

// Writes the head of the function that has these productions. `next` is the index of the one after them.
fn write_maker_head<'x>(
    out: &mut String,
    plan: &'x Plan,
    prods: &'x [PlannedProd],
    next: usize,
    life: &'x str,
) -> Result<(), AllocError> {
    let low = first_number(prods);
    let last = prods.last().map_or("", |prod| prod.number.as_str());
    let next = match plan.prods.get(next) {
        Some(prod) => prod.number.as_str(),
        None => plan.count.as_str(),
    };
    push_filled(out, MAKER, &[("low", low), ("last", last), ("life", life)])?;
    if low != "0" {
        push_filled(
            out,
            "    requires low { @low@ ≤ production }\n",
            &[("low", low)],
        )?;
    }
    push_filled(out, MAKER_CLAUSES, &[("next", next)])
}

// Writes what makes the value of a production.
fn write_maker<'x>(
    out: &mut String,
    alloc: Global,
    plan: &'x Plan,
    prod: &'x PlannedProd,
) -> Result<(), AllocError> {
    let rule = match plan.rules.get(prod.rule) {
        Some(rule) => rule.camel.as_str(),
        None => "",
    };
    let words = [
        ("spelled", prod.spelled.as_str()),
        ("number", prod.number.as_str()),
    ];
    push_filled(out, "        // @spelled@\n        @number@ => ", &words)?;
    if let (true, Call::Value(value)) = (prod.args.is_empty(), &prod.call) {
        return push_filled(
            out,
            "Ok(RuleValue::@rule@(@value@)),\n",
            &[("rule", rule), ("value", value.as_str())],
        );
    }
    out.push_str("{\n")?;
    for arg in &prod.args {
        let words = [("name", arg.name.as_str())];
        push_filled(out, "            let @name@ = ", &words)?;
        write_taking(out, &plan.rules, arg.symbol)?;
    }
    write_result(out, alloc, rule, &prod.call)?;
    out.push_str("        }\n")
}

// Writes the call that takes the argument of a symbol.
fn write_taking(
    out: &mut String,
    rules: &[PlannedRule],
    symbol: Symbol<u32>,
) -> Result<(), AllocError> {
    match symbol {
        Symbol::Token(_) => out.push_str("lrpar_typed::next_lexeme(args);\n"),
        Symbol::Rule(ridx) => {
            let rule = rule_index(ridx).and_then(|index| rules.get(index));
            let name = rule.map_or("", |rule| rule.snake.as_str());
            push_filled(out, "next_@name@(args);\n", &[("name", name)])
        }
    }
}

// Writes what makes the value, once the arguments are there.
fn write_result<'x>(
    out: &mut String,
    alloc: Global,
    rule: &'x str,
    call: &'x Call,
) -> Result<(), AllocError> {
    match call {
        Call::Value(value) => {
            push_filled(
                out,
                "            Ok(RuleValue::@rule@(@value@))\n",
                &[("rule", rule), ("value", value.as_str())],
            )
        }
        Call::Action(action, passed) => {
            write_call(out, alloc, action.as_str(), passed)?;
            push_filled(
                out,
                "            Ok(RuleValue::@rule@(made))\n",
                &[("rule", rule)],
            )
        }
    }
}

// Writes the call of an action: on a line, if its arguments are short enough.
fn write_call(
    out: &mut String,
    alloc: Global,
    action: &str,
    passed: &[String],
) -> Result<(), AllocError> {
    let mut line = String::from_str(alloc, "at")?;
    for arg in passed {
        push_filled(&mut line, ", @arg@", &[("arg", arg.as_str())])?;
    }
    push_filled(
        out,
        "            let made = actions.@action@(",
        &[("action", action)],
    )?;
    let call_len = action.len().saturating_add(line.len());
    if line.len() <= MAX_ARGS && call_len <= MAX_CALL {
        out.push_str(line.as_str())?;
        return out.push_str(")?;\n");
    }
    out.push_str("\n                at,\n")?;
    for arg in passed {
        push_filled(out, "                @arg@,\n", &[("arg", arg.as_str())])?;
    }
    out.push_str("            )?;\n")
}

// What a function does that takes the value of a rule.
const TAKER: &str = "
    requires { IsRuleNext rule_of @number@ args.old.left }
    ensures { IsTaken args.old (RuleValue.@rule@ result) args.new }
{
    match lrpar_typed::next_value(args) {
        RuleValue::@rule@(value) => value,
@others@    }
}

";

/// Writes the functions that take the values of rules.
pub(crate) fn write_takers(
    out: &mut String,
    alloc: Global,
    rules: &[PlannedRule],
    life: &str,
) -> Result<(), AllocError> {
    let others = if rules.len() > 1 {
        "        _ => unreachable!(),\n"
    } else {
        ""
    };
    for rule in rules.iter().filter(|rule| rule.is_used) {
        write_taker_head(out, alloc, rule, life)?;
        push_filled(
            out,
            TAKER,
            &[
                ("number", rule.number.as_str()),
                ("rule", rule.camel.as_str()),
                ("others", others),
            ],
        )?;
    }
    Ok(())
}

// Writes the signature of a function that takes the value of a rule: on a line, if it is short enough.
fn write_taker_head(
    out: &mut String,
    alloc: Global,
    rule: &PlannedRule,
    life: &str,
) -> Result<(), AllocError> {
    let (borrow, text) = if life.is_empty() {
        ("", "'_")
    } else {
        ("'text, ", "'text")
    };
    let words = [
        ("name", rule.snake.as_str()),
        ("value", rule.value.as_str()),
        ("borrow", borrow),
        ("text", text),
    ];
    let template =
        "fn next_@name@<@borrow@ErrorT: Drop>(args: &mut RuleArgs<'_, '_, @text@, ErrorT>) -> @value@";
    let mut line = String::new(alloc);
    push_filled(&mut line, template, &words)?;
    if line.len() <= MAX_LINE {
        return out.push_str(line.as_str());
    }
    let template =
        "fn next_@name@<@borrow@ErrorT: Drop>(\n    args: &mut RuleArgs<'_, '_, @text@, ErrorT>,\n) -> @value@";
    push_filled(out, template, &words)
}
