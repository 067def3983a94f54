//! Marks of the rules that a walk along a text meets.
ghost use Rattle.std.specs.Prelude.{◌≡◌, ◌∷◌, [], false, Some, slice_get};
ghost use Rattle.lrpar_lexer.specs.Marks.{AddsMarks, AreMarked};

use crate::rule_tree::RuleTree;
use std::alloc::{AllocError, Global};

/// A mark for each rule.
#[derive(Drop)]
pub(crate) struct Marks {
    marks: Vec<bool>,
}

impl Marks {
    /// No marks of this many rules.
    pub(crate) fn new(alloc: Global, rules: usize) -> Result<Marks, AllocError> {
        let marks = Vec::from_elem(alloc, false, rules)?;
        Ok(Marks { marks })
    }

    /// Marks the rules that a walk along the text meets. The others lose their marks; no clause promises this, since a rule that is asked
    /// in vain changes nothing.
    pub(crate) fn mark(&mut self, tree: &RuleTree, rest: &str)
        ensures { AreMarked tree.now.nodes.items rest.now self.new.marks.items }
    {
        self.marks.fill(false);
        mark_met(&mut self.marks, tree, rest);
    }

    /// Whether the rule is marked. A rule that has no mark counts as marked.
    pub(crate) fn is_marked(&self, rule: usize) -> bool
        ensures { result ≡ false → slice_get self.now.marks.items rule ≡ Some false }
    {
        rule >= self.marks.len() || self.marks[rule]
    }
}

// Marks the rules that a walk along the text meets.
fn mark_met(marks: &mut Vec<bool>, tree: &RuleTree, rest: &str)
    ensures { AreMarked tree.now.nodes.items rest.now marks.new.items }
{
    let bytes = rest.as_bytes();
    if bytes.is_empty() {
        return;
    }
    let mut node = tree.first(bytes[0]);
    mark_rules(marks, tree.rules(node));
    'walk: for byte in &bytes[1..] {
        let Some(next) = tree.next(node, *byte) else {
            return;
        };
        node = next;
        mark_rules(marks, tree.rules(node));
    }
}

// Marks these rules.
fn mark_rules(marks: &mut Vec<bool>, rules: &[usize])
    ensures { AddsMarks rules.now marks.old.items marks.new.items }
{
    'rules: for rule in rules {
        mark_rule(marks, *rule);
    }
}

// Marks a rule, if it has a mark.
fn mark_rule(marks: &mut Vec<bool>, rule: usize)
    ensures { AddsMarks (rule ∷ []) marks.old.items marks.new.items }
{
    if rule < marks.len() {
        marks[rule] = true;
    }
}
