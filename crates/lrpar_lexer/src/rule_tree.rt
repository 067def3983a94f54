//! The rules in a tree, by the bytes with which their matches begin.
ghost use Rattle.std.specs.Prelude.{◌≡◌, ◌<◌, false, IfOk, IfSome, OnOk, length, map, vec_len};
ghost use Rattle.regex_hir.specs.Re.{literal};
ghost use Rattle.regex_meta.specs.Programs.{pattern_of as searched_by};
ghost use Rattle.lrpar_lexer.specs.Anchored.{after_start};
ghost use Rattle.lrpar_lexer.specs.Rules.{anchored_of};
ghost use Rattle.lrpar_lexer.specs.RuleTrees.{AreMet, FindsNoneFrom, HasGrown, IsBranchPushed, IsMetAlong, IsMetFrom, IsMetIn, IsNodePushed, IsRulePushed, IsTree, LeadsToNode, branch_to, next_of, rules_at};

use crate::rule::LexRule;
use regex_hir::{Hir, Look};
use regex_meta::Program;
use std::alloc::{AllocError, Global};

/// How many values a byte has.
const BYTES: usize = 256;

/// The rules in a tree of bytes. A walk along a text goes down by a byte at a time, and meets each rule that can match at the start of the
/// text. A pattern that is a text is at the node of its last byte. Any other is at the node of each byte with which a match can begin.
#[derive(Drop)]
pub(crate) struct RuleTree {
    // The walk begins at the node with the number of the first byte.
    nodes: Vec<Node>,
    ghost whole: { IsTree nodes.items },
}

#[derive(Drop)]
pub(crate) struct Node {
    rules: Vec<usize>,
    branches: Vec<Branch>,
}

/// The node to which a byte leads.
#[derive(Clone, Copy, Drop)]
pub(crate) struct Branch {
    byte: u8,
    node: usize,
}

impl RuleTree {
    /// The tree of the rules. Takes time and memory for each byte of a pattern that is a text, and for each byte with which a match of any
    /// other can begin.
    pub(crate) fn new<StorageT>(
        alloc: Global,
        rules: &[LexRule<StorageT>],
    ) -> Result<RuleTree, AllocError>
        ensures { IfOk result (λ tree. AreMet tree.nodes.items (map anchored_of rules.now)) }
    {
        let mut nodes = first_nodes(alloc)?;
        'rules: for index in 0..rules.len() {
            add(alloc, &mut nodes, index, &rules[index].anchored)?;
        }
        Ok(RuleTree { nodes })
    }

    /// The node of a first byte.
    pub(crate) fn first(&self, byte: u8) -> usize
        ensures first { result ≡ byte }
        ensures within { result < vec_len self.now.nodes }
    {
        usize::from(byte)
    }

    /// The node to which a byte leads from a node.
    pub(crate) fn next(&self, node: usize, byte: u8) -> Option<usize>
        requires { node < vec_len self.now.nodes }
        ensures next { result ≡ next_of self.now.nodes.items node byte }
        ensures within { IfSome result (λ next. next < vec_len self.now.nodes) }
    {
        branch_to(&self.nodes[node].branches, byte)
    }

    /// The rules at a node.
    pub(crate) fn rules(&self, node: usize) -> &[usize]
        requires { node < vec_len self.now.nodes }
        ensures { result.now ≡ rules_at self.now.nodes.items node }
    {
        &self.nodes[node].rules
    }
}

// A node for each byte, without rules.
fn first_nodes(alloc: Global) -> Result<Vec<Node>, AllocError>
    ensures { IfOk result (λ nodes. IsTree nodes.items) }
{
    let mut nodes = Vec::with_capacity(alloc, BYTES)?;
    'bytes: for _byte in 0..BYTES {
        push_node(alloc, &mut nodes)?;
    }
    Ok(nodes)
}

// One more node, without rules.
fn push_node(alloc: Global, nodes: &mut Vec<Node>) -> Result<(), AllocError>
    ensures { OnOk result (IsNodePushed nodes.old.items nodes.new.items) }
{
    nodes.push(Node {
        rules: Vec::new(alloc),
        branches: Vec::new(alloc),
    })?;
    Ok(())
}

// Adds a rule where a walk along each text at whose start it can match meets it.
fn add(
    alloc: Global,
    nodes: &mut Vec<Node>,
    rule: usize,
    program: &Program,
) -> Result<(), AllocError>
    requires { IsTree nodes.old.items }
    ensures grows { OnOk result (HasGrown nodes.old nodes.new) }
    ensures met { OnOk result (IsMetIn nodes.new program.now rule) }
{
    match plain_text(program) {
        Some(text) => add_text(alloc, nodes, rule, text),
        None => add_starts(nodes, rule, program),
    }
}

// Adds a rule at the node of each byte with which a match can begin.
fn add_starts(nodes: &mut Vec<Node>, rule: usize, program: &Program) -> Result<(), AllocError>
    requires { IsTree nodes.old.items }
    ensures grows { OnOk result (HasGrown nodes.old nodes.new) }
    ensures met { OnOk result (IsMetIn nodes.new program.now rule) }
{
    'bytes: for byte in 0..BYTES {
        add_start(nodes, byte, rule, program)?;
    }
    Ok(())
}

// Adds a rule at the node of a byte, if a match can begin with it.
fn add_start(
    nodes: &mut Vec<Node>,
    byte: usize,
    rule: usize,
    program: &Program,
) -> Result<(), AllocError>
    requires byte { byte < 256 }
    requires within { byte < vec_len nodes.old }
    ensures grows { OnOk result (HasGrown nodes.old nodes.new) }
    ensures met { OnOk result (IsMetFrom nodes.new byte program.now rule) }
{
    if can_begin(program, byte as u8) {
        push_rule(nodes, byte, rule)?;
    }
    Ok(())
}

// Adds a rule at the node of the last byte of its text.
fn add_text(
    alloc: Global,
    nodes: &mut Vec<Node>,
    rule: usize,
    text: &[u8],
) -> Result<(), AllocError>
    requires tree { IsTree nodes.old.items }
    requires some { 0 < length text.now }
    ensures grows { OnOk result (HasGrown nodes.old nodes.new) }
    ensures met { OnOk result (IsMetAlong nodes.new text.now rule) }
{
    let mut node = usize::from(text[0]);
    'bytes: for byte in &text[1..] {
        node = next_node(alloc, nodes, node, *byte)?;
    }
    push_rule(nodes, node, rule)
}

// The node to which a byte leads from a node. It is made if there is none.
fn next_node(
    alloc: Global,
    nodes: &mut Vec<Node>,
    node: usize,
    byte: u8,
) -> Result<usize, AllocError>
    requires tree { IsTree nodes.old.items }
    requires within { node < vec_len nodes.old }
    ensures grows { OnOk result (HasGrown nodes.old nodes.new) }
    ensures leads { IfOk result (LeadsToNode nodes.new node byte) }
{
    if let Some(next) = branch_to(&nodes[node].branches, byte) {
        return Ok(next);
    }
    let next = nodes.len();
    push_node(alloc, nodes)?;
    push_branch(nodes, node, Branch { byte, node: next })?;
    Ok(next)
}

// Adds a branch after those of a node.
fn push_branch(nodes: &mut Vec<Node>, node: usize, branch: Branch) -> Result<(), AllocError>
    requires { node < vec_len nodes.old }
    ensures { OnOk result (IsBranchPushed nodes.old.items node branch nodes.new.items) }
{
    nodes[node].branches.push(branch)?;
    Ok(())
}

// Adds a rule after those of a node.
fn push_rule(nodes: &mut Vec<Node>, node: usize, rule: usize) -> Result<(), AllocError>
    requires { node < vec_len nodes.old }
    ensures { OnOk result (IsRulePushed nodes.old.items node rule nodes.new.items) }
{
    nodes[node].rules.push(rule)?;
    Ok(())
}

// The node of the branch with this byte.
fn branch_to(branches: &[Branch], byte: u8) -> Option<usize>
    ensures { result ≡ branch_to branches.now byte }
{
    'branches: for branch in branches {
        if branch.byte == byte {
            return Some(branch.node);
        }
    }
    None
}

/// The text that the pattern is, if it is one and isn't empty.
pub(crate) fn plain_text(program: &Program) -> Option<&[u8]>
    ensures text { IfSome result (λ text. searched_by program.now ≡ after_start (literal text.now)) }
    ensures some { IfSome result (λ text. 0 < length text.now) }
{
    let Hir::Concat(parts) = &program.hir else {
        return None;
    };
    match parts.as_slice() {
        [Hir::Look(Look::Start), Hir::Literal(text)] if !text.is_empty() => Some(text),
        _ => None,
    }
}

// Whether a match can begin with the byte.
fn can_begin(program: &Program, byte: u8) -> bool
    ensures { result ≡ false → FindsNoneFrom program.now byte }
{
    match &program.first {
        Some(bytes) => bytes.find_near(&[byte], 0, 1).is_some(),
        None => true,
    }
}
