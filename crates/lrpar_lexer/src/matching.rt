//! Which of several patterns wins at a place of a text.
ghost use Rattle.std.specs.Prelude.{◌≡◌, ◌<◌, IfOk, IfSome, length, vec_len};
ghost use Rattle.lrpar_lexer.specs.Finding.{FindsBest, FindsLenAt, FindsUnmatched, FindsWinner, FindsWinnerAmong, FindsWinnerTried, TestsTried};
ghost use Rattle.lrpar_lexer.specs.Matching.{better};
ghost use Rattle.lrpar_lexer.specs.RuleTrees.{AreMet};
ghost use Rattle.lrpar_lexer.specs.Searches.{AreSearchesFor, programs_in};

use crate::marks::Marks;
use crate::matcher::Matcher;
use crate::rule::LexRule;
use crate::rule_tree::RuleTree;
use std::alloc::{AllocError, Global};

/// The winner at a place.
#[derive(Clone, Copy, Debug)]
pub struct Winner {
    /// The place of its rule in the list of the rules that are tried, from 0 on.
    pub rule: usize,
    /// The number of bytes of its match.
    pub len: usize,
}

/// Searches for the patterns of several rules at one place of a text.
#[derive(Drop)]
pub struct Matchers<'r> {
    matchers: Vec<Matcher<'r>>,
    tree: RuleTree,
    marks: Marks,
    ghost met: { AreMet tree.nodes.items (programs_in matchers) },
}

impl<'r> Matchers<'r> {
    ghost use Rattle.lrpar_lexer.specs.Matchers.{AreMatchersOf, HasMarksFor, programs_of};

    /// The searches for the patterns of the rules. Takes time and memory for each byte of a pattern that is a text, and for each other rule
    /// and each byte with which a match of it can begin.
    pub fn new<StorageT>(
        alloc: Global,
        rules: &'r [LexRule<StorageT>],
    ) -> Result<Matchers<'r>, AllocError>
        ensures { IfOk result (AreMatchersOf rules.now) }
    {
        let matchers = matchers_of(alloc, rules)?;
        let tree = RuleTree::new(alloc, rules)?;
        let marks = Marks::new(alloc, rules.len())?;
        Ok(Matchers {
            matchers,
            tree,
            marks,
        })
    }

    // The winner at the start of a text, if a pattern matches there.
    pub(crate) fn find_winner(&mut self, rest: &str) -> Option<Winner>
        ensures winner { FindsWinner (programs_of self.old) rest.now result }
        ensures same { programs_of self.new ≡ programs_of self.old }
    {
        find_winner_met(&mut self.matchers, &self.tree, rest)
    }

    /// The winner at the start of a text among the patterns with these indices, if one of them matches there: the longest match, and the
    /// first in the list of indices among several. The winner's `rule` is a place in that list. An index past the last rule has no match.
    /// Looks at each index, but searches only for patterns whose matches can begin with the bytes there.
    pub fn find_winner_among(&mut self, rest: &str, chosen: &[usize]) -> Option<Winner>
        ensures winner { FindsWinnerAmong (programs_of self.old) chosen.now rest.now result }
        ensures same { programs_of self.new ≡ programs_of self.old }
    {
        self.marks.mark(&self.tree, rest);
        let mut best = None;
        'chosen: for (place, index) in chosen.iter().enumerate() {
            let found = self.match_if_marked(*index, rest);
            best = better(best, place, found);
        }
        best
    }

    // The number of bytes that the pattern with this index matches at the start of a text, if there is one and it does. The rules that a
    // walk along the text meets are marked, and others aren't asked.
    fn match_if_marked(&mut self, index: usize, rest: &str) -> Option<usize>
        requires { HasMarksFor rest.now self.old }
        ensures found { FindsLenAt (programs_of self.old) index rest.now result }
        ensures known { IfSome result (λ _. index < vec_len self.old.matchers) }
        ensures same { programs_of self.new ≡ programs_of self.old }
        ensures marked { HasMarksFor rest.now self.new }
    {
        if !self.marks.is_marked(index) {
            return None;
        }
        match_of(&mut self.matchers, index, rest)
    }

    /// The number of bytes of the longest run of characters from byte `at` on at which none of the patterns that are tried matches, if none
    /// matches at `at`: those with the chosen indices, or all patterns if none are chosen. Takes the time of one match at each character of
    /// the run, and at the one after it.
    pub fn measure_unmatched(&mut self, text: &str, at: usize, chosen: Option<&[usize]>) -> usize
        requires { at < length text.now }
        ensures unmatched { FindsUnmatched (programs_of self.old) chosen.entry text.now at result }
        ensures same { programs_of self.new ≡ programs_of self.old }
    {
        let mut len = 1;
        'run: while at + len < text.len() {
            if self.matches_at(text, at + len, chosen) {
                return len;
            }
            len += 1;
        }
        len
    }

    // Whether byte `at` begins a character at which one of the patterns that are tried matches.
    fn matches_at(&mut self, text: &str, at: usize, chosen: Option<&[usize]>) -> bool
        ensures matches { TestsTried (programs_of self.old) chosen.entry text.now at result }
        ensures same { programs_of self.new ≡ programs_of self.old }
    {
        if !text.is_char_boundary(at) {
            return false;
        }
        self.try_patterns(&text[at..], chosen).is_some()
    }

    // The winner at the start of a text among the patterns that are tried.
    fn try_patterns(&mut self, rest: &str, chosen: Option<&[usize]>) -> Option<Winner>
        ensures winner { FindsWinnerTried (programs_of self.old) chosen.entry rest.now result }
        ensures same { programs_of self.new ≡ programs_of self.old }
    {
        match chosen {
            Some(chosen) => self.find_winner_among(rest, chosen),
            None => self.find_winner(rest),
        }
    }
}

// The searches for the patterns of the rules.
fn matchers_of<'r, StorageT>(
    alloc: Global,
    rules: &'r [LexRule<StorageT>],
) -> Result<Vec<Matcher<'r>>, AllocError>
    ensures { IfOk result (AreSearchesFor rules.now) }
{
    let mut matchers = Vec::with_capacity(alloc, rules.len())?;
    'rules: for rule in rules {
        matchers.push(Matcher::new(alloc, &rule.anchored)?)?;
    }
    Ok(matchers)
}

// The winner at the start of a text: the best of the rules that a walk along the text meets.
fn find_winner_met(matchers: &mut Vec<Matcher<'_>>, tree: &RuleTree, rest: &str) -> Option<Winner>
    requires { AreMet tree.now.nodes.items (programs_in matchers.old) }
    ensures winner { FindsWinner (programs_in matchers.old) rest.now result }
    ensures same { programs_in matchers.new ≡ programs_in matchers.old }
{
    let bytes = rest.as_bytes();
    if bytes.is_empty() {
        return None;
    }
    let mut node = tree.first(bytes[0]);
    let mut best = keep_best(matchers, tree.rules(node), rest, None);
    'walk: for byte in &bytes[1..] {
        let Some(next) = tree.next(node, *byte) else {
            return best;
        };
        node = next;
        best = keep_best(matchers, tree.rules(node), rest, best);
    }
    best
}

// The best match so far, or that of one of these rules if it is better.
fn keep_best(
    matchers: &mut Vec<Matcher<'_>>,
    rules: &[usize],
    rest: &str,
    so_far: Option<Winner>,
) -> Option<Winner>
    ensures best { FindsBest (programs_in matchers.old) rules.now rest.now so_far result }
    ensures same { programs_in matchers.new ≡ programs_in matchers.old }
{
    let mut best = so_far;
    'rules: for rule in rules {
        let found = match_of(matchers, *rule, rest);
        best = better(best, *rule, found);
    }
    best
}

// The number of bytes that the pattern with this index matches at the start of a text, if there is one and it does.
fn match_of(matchers: &mut Vec<Matcher<'_>>, index: usize, rest: &str) -> Option<usize>
    ensures found { FindsLenAt (programs_in matchers.old) index rest.now result }
    ensures known { IfSome result (λ _. index < vec_len matchers.old) }
    ensures same { programs_in matchers.new ≡ programs_in matchers.old }
{
    if index < matchers.len() {
        matchers[index].match_len(rest)
    } else {
        None
    }
}

// The better of two: the match of pattern `index` only if it is longer, or as long and earlier in the list.
fn better(best: Option<Winner>, index: usize, found: Option<usize>) -> Option<Winner>
    ensures { result ≡ better best index found }
{
    let Some(len) = found else {
        return best;
    };
    match best {
        Some(winner) if len < winner.len || (len == winner.len && winner.rule <= index) => best,
        _ => Some(Winner { rule: index, len }),
    }
}
