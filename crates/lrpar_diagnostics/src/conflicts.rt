//! Texts of conflicts.
ghost use Rattle.std.specs.Prelude.{◌≡◌, ◌<◌, ◌≤◌, List, ℕ, IfOk, IfSome, OnOk, length};
ghost use Rattle.lrpar_grammar_places.specs.Strings.{Appends, HasText};
ghost use Rattle.lrpar_grammar.specs.Grammar.{end_token, prods_len, rules_len, tokens_len};
ghost use Rattle.lrpar_grammar.specs.SpansFit.{IsPartOf, NamesFit, SpansFit};
ghost use Rattle.lrpar_table_rows.specs.ConflictsFit.{ConflictsFit, ReductionsFit, ShiftFits};
ghost use Rattle.lrpar_table_rows.specs.PlainConflicts.{reduce_reduce_of, shift_reduce_of};
ghost use Rattle.lrpar_diagnostics.specs.ConflictText.{by_line, conflicts_text, dollar_span, group_label, labelled, shift_or_reduction, shown_name, shown_span, shown_spans, two_reductions};
ghost use Rattle.lrpar_diagnostics.specs.StoredConflicts.{AllReductionsFit, AllShiftsFit, IsDollarSpan, IsFirstGroup, PlacesRule, labelled_rule, labelled_token, lines_text, reductions_text, reductions_texts, shift_or_reduce_text, shifts_texts, symbols_text, token_as_lookahead, token_or_rule_line, token_or_rule_text, two_rules_line, two_rules_text};
ghost use Rattle.lrpar_diagnostics.specs.Underline.{FollowInOrder};

use crate::formatter::SpannedDiagnosticFormatter;
use crate::source::Source;
use lrpar_grammar::grammar::YaccGrammar;
use lrpar_grammar_places::span::{PIdx, RIdx, Span, StIdx, StorageIndex, TIdx};
use lrpar_table_rows::table::{Conflicts, StateGraph, StateTable};
use std::alloc::{AllocError, Global};

/// Two reductions at a token: the token, the productions and the state.
type ReduceReduce<StorageT> = (
    TIdx<StorageT>,
    PIdx<StorageT>,
    PIdx<StorageT>,
    StIdx<StorageT>,
);

/// A shift of a token and a reduction: the token, the production and the state.
type ShiftReduce<StorageT> = (TIdx<StorageT>, PIdx<StorageT>, StIdx<StorageT>);

impl<'a> SpannedDiagnosticFormatter<'a> {
    /// The texts of the conflicts, those between two reductions first, in the order in which they are listed. Each names the
    /// rules and the token, and the place of the first rule, as `file_location_msg` does, and then shows the places of the rules
    /// and the token, and, for a shift and a reduction, the symbols of the production that is reduced, or its own place if it has
    /// none. An empty line ends each. A token is shown by its name; the end token by `$`, at the place of a token of that name,
    /// if there is one.
    ///
    /// The grammar's places have to fit the text (`YaccGrammar::spans_fit`), and the conflicts the grammar (`Conflicts::fit`).
    /// The item sets and the table aren't looked at. Takes time linear in the tokens and in the text that is made, and
    /// logarithmic in the number of lines for each line of that, and memory for that text. An `Err` comes if an allocation fails.
    pub fn format_conflicts<StorageT: StorageIndex>(
        &self,
        alloc: Global,
        grm: &YaccGrammar<StorageT>,
        c: &Conflicts<StorageT>,
        _sgraph: &StateGraph<StorageT>,
        _stable: &StateTable<StorageT>,
    ) -> Result<String, AllocError>
        requires spans { SpansFit grm.now (self.now).text }
        requires conflicts { ConflictsFit grm.now c.now }
        ensures { IfOk result (HasText (conflicts_text self.now grm.now c.now)) }
    {
        let mut out = String::new(alloc);
        self.push_reduce_reduce(&mut out, grm, c.rr_conflicts())?;
        self.push_shift_reduce(&mut out, grm, c.sr_conflicts())?;
        Ok(out)
    }

    // Adds the texts of conflicts between two reductions.
    fn push_reduce_reduce<StorageT: StorageIndex>(
        &self,
        out: &mut String,
        grm: &YaccGrammar<StorageT>,
        conflicts: &[ReduceReduce<StorageT>],
    ) -> Result<(), AllocError>
        requires names { NamesFit grm.now (self.now).text }
        requires fit { AllReductionsFit StorageT.index grm.now conflicts.now }
        ensures { OnOk result (Appends out.old out.new (reductions_texts StorageT.index self.now grm.now conflicts.now)) }
    {
        let dollar = dollar_span(grm);
        let mut rest = conflicts;
        while let Some((conflict, others)) = rest.split_first() {
            self.push_reductions(out, grm, *conflict, dollar.as_ref())?;
            rest = others;
        }
        Ok(())
    }

    // Adds the text of a conflict between two reductions. `dollar` is the place of a token of the name `$`.
    fn push_reductions<StorageT: StorageIndex>(
        &self,
        out: &mut String,
        grm: &YaccGrammar<StorageT>,
        conflict: ReduceReduce<StorageT>,
        dollar: Option<&Span>,
    ) -> Result<(), AllocError>
        requires names { NamesFit grm.now (self.now).text }
        requires fit { ReductionsFit grm.now (reduce_reduce_of StorageT.index conflict) }
        requires dollar { IsDollarSpan grm.now dollar }
        ensures { OnOk result (Appends out.old out.new (reductions_text StorageT.index self.now grm.now conflict)) }
    {
        let (token, first, second, _) = conflict;
        let first = grm.prod_to_rule(first);
        let second = grm.prod_to_rule(second);
        self.push_rules(out, grm, first, second, token, dollar)
    }

    // Adds the text of a conflict between reductions by two rules at a token.
    fn push_rules<StorageT: StorageIndex>(
        &self,
        out: &mut String,
        grm: &YaccGrammar<StorageT>,
        first: RIdx<StorageT>,
        second: RIdx<StorageT>,
        token: TIdx<StorageT>,
        dollar: Option<&Span>,
    ) -> Result<(), AllocError>
        requires names { NamesFit grm.now (self.now).text }
        requires first { StorageT.index first.0 < rules_len grm.now }
        requires second { StorageT.index second.0 < rules_len grm.now }
        requires token { StorageT.index token.0 < tokens_len grm.now }
        requires dollar { IsDollarSpan grm.now dollar }
        ensures { OnOk result (Appends out.old out.new (two_rules_text StorageT.index self.now grm.now first second token)) }
    {
        self.push_reduce_reduce_line(out, grm, first, second, token)?;
        self.push_rule(out, grm, first, "First reduce")?;
        self.push_rule(out, grm, second, "Second reduce")?;
        self.push_lookahead(out, grm, token, dollar)?;
        out.push('\n')
    }

    // Adds the place of a lookahead, underlined, if it has one.
    fn push_lookahead<StorageT: StorageIndex>(
        &self,
        out: &mut String,
        grm: &YaccGrammar<StorageT>,
        token: TIdx<StorageT>,
        dollar: Option<&Span>,
    ) -> Result<(), AllocError>
        requires names { NamesFit grm.now (self.now).text }
        requires token { StorageT.index token.0 < tokens_len grm.now }
        requires dollar { IsDollarSpan grm.now dollar }
        ensures { OnOk result (Appends out.old out.new (token_as_lookahead StorageT.index self.now grm.now token)) }
    {
        match shown_span(grm, token, dollar) {
            Some(span) => self.source.push_labelled_line(out, span, "Lookahead"),
            None => Ok(()),
        }
    }

    // Adds the first line of a conflict between reductions by two rules at a token.
    fn push_reduce_reduce_line<StorageT: StorageIndex>(
        &self,
        out: &mut String,
        grm: &YaccGrammar<StorageT>,
        first: RIdx<StorageT>,
        second: RIdx<StorageT>,
        token: TIdx<StorageT>,
    ) -> Result<(), AllocError>
        requires names { NamesFit grm.now (self.now).text }
        requires first { StorageT.index first.0 < rules_len grm.now }
        requires second { StorageT.index second.0 < rules_len grm.now }
        requires token { StorageT.index token.0 < tokens_len grm.now }
        ensures { OnOk result (Appends out.old out.new (two_rules_line StorageT.index self.now grm.now first second token)) }
    {
        push_two_reductions(
            out,
            grm.rule_name_str(first),
            grm.rule_name_str(second),
            shown_name(grm, token),
        )?;
        self.push_rule_place(out, grm, first)
    }

    // Adds the place of a rule, and a line feed.
    fn push_rule_place<StorageT: StorageIndex>(
        &self,
        out: &mut String,
        grm: &YaccGrammar<StorageT>,
        rule: RIdx<StorageT>,
    ) -> Result<(), AllocError>
        requires names { NamesFit grm.now (self.now).text }
        requires rule { StorageT.index rule.0 < rules_len grm.now }
        ensures { OnOk result (PlacesRule StorageT.index self.now grm.now rule out.old out.new) }
    {
        self.push_position(out, grm.rule_name_span(rule).start())?;
        out.push('\n')
    }

    // Adds the name of a rule at its place, underlined with a label.
    fn push_rule<StorageT: StorageIndex>(
        &self,
        out: &mut String,
        grm: &YaccGrammar<StorageT>,
        rule: RIdx<StorageT>,
        label: &str,
    ) -> Result<(), AllocError>
        requires names { NamesFit grm.now (self.now).text }
        requires rule { StorageT.index rule.0 < rules_len grm.now }
        ensures { OnOk result (Appends out.old out.new (labelled_rule StorageT.index self.now grm.now rule label.now)) }
    {
        self.source
            .push_labelled_line(out, grm.rule_name_span(rule), label)
    }

    // Adds the texts of conflicts between a shift and a reduction.
    fn push_shift_reduce<StorageT: StorageIndex>(
        &self,
        out: &mut String,
        grm: &YaccGrammar<StorageT>,
        conflicts: &[ShiftReduce<StorageT>],
    ) -> Result<(), AllocError>
        requires spans { SpansFit grm.now (self.now).text }
        requires fit { AllShiftsFit StorageT.index grm.now conflicts.now }
        ensures { OnOk result (Appends out.old out.new (shifts_texts StorageT.index self.now grm.now conflicts.now)) }
    {
        let mut rest = conflicts;
        while let Some((conflict, others)) = rest.split_first() {
            self.push_shift_reduction(out, grm, *conflict)?;
            rest = others;
        }
        Ok(())
    }

    // Adds the text of a conflict between a shift and a reduction.
    fn push_shift_reduction<StorageT: StorageIndex>(
        &self,
        out: &mut String,
        grm: &YaccGrammar<StorageT>,
        conflict: ShiftReduce<StorageT>,
    ) -> Result<(), AllocError>
        requires spans { SpansFit grm.now (self.now).text }
        requires fit { ShiftFits grm.now (shift_reduce_of StorageT.index conflict) }
        ensures { OnOk result (Appends out.old out.new (shift_or_reduce_text StorageT.index self.now grm.now conflict)) }
    {
        let (token, prod, _) = conflict;
        self.push_shift(out, grm, token, grm.prod_to_rule(prod), prod)
    }

    // Adds the text of a conflict between the shift of a token and a reduction by a production of a rule.
    fn push_shift<StorageT: StorageIndex>(
        &self,
        out: &mut String,
        grm: &YaccGrammar<StorageT>,
        token: TIdx<StorageT>,
        rule: RIdx<StorageT>,
        prod: PIdx<StorageT>,
    ) -> Result<(), AllocError>
        requires spans { SpansFit grm.now (self.now).text }
        requires token { StorageT.index token.0 < end_token grm.now }
        requires rule { StorageT.index rule.0 < rules_len grm.now }
        requires prod { StorageT.index prod.0 < prods_len grm.now }
        ensures { OnOk result (Appends out.old out.new (token_or_rule_text StorageT.index self.now grm.now token rule prod)) }
    {
        self.push_shift_reduce_line(out, grm, token, rule)?;
        self.push_token(out, grm, token, "Shift")?;
        self.push_rule(out, grm, rule, "Reduced rule")?;
        self.push_symbols(out, grm, prod)?;
        out.push('\n')
    }

    // Adds the place of a token, underlined with a label. It isn't the end token.
    fn push_token<StorageT: StorageIndex>(
        &self,
        out: &mut String,
        grm: &YaccGrammar<StorageT>,
        token: TIdx<StorageT>,
        label: &str,
    ) -> Result<(), AllocError>
        requires names { NamesFit grm.now (self.now).text }
        requires token { StorageT.index token.0 < end_token grm.now }
        ensures { OnOk result (Appends out.old out.new (labelled_token StorageT.index self.now grm.now token label.now)) }
    {
        let span = grm.token_span(token).unwrap();
        self.source.push_labelled_line(out, span, label)
    }

    // Adds the lines of a production's symbols, underlined.
    fn push_symbols<StorageT: StorageIndex>(
        &self,
        out: &mut String,
        grm: &YaccGrammar<StorageT>,
        prod: PIdx<StorageT>,
    ) -> Result<(), AllocError>
        requires spans { SpansFit grm.now (self.now).text }
        requires prod { StorageT.index prod.0 < prods_len grm.now }
        ensures { OnOk result (Appends out.old out.new (symbols_text StorageT.index self.now grm.now prod)) }
    {
        self.source
            .push_reduced(out, grm.prod_span(prod), grm.symbol_spans(prod))
    }

    // Adds the first line of a conflict between the shift of a token and a reduction by a rule.
    fn push_shift_reduce_line<StorageT: StorageIndex>(
        &self,
        out: &mut String,
        grm: &YaccGrammar<StorageT>,
        token: TIdx<StorageT>,
        rule: RIdx<StorageT>,
    ) -> Result<(), AllocError>
        requires names { NamesFit grm.now (self.now).text }
        requires token { StorageT.index token.0 < tokens_len grm.now }
        requires rule { StorageT.index rule.0 < rules_len grm.now }
        ensures { OnOk result (Appends out.old out.new (token_or_rule_line StorageT.index self.now grm.now token rule)) }
    {
        push_shift_or_reduction(out, shown_name(grm, token), grm.rule_name_str(rule))?;
        self.push_rule_place(out, grm, rule)
    }
}

impl<'a> Source<'a> {
    // Adds the lines of a part, underlined with a label, and a line feed.
    fn push_labelled_line(
        &self,
        out: &mut String,
        span: Span,
        label: &str,
    ) -> Result<(), AllocError>
        requires { IsPartOf self.now.lines span }
        ensures { OnOk result (Appends out.old out.new (labelled self.now.lines span label.now)) }
    {
        self.push_block(out, "", span, label, '^')?;
        out.push('\n')
    }

    // Adds the lines of a production: those of its symbols, or, without any, its own.
    fn push_reduced(&self, out: &mut String, own: Span, symbols: &[Span]) -> Result<(), AllocError>
        requires own { IsPartOf self.now.lines own }
        requires symbols { FollowInOrder self.now.lines 0 symbols.now }
        ensures { OnOk result (Appends out.old out.new (lines_text self.now.lines (shown_spans own symbols.now))) }
    {
        if symbols.is_empty() {
            self.push_groups(out, &[own])
        } else {
            self.push_groups(out, symbols)
        }
    }

    // Adds the lines on which the parts start, each with its parts underlined.
    fn push_groups(&self, out: &mut String, spans: &[Span]) -> Result<(), AllocError>
        requires { FollowInOrder self.now.lines 0 spans.now }
        ensures { OnOk result (Appends out.old out.new (lines_text self.now.lines spans.now)) }
    {
        let mut rest = spans;
        while !rest.is_empty() {
            let (group, others) = rest.split_at(self.on_first_line(rest));
            self.push_on_line(out, group, group_label(others), '-')?;
            out.push('\n')?;
            rest = others;
        }
        Ok(())
    }

    // How many parts start on the line of the first one, up to the first that doesn't.
    fn on_first_line(&self, spans: &[Span]) -> usize
        requires some { 0 < length spans.now }
        requires order { FollowInOrder self.now.lines 0 spans.now }
        ensures within { (0 < result) × (result ≤ length spans.now) }
        ensures group { IsFirstGroup self.now.lines spans.now result }
    {
        let line = self.line_start(spans[0].start());
        for (i, span) in spans.iter().enumerate() {
            if self.line_start(span.start()) != line {
                return i;
            }
        }
        spans.len()
    }
}

// The label of the symbols of a production on one line: none, but on the last line.
fn group_label(others: &[Span]) -> &'static str
    ensures { (src : List ℕ) → result.now ≡ group_label (by_line src others.now) }
{
    if others.is_empty() {
        "Reduced productions"
    } else {
        ""
    }
}

// Adds the message of a conflict between reductions by two rules at a token.
fn push_two_reductions(
    out: &mut String,
    first: &str,
    second: &str,
    token: &str,
) -> Result<(), AllocError>
    ensures { OnOk result (Appends out.old out.new (two_reductions first.now second.now token.now)) }
{
    write!(
        out,
        "Reduce/Reduce conflict, can reduce '{first}' or '{second}' with lookahead '{token}'"
    )
}

// Adds the message of a conflict between the shift of a token and a reduction by a rule.
fn push_shift_or_reduction(out: &mut String, token: &str, rule: &str) -> Result<(), AllocError>
    ensures { OnOk result (Appends out.old out.new (shift_or_reduction token.now rule.now)) }
{
    write!(
        out,
        "Shift/Reduce conflict, can shift '{token}' or reduce '{rule}'"
    )
}

// A token as conflicts name it: by its name, and the end token by `$`.
fn shown_name<StorageT: StorageIndex>(grm: &YaccGrammar<StorageT>, token: TIdx<StorageT>) -> &str
    requires { StorageT.index token.0 < tokens_len grm.now }
    ensures { result.now ≡ shown_name grm.now (StorageT.index token.0) }
{
    grm.token_name(token).unwrap_or("$")
}

// The place of a token: that of the end token is that of `$`.
fn shown_span<StorageT: StorageIndex>(
    grm: &YaccGrammar<StorageT>,
    token: TIdx<StorageT>,
    dollar: Option<&Span>,
) -> Option<Span>
    requires token { StorageT.index token.0 < tokens_len grm.now }
    requires dollar { IsDollarSpan grm.now dollar }
    ensures span { result ≡ shown_span grm.now (StorageT.index token.0) }
    ensures part { (src : List ℕ) → NamesFit grm.now src → IfSome result (IsPartOf src) }
{
    match grm.token_span(token) {
        Some(span) => Some(span),
        None => dollar.copied(),
    }
}

// The place of the first token of the name `$`.
fn dollar_span<StorageT: StorageIndex>(grm: &YaccGrammar<StorageT>) -> Option<Span>
    ensures { result ≡ dollar_span grm.now }
{
    match grm.token_idx("$") {
        Some(token) => grm.token_span(token),
        None => None,
    }
}
