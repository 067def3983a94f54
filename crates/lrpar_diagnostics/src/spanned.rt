//! Texts of errors and warnings: a block for each of their places.
ghost use Rattle.std.specs.Prelude.{◌≡◌, ◌-◌, ◌↔◌, List, ℕ, IfOk, IsErrOf, IsTrue, OnOk};
ghost use Rattle.std.specs.List.{AllByRecursion};
ghost use Rattle.lrpar_grammar_places.specs.Lines.{line_of};
ghost use Rattle.lrpar_grammar_places.specs.Span.{Extent};
ghost use Rattle.lrpar_grammar_places.specs.Strings.{Appends, HasText};
ghost use Rattle.lrpar_grammar_places.specs.declared.span.SpansKind.{SpansKind};
ghost use Rattle.lrpar_grammar.specs.SpansFit.{IsPartOf};
ghost use Rattle.lrpar_diagnostics.specs.Blocks.{HasSeveralSpans, IsShown, ShowsThing, blocks_after, dots, label, next_block, spanned_text};
ghost use Rattle.lrpar_diagnostics.specs.declared.fault.DiagnosticFault.TheVariants.{SeveralSpans};

use crate::fault::{DiagnosticError, DiagnosticFault};
use crate::formatter::SpannedDiagnosticFormatter;
use crate::source::Source;
use lrpar_grammar_places::span::{Span, Spanned, SpansKind};
use std::alloc::{AllocError, Global};
use std::error::Error;
use std::fmt::Display;

/// What makes texts of errors and warnings that lie at places of a text.
pub trait DiagnosticFormatter {
    /// Whether it can show these places.
    ghost shows: { Self → List Extent → Type 0 };

    /// The text that shows places of this kind, the first one with a message.
    ghost shown: { Self → SpansKind → List Extent → List ℕ → List ℕ };

    /// The error as one that prints with its places.
    ///
    /// `SeveralSpans` comes if and only if the places are those of an error and more than one, before anything else is done.
    /// `Memory` comes if memory runs out, or if the error's own `Display` fails.
    fn format_error<E: Spanned + Error>(
        &self,
        alloc: Global,
        e: E,
    ) -> Result<DiagnosticError, DiagnosticFault>
        requires { shows self.now (E.places e) }
        ensures text { IfOk result (IsShown (shown self.now) E.kind E.places E.output e) }
        ensures several { IsErrOf result SeveralSpans ↔ HasSeveralSpans (E.kind e) (E.places e) };

    /// The text of a warning, as that of an error.
    fn format_warning<W: Spanned + Display + Drop>(
        &self,
        alloc: Global,
        w: W,
    ) -> Result<String, DiagnosticFault>
        requires { shows self.now (W.places w) }
        ensures text { IfOk result (ShowsThing (shown self.now) W.kind W.places W.output w) }
        ensures several { IsErrOf result SeveralSpans ↔ HasSeveralSpans (W.kind w) (W.places w) };
}

impl<'a> DiagnosticFormatter for SpannedDiagnosticFormatter<'a> {
    ghost shows = { λ f spans. AllByRecursion (IsPartOf f.text) spans };

    ghost shown = { λ f. spanned_text f.text };

    fn format_error<E: Spanned + Error>(
        &self,
        alloc: Global,
        e: E,
    ) -> Result<DiagnosticError, DiagnosticFault> {
        Ok(DiagnosticError::new(self.source.spanned(alloc, &e)?))
    }

    fn format_warning<W: Spanned + Display + Drop>(
        &self,
        alloc: Global,
        w: W,
    ) -> Result<String, DiagnosticFault> {
        self.source.spanned(alloc, &w)
    }
}

impl<'a> Source<'a> {
    // The text of an error or a warning.
    fn spanned<T: Spanned + Display>(
        &self,
        alloc: Global,
        thing: &T,
    ) -> Result<String, DiagnosticFault>
        requires { AllByRecursion (IsPartOf self.now.lines) (T.places thing.now) }
        ensures text { IfOk result (ShowsThing (spanned_text self.now.lines) T.kind T.places T.output thing.now) }
        ensures several { IsErrOf result SeveralSpans ↔ HasSeveralSpans (T.kind thing.now) (T.places thing.now) }
    {
        if has_several_spans(thing.spanskind(), thing.spans()) {
            return Err(DiagnosticFault::SeveralSpans);
        }
        let message = thing.to_string(alloc)?;
        Ok(self.shown(alloc, thing.spanskind(), thing.spans(), message.as_str())?)
    }

    // The blocks of the places, the first one with the message.
    fn shown(
        &self,
        alloc: Global,
        kind: SpansKind,
        spans: &[Span],
        message: &str,
    ) -> Result<String, AllocError>
        requires { AllByRecursion (IsPartOf self.now.lines) spans.now }
        ensures { IfOk result (HasText (spanned_text self.now.lines kind spans.now message.now)) }
    {
        let mut out = String::new(alloc);
        let Some((first, others)) = spans.split_first() else {
            return Ok(out);
        };
        self.push_block(&mut out, self.dots(*first, others), *first, message, '^')?;
        self.push_blocks(&mut out, alloc, kind, others)?;
        Ok(out)
    }

    // Adds a block for each place but the first one, on a new line.
    fn push_blocks(
        &self,
        out: &mut String,
        alloc: Global,
        kind: SpansKind,
        spans: &[Span],
    ) -> Result<(), AllocError>
        requires { AllByRecursion (IsPartOf self.now.lines) spans.now }
        ensures { OnOk result (Appends out.old out.new (blocks_after self.now.lines kind 2 spans.now)) }
    {
        let mut rest = spans;
        while let Some((span, others)) = rest.split_first() {
            let number = spans.len() - others.len() + 1;
            self.push_labelled(out, alloc, kind, number, *span, others)?;
            rest = others;
        }
        Ok(())
    }

    // Adds the block of the place of this number, on a new line.
    fn push_labelled(
        &self,
        out: &mut String,
        alloc: Global,
        kind: SpansKind,
        number: usize,
        span: Span,
        others: &[Span],
    ) -> Result<(), AllocError>
        requires span { IsPartOf self.now.lines span }
        requires others { AllByRecursion (IsPartOf self.now.lines) others.now }
        ensures { OnOk result (Appends out.old out.new (next_block self.now.lines kind number span others.now)) }
    {
        let label = label(alloc, kind, number)?;
        out.push('\n')?;
        self.push_block(out, self.dots(span, others), span, label.as_str(), '^')
    }

    // Dots, if the first of the other places starts more than one line further on.
    fn dots(&self, span: Span, others: &[Span]) -> &'static str
        requires span { IsPartOf self.now.lines span }
        requires others { AllByRecursion (IsPartOf self.now.lines) others.now }
        ensures { result.now ≡ dots self.now.lines span others.now }
    {
        match others.split_first() {
            Some((next, _)) if self.lines_between(span, *next) > 1 => "...",
            _ => "",
        }
    }

    // How many lines further on the next place starts.
    fn lines_between(&self, span: Span, next: Span) -> usize
        requires span { IsPartOf self.now.lines span }
        requires next { IsPartOf self.now.lines next }
        ensures { result ≡ line_of self.now.lines next.start - line_of self.now.lines span.start }
    {
        let line = self.lines.number(span.start());
        self.lines.number(next.start()).saturating_sub(line)
    }
}

// The label of the place of this number, which isn't the first.
fn label(alloc: Global, kind: SpansKind, number: usize) -> Result<String, AllocError>
    ensures { IfOk result (HasText (label kind number)) }
{
    match kind {
        SpansKind::DuplicationError => {
            let mut label = SpannedDiagnosticFormatter::ordinal(alloc, number)?;
            label.push_str(" occurrence")?;
            Ok(label)
        }
        SpansKind::Error | SpansKind::Other => String::from_str(alloc, "Unrecognized spanskind"),
    }
}

// Whether an error has more than one place.
fn has_several_spans(kind: SpansKind, spans: &[Span]) -> bool
    ensures { IsTrue result ↔ HasSeveralSpans kind spans.now }
{
    match kind {
        SpansKind::Error => spans.len() > 1,
        SpansKind::DuplicationError | SpansKind::Other => false,
    }
}
