//! A fault with its place.
ghost use Rattle.std.specs.Prelude.{◌≡◌, ◌∷◌, []};
ghost use Rattle.lrpar_grammar_places.specs.Span.{IsPartOf};
ghost use Rattle.lrpar_report_lines.specs.Labels.{label_spans};
ghost use Rattle.lrpar_report_lines.specs.Places.{IsFirstPlace};

use crate::places::part_of;
use crate::reports::Report;
use lrpar_grammar_places::span::{Span, Spanned, SpansKind};
use std::error::Error;
use std::marker::Model;
use std::{fmt, slice};

/// A fault with the place of a text that it is about, which makes it a [`Spanned`] error: `DiagnosticFormatter::format_error` shows it
/// at that place. It prints as its fault does.
#[derive(Debug, Drop)]
pub struct PlacedFault<E> {
    fault: E,
    place: Span,
}

impl<E> Model for PlacedFault<E> {
    ghost use Rattle.lrpar_report_lines.specs.Places.{FaultPlace};

    ghost Value = { FaultPlace E };

    ghost view = { λ placed. record { fault = placed.fault; place = placed.place } };
}

impl<E> PlacedFault<E> {
    /// The fault at the place of the report's first label. An end of that place that is after the text's end or inside a character is
    /// moved ([`part_of`]). If the report has no labels, the place is the empty part at the start of the text. Takes constant time.
    pub fn new(text: &str, report: &Report, fault: E) -> Self
        ensures fault { result.fault ≡ fault }
        ensures part { IsPartOf text.now result.place }
        ensures place { IsFirstPlace text.now (label_spans report.now) result.place }
    {
        let place = match report.labels.split_first() {
            Some((label, _)) => part_of(text, label.span),
            None => part_of(text, Span::new(0, 0)),
        };
        PlacedFault { fault, place }
    }

    /// The fault.
    pub fn fault(&self) -> &E
        ensures { result.now ≡ self.now.fault }
    {
        &self.fault
    }
}

impl<E> Spanned for PlacedFault<E> {
    ghost use Rattle.lrpar_grammar_places.specs.declared.span.SpansKind.TheVariants.{Error as ErrorKind};

    ghost places = { λ placed. placed.place ∷ [] };

    ghost kind = { λ _. ErrorKind };

    fn spans(&self) -> &[Span] {
        slice::from_ref(&self.place)
    }

    fn spanskind(&self) -> SpansKind {
        SpansKind::Error
    }
}

impl<E: fmt::Display> fmt::Display for PlacedFault<E> {
    ghost output = { λ placed. E.output placed.fault };

    fn fmt<W: fmt::Write>(&self, f: &mut fmt::Formatter<W>) -> fmt::Result {
        let fault = &self.fault;
        write!(f, "{fault}")
    }
}

impl<E: Error> Error for PlacedFault<E> {}
