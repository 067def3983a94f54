//! The values of queries: the syntax tree.
use crate::language::Failed;
use crate::queries::tree::{Atom, Expr, Name, Operator, Query, Stage};
use crate::syntax::{Actions, At};
use lrpar::Lexeme;
use lrpar::span::TextRange;
use lrpar_lexer::Token;

/// Makes the syntax tree of a text.
#[derive(Drop)]
pub(crate) struct Queries;

impl<'text> Actions<'text> for Queries {
    type Error = Failed;

    fn named_query(
        &self,
        at: At<'_, 'text>,
        name: Token<u32>,
        mut query: Query<'text>,
    ) -> Result<Query<'text>, Failed> {
        query.name = Some(name_of(at, name));
        Ok(query)
    }

    fn query(
        &self,
        at: At<'_, 'text>,
        name: Token<u32>,
        stages: Vec<Stage<'text>>,
    ) -> Result<Query<'text>, Failed> {
        Ok(Query {
            name: None,
            from: name_of(at, name),
            stages,
        })
    }

    fn filter(&self, _at: At<'_, 'text>, condition: Expr<'text>) -> Result<Stage<'text>, Failed> {
        Ok(Stage::Where(condition))
    }

    fn select(
        &self,
        _at: At<'_, 'text>,
        columns: Vec<Expr<'text>>,
    ) -> Result<Stage<'text>, Failed> {
        Ok(Stage::Select(columns))
    }

    fn take(&self, at: At<'_, 'text>, count: Token<u32>) -> Result<Stage<'text>, Failed> {
        Ok(Stage::Take(name_of(at, count)))
    }

    fn binary(
        &self,
        at: At<'_, 'text>,
        kind: Operator,
        left: Expr<'text>,
        right: Expr<'text>,
    ) -> Result<Expr<'text>, Failed> {
        let left = Box::new(at.alloc, left)?;
        let right = Box::new(at.alloc, right)?;
        Ok(Expr::Binary(kind, at.range, left, right))
    }

    fn column(&self, at: At<'_, 'text>, name: Token<u32>) -> Result<Expr<'text>, Failed> {
        Ok(Expr::Atom(Atom::Column, at.lexer.text(&name)))
    }

    fn call(
        &self,
        at: At<'_, 'text>,
        name: Token<u32>,
        arguments: Vec<Expr<'text>>,
    ) -> Result<Expr<'text>, Failed> {
        Ok(Expr::Call(name_of(at, name), arguments))
    }

    fn number(&self, at: At<'_, 'text>, digits: Token<u32>) -> Result<Expr<'text>, Failed> {
        Ok(Expr::Atom(Atom::Number, at.lexer.text(&digits)))
    }

    fn text(&self, at: At<'_, 'text>, text: Token<u32>) -> Result<Expr<'text>, Failed> {
        Ok(Expr::Atom(Atom::Text, at.lexer.text(&text)))
    }

    fn null(&self, _at: At<'_, 'text>) -> Result<Expr<'text>, Failed> {
        Ok(Expr::Null)
    }
}

// A lexeme, as a part of the text.
fn name_of<'text>(at: At<'_, 'text>, lexeme: Token<u32>) -> Name<'text> {
    Name {
        text: at.lexer.text(&lexeme),
        range: TextRange::from(lexeme.span()),
    }
}
