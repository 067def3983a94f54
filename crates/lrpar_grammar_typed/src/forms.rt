//! The productions of lists and options.
ghost use Rattle.std.specs.Prelude.{◌≡◌, ◌∷◌, [], IfOk, map};
ghost use Rattle.lrpar_grammar_typed.specs.Forms.{AreProdsOf, IsProdOf, side_of};

use crate::typed::{Form, Making, TypedProd, TypedSymbol};
use lrpar_grammar::span::{Span, Symbol};
use std::alloc::{AllocError, Global};

/// The productions of a rule of this form. A written rule, or a group, has none by its form.
pub fn form_prods(
    alloc: Global,
    rule: Symbol<u32>,
    form: Form,
    span: Span,
) -> Result<Vec<TypedProd>, AllocError>
    ensures { IfOk result (AreProdsOf rule form) }
{
    match form {
        Form::Written | Form::Group => Ok(Vec::new(alloc)),
        Form::ZeroOrMore(item) => {
            two_prods(alloc, span, Making::Empty, &[], Making::Push, &[rule, item])
        }
        Form::OneOrMore(item) => {
            two_prods(
                alloc,
                span,
                Making::First,
                &[item],
                Making::Push,
                &[rule, item],
            )
        }
        Form::Optional(item) => {
            two_prods(alloc, span, Making::Nothing, &[], Making::Just, &[item])
        }
        Form::Separated(item, separator) => {
            two_prods(
                alloc,
                span,
                Making::First,
                &[item],
                Making::Push,
                &[rule, separator, item],
            )
        }
        Form::Terminated(list, separator) => {
            let mut prods = two_prods(alloc, span, Making::Empty, &[], Making::Same, &[list])?;
            prods.push(prod(alloc, span, Making::Same, &[list, separator])?)?;
            Ok(prods)
        }
    }
}

// Two productions with these values and symbols.
fn two_prods(
    alloc: Global,
    span: Span,
    making: Making,
    symbols: &[Symbol<u32>],
    making2: Making,
    symbols2: &[Symbol<u32>],
) -> Result<Vec<TypedProd>, AllocError>
    ensures { IfOk result (λ prods. map side_of prods.items ≡ (making, symbols.now) ∷ (making2, symbols2.now) ∷ []) }
{
    let mut prods = Vec::new(alloc);
    prods.push(prod(alloc, span, making, symbols)?)?;
    prods.push(prod(alloc, span, making2, symbols2)?)?;
    Ok(prods)
}

// A production with this value and these symbols.
fn prod(
    alloc: Global,
    span: Span,
    making: Making,
    symbols: &[Symbol<u32>],
) -> Result<TypedProd, AllocError>
    ensures { IfOk result (IsProdOf making symbols.now) }
{
    Ok(TypedProd {
        symbols: typed_symbols(alloc, span, symbols)?,
        making,
        span,
    })
}

// The symbols, at this place and without names.
fn typed_symbols(
    alloc: Global,
    span: Span,
    symbols: &[Symbol<u32>],
) -> Result<Vec<TypedSymbol>, AllocError>
    ensures { IfOk result (λ typed. map (λ s. s.symbol) typed.items ≡ symbols.now) }
{
    let mut typed = Vec::with_capacity(alloc, symbols.len())?;
    for symbol in symbols {
        typed.push(TypedSymbol {
            symbol: *symbol,
            span,
            name: None,
        })?;
    }
    Ok(typed)
}
