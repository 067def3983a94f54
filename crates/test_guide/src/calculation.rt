//! Sums and products, computed as they are parsed: a lexer, actions and repairs as a user writes them.
ghost use Rattle.std.specs.Prelude.{◌↔◌, IfOk, IsTrue};

use lrpar::parser::AStackType::ActionType;
use lrpar::parser::{AStackType, Actions};
use lrpar::repair::{FixedRecoverer, RepairStep};
use lrpar::span::{PIdx, RIdx, Span, Symbol, TIdx};
use lrpar::{InputLexer, Lexeme, ParserData, RTParserBuilder};
use lrpar_lexer::{ListFault, ListLexer, NoToken, Token};
use std::alloc::{AllocError, Global};
use std::test::Fail;

// The lexer of a sum.
fn sum_lexer<'input>(alloc: Global, text: &'input str) -> Result<ListLexer<'input>, ListFault> {
    let (bytes, mut answers) = (text.as_bytes(), Vec::new(alloc));
    for (at, byte) in bytes.iter().enumerate() {
        let digits = bytes[at..].iter().take_while(|b| b.is_ascii_digit());
        answers.push(match *byte {
            b' ' => continue,
            b'+' => Ok(Token::new(0, at, 1)),
            b'*' => Ok(Token::new(1, at, 1)),
            b'(' => Ok(Token::new(2, at, 1)),
            b')' => Ok(Token::new(3, at, 1)),
            b'0'..=b'9' if at > 0 && bytes[at - 1].is_ascii_digit() => continue,
            b'0'..=b'9' => Ok(Token::new(4, at, digits.count())),
            // a byte inside a character
            0x80..=0xbf => continue,
            _ => Err(NoToken::new(Span::new(at, at))),
        })?;
    }
    ListLexer::new(alloc, text, answers)
}

#[derive(Drop)]
struct Calculation;

impl<'input> Actions<u32, Token<u32>, ListLexer<'input>> for Calculation {
    type ActionT = Option<u64>;

    type ParamT = ();

    ghost taken = { λ _ _ _ _. Unit {0} };

    ghost fact = { λ _ _ _. Unit {0} };

    ghost answers = { λ _ _ _ _ _ _ _ _. Unit {0} };

    fn takes(&self, _: PIdx<u32>, _: RIdx<u32>, _: &[Symbol<u32>]) -> bool
        ensures { IsTrue result ↔ Unit {0} }
    {
        true
    }

    fn act(
        &self,
        _: Global,
        pidx: PIdx<u32>,
        _: RIdx<u32>,
        lexer: &ListLexer<'input>,
        span: Span,
        args: Vec<AStackType<Token<u32>, Option<u64>>>,
        _: &(),
    ) -> Result<Option<u64>, AllocError>
        ensures fact { IfOk result (λ _. Unit {0}) }
        ensures answers { IfOk result (λ _. Unit {0}) }
    {
        let text = lexer.input().get(span.start()..span.end()).unwrap_or("");
        Ok(match (pidx.as_storaget(), args.as_slice()) {
            (0, [ActionType(Some(left)), _, ActionType(Some(right))]) => left.checked_add(*right),
            (2, [ActionType(Some(left)), _, ActionType(Some(right))]) => left.checked_mul(*right),
            (1 | 3, [ActionType(number)]) | (4, [_, ActionType(number), _]) => *number,
            (5, [_]) => text.parse::<u64>().ok(),
            _ => None,
        })
    }
}

/// The errors of a line as text, and its number, if it has one.
pub(crate) fn calculated(
    alloc: Global,
    data: &ParserData<u32>,
    line: &str,
) -> Result<(String, Option<u64>), Fail> {
    let parser = RTParserBuilder::new(data).recoverer(FixedRecoverer::new(repairs(alloc)?));
    let lexer = sum_lexer(alloc, line)?;
    let (number, errors) = parser.parse_actions(alloc, &lexer, &Calculation, &())?;
    let mut text = String::new(alloc);
    for error in &errors {
        writeln!(text, "{}", error.message(alloc, data.grm(), &lexer)?)?;
    }
    Ok((text, number.unwrap_or(None)))
}

// The repairs that are supplied at each error: to leave a lexeme out, or to put a number in.
fn repairs(alloc: Global) -> Result<Vec<Vec<RepairStep<u32>>>, Fail> {
    let (leave_out, number) = (RepairStep::Delete, RepairStep::Insert(TIdx(4)));
    Ok(vec![in alloc; vec![in alloc; leave_out]?, vec![in alloc; number]?]?)
}
