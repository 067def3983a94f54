//! Many repairs, and how many lexemes have to follow one.
use crate::expectations::same;
use lrpar_grammar::span::TIdx;
use lrpar_lexer::TokenTypes;
use lrpar_parse::RTParserBuilder;
use lrpar_parse_errors::errors::LexParseError;
use lrpar_parse_repair::repair::{FixedRecoverer, RepairStep};
use lrpar_table::check::ParserData;
use std::alloc::Global;
use std::process::Abort;
use std::test::Fail;
use test_parts::built::{BRACKETS, built};
use test_parts::drops::drop_errors;
use test_parts::lexer::lexer_of;

const D: RepairStep<u32> = RepairStep::Delete;

const I0: RepairStep<u32> = RepairStep::Insert(TIdx(0));

const I1: RepairStep<u32> = RepairStep::Insert(TIdx(1));

// These steps `times` times, and then the last one.
fn repeated(
    rt: &impl Abort,
    alloc: Global,
    steps: &[RepairStep<u32>],
    times: usize,
    last: RepairStep<u32>,
) -> Vec<RepairStep<u32>> {
    let mut made = Vec::new(alloc);
    for _ in 0..times {
        made.extend_from_slice(steps).expect(rt, "memory");
    }
    made.push(last).expect(rt, "memory");
    made
}

// 5,000 deletions; a sequence that ends before a name; and 10,000 of one deletion.
fn sequences(rt: &impl Abort, alloc: Global) -> Vec<Vec<RepairStep<u32>>> {
    let mut sequences = Vec::new(alloc);
    let rows: [(&[RepairStep<u32>], usize, RepairStep<u32>, usize); 3] = [
        (&[D], 4_999, D, 1),
        (&[I1, I0], 2_500, I1, 1),
        (&[], 0, D, 10_000),
    ];
    for (steps, times, last, copies) in rows {
        for _ in 0..copies {
            sequences
                .push(repeated(rt, alloc, steps, times, last))
                .expect(rt, "memory");
        }
    }
    sequences
}

// How many sequences the error of two lexemes `N` of the grammar *brackets* lists, and the length of the first one.
fn listed(rt: &impl Abort, alloc: Global, data: &ParserData<u32>) -> Option<(usize, usize)> {
    let recoverer = FixedRecoverer::new(sequences(rt, alloc));
    let parser = RTParserBuilder::new(data).recoverer(recoverer);
    match parser.parse_noaction(alloc, &lexer_of(&[(0, 1), (0, 1)])) {
        Ok(errors) => {
            let listed = listed_by(&errors);
            drop_errors(errors);
            listed
        }
        Err(fault) => panic!(rt; "{fault}"),
    }
}

// How many sequences the only error lists, and the length of the first one.
fn listed_by(errors: &[LexParseError<u32, TokenTypes>]) -> Option<(usize, usize)> {
    match errors {
        [LexParseError::ParseError(error)] => {
            Some((error.repairs().len(), error.repairs().first()?.len()))
        }
        _ => None,
    }
}

// The first deletions don't work: there is one lexeme to delete. All the others are listed, and the first of them is made.
#[test]
fn long_sequences_and_many(rt: HostRuntime) -> Result<(), Fail> {
    let data = built(rt.alloc(), BRACKETS)?;
    same(
        &rt,
        &"listed",
        &listed(&rt, rt.alloc(), &data),
        &Some((10_001, 5_001)),
    );
    Ok(())
}

// The numbers of lexemes that have to follow a repair: of a new parser, and of one that was refused another number.
fn shift_counts(rt: &impl Abort, data: &ParserData<u32>) -> (usize, usize) {
    let parser = RTParserBuilder::<u32, TokenTypes>::new(data);
    let count = parser.shift_count();
    match parser.shifts(0) {
        Ok(_) => panic!(rt; "no lexeme has to follow"),
        Err(refused) => (count, refused.into_builder().shift_count()),
    }
}

#[test]
fn numbers_of_lexemes_that_follow(rt: HostRuntime) -> Result<(), Fail> {
    let data = built(rt.alloc(), BRACKETS)?;
    same(&rt, &"counts", &shift_counts(&rt, &data), &(3, 3));
    Ok(())
}
