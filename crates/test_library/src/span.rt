//! Numbers of three widths, and places that a tree keeps.
use crate::expectations::same;
use lrpar_grammar::span::{Span, StorageIndex};
use lrpar_grammar::text_range::TextRange;
use std::test::Fail;

// The number that the type makes of `n`, read again, if it has it.
fn read_again<S: StorageIndex>(n: usize) -> Option<usize> {
    match S::from_index(n) {
        Some(found) => Some(found.to_index()),
        None => None,
    }
}

#[test]
fn last_numbers(rt: HostRuntime) -> Result<(), Fail> {
    let found = [
        (read_again::<u8>(255), read_again::<u8>(256)),
        (read_again::<u16>(65_535), read_again::<u16>(65_536)),
        (
            read_again::<u32>(4_294_967_295),
            read_again::<u32>(4_294_967_296),
        ),
    ];
    let expected = [
        (Some(255), None),
        (Some(65_535), None),
        (Some(4_294_967_295), None),
    ];
    same(
        &rt,
        &"the last ones, and those after them",
        &found,
        &expected,
    );
    Ok(())
}

#[test]
fn text_ranges(rt: HostRuntime) -> Result<(), Fail> {
    let range = TextRange::from(Span::new(3, 7));
    let found = (range.start(), range.end(), range.len(), range.is_empty());
    same(&rt, &"its ends", &found, &(3, 7, 4, false));
    same(
        &rt,
        &"back",
        &Span::from(range),
        &TextRange::new(3, 7).span(),
    );
    Ok(())
}
