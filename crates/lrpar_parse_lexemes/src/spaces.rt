//! Spaces: they indent the lines of trees and align the numbers of repair sequences.
ghost use Rattle.std.specs.Prelude.{◌≡◌, replicate};
ghost use Rattle.lrpar_parse_lexemes.specs.Strings.{Pushes};

use std::alloc::AllocError;

// The spaces of a block.
const BLOCK: usize = 128;

/// Adds `count` spaces. `Err`: out of memory, and some of the spaces may have been added.
pub fn push_spaces(out: &mut String, count: usize) -> Result<(), AllocError>
    ensures { Pushes (replicate count 32) out.old out.new result }
{
    let block = spaces();
    let mut left = count;
    while left > BLOCK {
        out.push_str(block)?;
        left -= BLOCK;
    }
    out.push_str(&block[..left])
}

// A block of spaces.
fn spaces() -> &'static str
    ensures { result.now ≡ replicate BLOCK 32 }
{
    "                                                                                                                                "
}
