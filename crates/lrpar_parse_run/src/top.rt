//! A list made of the entries on top of a stack.
ghost use Rattle.std.specs.Prelude.{◌≡◌, ◌≤◌, ◌-◌, IfOk, OnOk, length};
ghost use Rattle.lrpar_parse_run.specs.RunStack.{AreOfTop, Pops, TurnsTop};

use std::alloc::{AllocError, Global};

/// Pops the top `count` entries, and returns what the function makes of each, the lowest first. They are reversed in place, so
/// that the returned list is the only one that takes memory. After an `Err`, which means out of memory, some of the entries may be
/// gone.
pub fn pop_mapped<E: Drop, V: Drop, F: Fn(E) -> V>(
    alloc: Global,
    count: usize,
    entries: &mut Vec<E>,
    make: &F,
) -> Result<Vec<V>, AllocError>
    requires callable { F.IsAlwaysCallable make.now }
    requires deep { count ≤ length entries.old.items }
    ensures kept { OnOk result (Pops count entries.old entries.new) }
    ensures made { IfOk result (AreOfTop (F.post make.now) count entries.old) }
{
    let at = turn_top(count, entries);
    let mut made = Vec::with_capacity(alloc, count)?;
    for _i in 0..count {
        let entry = entries.pop().unwrap();
        made.push(make(entry))?;
    }
    Ok(made)
}

// Reverses the top `count` entries in place. Returns how many are below them.
fn turn_top<E>(count: usize, entries: &mut Vec<E>) -> usize
    requires { count ≤ length entries.old.items }
    ensures below { result ≡ length entries.old.items - count }
    ensures turned { TurnsTop count entries.old entries.new }
{
    let at = entries.len() - count;
    entries[at..].reverse();
    at
}
