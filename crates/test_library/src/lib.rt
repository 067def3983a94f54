//! Tests of the library that can't be rows of data.
#![tactic(auto)]

#[cfg(test)]
mod actions;
#[cfg(test)]
mod conflicts;
#[cfg(test)]
mod counts;
#[cfg(test)]
mod errors;
#[cfg(test)]
mod expectations;
#[cfg(test)]
mod lexers;
#[cfg(test)]
mod recoverer;
#[cfg(test)]
mod repairs;
#[cfg(test)]
mod shown;
#[cfg(test)]
mod sizes;
#[cfg(test)]
mod span;
#[cfg(test)]
mod trees;
#[cfg(test)]
mod values;
