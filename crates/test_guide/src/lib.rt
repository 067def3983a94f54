//! Tests of what README.md and GUIDE.md show. Most of the code there fails with `Failed`, the error of the crate that it is in: here a test
//! fails with it.
#![tactic(auto)]

#[cfg(test)]
mod calculation;
#[cfg(test)]
mod completed;
#[cfg(test)]
mod example;
#[cfg(test)]
mod expectations;
#[cfg(test)]
mod guide;
#[cfg(test)]
mod lrpar_files;
#[cfg(test)]
mod options;
#[cfg(test)]
mod small;
#[cfg(test)]
mod tables;
