//! Links between the configurations of a search, by numbers, and the last steps of its repairs.
use lrpar_grammar::span::StorageIndex;
use lrpar_parse_repair::repair::RepairStep;

/// A step from one configuration to another, by their numbers, whose distances differ by what the step costs.
#[derive(Clone, Copy)]
pub(crate) struct Link<StorageT: Copy> {
    pub(crate) from: usize,
    pub(crate) step: RepairStep<StorageT>,
    pub(crate) to: usize,
}

/// The last step of a repair: from the configuration with this number, and how far a parse goes on after it.
#[derive(Clone, Copy)]
pub(crate) struct Ending<StorageT: Copy> {
    pub(crate) reach: u128,
    pub(crate) from: usize,
    pub(crate) step: RepairStep<StorageT>,
}

/// What a search finds: how many configurations there are, of which the first one is that of the error point; the links between
/// them; and the last steps of the repairs.
#[derive(Drop)]
pub(crate) struct Linked<StorageT: StorageIndex> {
    pub(crate) len: usize,
    pub(crate) links: Vec<Link<StorageT>>,
    pub(crate) endings: Vec<Ending<StorageT>>,
}
