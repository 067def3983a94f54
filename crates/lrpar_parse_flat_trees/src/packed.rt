//! A node of a tree, as it is stored.
ghost use Rattle.std.specs.Prelude.{◌≡◌, ◌+◌, IfOk};
ghost use Rattle.lrpar_parse_flat_trees.specs.Flat.{count_of, is_faulty_node, span_of};
ghost use Rattle.lrpar_parse_flat_trees.specs.Kinds.{IsNodeKind};
ghost use Rattle.lrpar_parse_flat_trees.specs.Packed.{IsFlatBranch, IsFlatLeaf, plain_node};

use crate::kind::SyntaxKind;
use lrpar_grammar::span::{PIdx, Span, StorageIndex, TIdx};
use std::alloc::AllocError;
use std::marker::Model;

/// A node: the number of its token or production, which kind of node it is, and its span.
#[derive(Drop)]
pub struct Packed<StorageT: StorageIndex> {
    number: StorageT,
    // 0 for a lexeme, 1 for a faulty one; for a production one more than its tree has nodes.
    kind: u32,
    start: u32,
    end: u32,
}

impl<StorageT: StorageIndex> Model for Packed<StorageT> {
    ghost use Rattle.std.specs.Prelude.{◌≤◌};
    ghost use Rattle.lrpar_parse_flat_trees.specs.Flat.{FlatNode};
    ghost use Rattle.lrpar_parse_flat_trees.specs.Packed.{plain_node};

    ghost Value = { FlatNode };

    ghost view = { λ n. plain_node (StorageT.index n.number) n.kind (record { start = n.start; end = n.end }) };

    ghost invariant = { λ n. n.start ≤ n.end };
}

impl<StorageT: StorageIndex> Packed<StorageT> {
    /// The node of a lexeme. `Err`: its end doesn't fit into 32 bits.
    pub(crate) fn leaf(
        token: StorageT,
        span: Span,
        is_faulty: bool,
    ) -> Result<Packed<StorageT>, AllocError>
        ensures { IfOk result (IsFlatLeaf (record { token = StorageT.index token; span = span; faulty = is_faulty })) }
    {
        let kind = if is_faulty { 1 } else { 0 };
        Packed::pack(token, kind, span)
    }

    /// The node of a production, over so many nodes. `Err`: a number doesn't fit into 32 bits.
    pub(crate) fn branch(
        prod: StorageT,
        nodes: usize,
        span: Span,
    ) -> Result<Packed<StorageT>, AllocError>
        ensures { IfOk result (IsFlatBranch (StorageT.index prod) (nodes + 1) span) }
    {
        let Some(kind) = nodes.checked_add(2) else {
            return Err(AllocError);
        };
        match u32::try_from(kind) {
            Ok(kind) => Packed::pack(prod, kind, span),
            Err(_) => Err(AllocError),
        }
    }

    // The node of these numbers.
    fn pack(number: StorageT, kind: u32, span: Span) -> Result<Packed<StorageT>, AllocError>
        ensures { IfOk result (λ node. node ≡ plain_node (StorageT.index number) kind span) }
    {
        let (Ok(start), Ok(end)) = (u32::try_from(span.start()), u32::try_from(span.end())) else {
            return Err(AllocError);
        };
        Ok(Packed {
            number,
            kind,
            start,
            end,
        })
    }

    /// How many nodes its tree has.
    pub(crate) fn count(&self) -> usize
        ensures { result ≡ count_of self.now }
    {
        if self.kind < 2 {
            1
        } else {
            self.kind as usize - 1
        }
    }

    /// What it is of.
    pub(crate) fn kind(&self) -> SyntaxKind<StorageT>
        ensures { IsNodeKind StorageT.index self.now result }
    {
        if self.kind < 2 {
            SyntaxKind::Token(TIdx(self.number))
        } else {
            SyntaxKind::Production(PIdx(self.number))
        }
    }

    /// Whether it is a lexeme that a repair made.
    pub(crate) fn is_faulty(&self) -> bool
        ensures { result ≡ is_faulty_node self.now }
    {
        self.kind == 1
    }

    /// Its span.
    pub(crate) fn span(&self) -> Span
        ensures { result ≡ span_of self.now }
    {
        Span::new(self.start as usize, self.end as usize)
    }
}
