ghost use Rattle.std.specs.Prelude.{◌≡◌, [], ◌∷◌, ◌++◌, MatchOption, IfOk, OnOk, OnErr};
ghost use Rattle.move_op.specs.Move.{chunks_of};
ghost use Rattle.move_op.specs.Table.{is_nil};

use basics::{Boxed, NoMemory};
use nf_function::Chunks;
use nf_msgs::Piece;
use std::alloc::Global;
use std::collections::VecDeque;
use std::marker::Model;

/// Pieces in order, which contracts see as their list.
#[derive(Debug, Drop)]
pub struct Pieces {
    pieces: VecDeque<Boxed<Piece>>,
}

impl Model for Pieces {
    ghost use Rattle.std.specs.Prelude.{List};
    ghost use Rattle.nf_msgs.specs.declared.msg.Piece.{Piece};

    ghost Value = { List Piece };

    ghost view = { λ p. p.pieces.items };
}

impl Pieces {
    /// No pieces yet. This takes no memory.
    pub fn open(alloc: Global) -> Self
        ensures { result ≡ [] }
    {
        Pieces {
            pieces: VecDeque::new(alloc),
        }
    }

    /// Whether there are none.
    pub fn is_empty(&self) -> bool
        ensures { result ≡ is_nil self.now }
    {
        self.pieces.is_empty()
    }

    /// Puts a piece after the others.
    pub fn push(&mut self, piece: Boxed<Piece>) -> Result<(), NoMemory>
        ensures ok { OnOk result (self.new ≡ self.old ++ piece ∷ []) }
        ensures err { OnErr result (self.new ≡ self.old) }
    {
        self.pieces.push_back(piece)?;
        Ok(())
    }

    /// Puts a piece before the others.
    pub fn push_front(&mut self, piece: Boxed<Piece>) -> Result<(), NoMemory>
        ensures ok { OnOk result (self.new ≡ piece ∷ self.old) }
        ensures err { OnErr result (self.new ≡ self.old) }
    {
        self.pieces.push_front(piece)?;
        Ok(())
    }

    /// Puts a piece before the others, in a place of its own.
    pub(crate) fn put_first(&mut self, alloc: Global, piece: Piece) -> Result<(), NoMemory>
        ensures { OnOk result (self.new ≡ piece ∷ self.old) }
    {
        self.push_front(Boxed::new(alloc, piece)?)
    }

    /// Takes the first piece.
    pub fn pop(&mut self) -> Option<Boxed<Piece>>
        ensures { MatchOption result ((self.old ≡ []) × (self.new ≡ [])) (λ piece. self.old ≡ piece ∷ self.new) }
    {
        self.pieces.pop_front()
    }

    /// The pieces as a vector, without a copy.
    pub fn into_vec(self) -> Vec<Boxed<Piece>>
        ensures { result.items ≡ self }
    {
        self.pieces.into_vec()
    }

    /// The chunks of all pieces, in order.
    pub fn into_chunks(self, alloc: Global) -> Result<Chunks, NoMemory>
        ensures { IfOk result (λ chunks. chunks ≡ chunks_of self) }
    {
        let mut all = Vec::new(alloc);
        for piece in self.pieces {
            let Piece { chunks, .. } = piece.into_inner();
            all.append(&mut chunks.into_vec())?;
        }
        Ok(Chunks::from_vec(all))
    }
}
