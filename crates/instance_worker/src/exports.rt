//! What an instance gives to the controller.
ghost use Rattle.std.specs.Prelude.{◌≡◌, ◌++◌, ◌<◌, ◌^◌, ◌∷◌, [], map, length, OnOk};
ghost use Rattle.nf_msgs.specs.declared.msg.Msg.TheVariants.{Piece as OnePiece};
ghost use Rattle.instance_worker.specs.Pieces.{pieces};
ghost use Rattle.instance_worker.specs.Instance.{export_note, on_get, on_get_all, on_stream, to_controller};

use crate::instance::Instance;
use crate::pieces::{MOST_CHUNKS, WholePieces, next_chunks};
use actor_net::Outbox;
use basics::{Boxed, NoMemory};
use flow_filter::Filter;
use nf_function::{Chunks, Function};
use nf_msgs::{CONTROLLER, Msg, Note, Piece, units_in};
use state_chunk::encode_tally;
use std::collections::VecDeque;

impl<F: Function> Instance<F> {
    /// Sends the chunks of the units that a filter takes.
    #[tactic(auto, unfolding(crate::specs::Instance::on_get))]
    pub(crate) fn get(
        &self,
        op: u32,
        filter: &Filter,
        out: &mut Outbox<Msg, Note>,
    ) -> Result<(), NoMemory>
        ensures node { (on_get F.semantics self.now op filter.now).node ≡ self.now }
        ensures sends { OnOk result (out.new.0 ≡ out.old.0 ++ (on_get F.semantics self.now op filter.now).sends) }
        ensures notes { OnOk result (out.new.1 ≡ out.old.1 ++ (on_get F.semantics self.now op filter.now).notes) }
    {
        let chunks = self.table.select(filter)?;
        self.note_exported(op, &chunks, out)?;
        out.send(CONTROLLER, Msg::Chunks { op, chunks })
    }

    /// Notes that chunks were given.
    fn note_exported(
        &self,
        op: u32,
        chunks: &Chunks,
        out: &mut Outbox<Msg, Note>,
    ) -> Result<(), NoMemory>
        ensures sends { OnOk result (out.new.0 ≡ out.old.0) }
        ensures notes { OnOk result (out.new.1 ≡ out.old.1 ++ export_note self.now op chunks.now ∷ []) }
    {
        let units = Boxed::new(self.alloc, units_in(self.alloc, chunks.items())?)?;
        out.note(Note::Exported {
            instance: self.index.get(),
            op,
            units,
        })
    }

    /// Sends the same in pieces.
    #[tactic(auto, unfolding(crate::specs::Instance::on_stream))]
    pub(crate) fn stream(
        &self,
        op: u32,
        filter: &Filter,
        out: &mut Outbox<Msg, Note>,
    ) -> Result<(), NoMemory>
        ensures node { (on_stream F.semantics self.now op filter.now).node ≡ self.now }
        ensures sends { OnOk result (out.new.0 ≡ out.old.0 ++ (on_stream F.semantics self.now op filter.now).sends) }
        ensures notes { OnOk result (out.new.1 ≡ out.old.1 ++ (on_stream F.semantics self.now op filter.now).notes) }
    {
        let chunks = self.table.select(filter)?;
        let fits = chunks.items().len() <= self.table.live_count() as usize;
        prove!(fits);
        self.note_exported(op, &chunks, out)?;
        self.send_pieces(op, chunks, out)
    }

    /// Sends chunks in pieces, one empty piece where there is none.
    fn send_pieces(
        &self,
        op: u32,
        chunks: Chunks,
        out: &mut Outbox<Msg, Note>,
    ) -> Result<(), NoMemory>
        requires { length chunks < 2 ^ 32 }
        ensures sends { OnOk result (out.new.0 ≡ out.old.0 ++ to_controller (map (OnePiece op) (pieces chunks))) }
        ensures notes { OnOk result (out.new.1 ≡ out.old.1) }
    {
        let whole = WholePieces::of(&chunks);
        let mut left = VecDeque::from_vec(chunks.into_vec());
        while left.len() > MOST_CHUNKS {
            let chunks = next_chunks(self.alloc, &mut left)?;
            self.send_piece(op, whole.piece(false, chunks), out)?;
        }
        let chunks = Chunks::from_vec(left.into_vec());
        self.send_piece(op, whole.piece(true, chunks), out)
    }

    fn send_piece(&self, op: u32, piece: Piece, out: &mut Outbox<Msg, Note>) -> Result<(), NoMemory>
        ensures sends { OnOk result (out.new.0 ≡ out.old.0 ++ to_controller (OnePiece op piece ∷ [])) }
        ensures notes { OnOk result (out.new.1 ≡ out.old.1) }
    {
        let piece = Boxed::new(self.alloc, piece)?;
        out.send(CONTROLLER, Msg::Piece { op, piece })
    }

    /// Sends the tally.
    pub(crate) fn get_all(&self, op: u32, out: &mut Outbox<Msg, Note>) -> Result<(), NoMemory>
        ensures sends { OnOk result (out.new.0 ≡ out.old.0 ++ (on_get_all F.semantics self.now op).sends) }
        ensures notes { OnOk result (out.new.1 ≡ out.old.1) }
    {
        let chunk = encode_tally(self.alloc, F::which(), &self.tally)?;
        let chunk = Boxed::new(self.alloc, chunk)?;
        out.send(CONTROLLER, Msg::AllChunk { op, chunk })
    }
}
