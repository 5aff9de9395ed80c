//! What an instance takes from the controller.
ghost use Rattle.std.specs.Prelude.{◌≡◌, ◌++◌, [], ◌∷◌, if◌then◌else◌, None, IfOk, OnOk};
ghost use Rattle.nf_msgs.specs.declared.msg.Msg.TheVariants.{PutNo as Refusing};
ghost use Rattle.nf_msgs.specs.declared.note.Note.TheVariants.{Imported as ImportedNote, Kept as KeptNote};
ghost use Rattle.record_table.specs.Chunks.{are_good};
ghost use Rattle.instance_worker.specs.Taking.{AreTaken};
ghost use Rattle.instance_worker.specs.Instance.{on_put, on_put_all, on_restore, on_standby, on_sync, piece_put};
ghost use Rattle.instance_worker.specs.Instance.{piece_refusal, to_controller, with_live, with_records, with_standby};

use crate::instance::Instance;
use actor_net::Outbox;
use basics::{Boxed, NoMemory};
use nf_function::{Chunk, Chunks, Function, Units};
use nf_msgs::{Answer, CONTROLLER, KeptUnits, Msg, Note, Piece, Refused, units_in};
use record_table::ImportFault;
use state_chunk::header::PLAIN;
use state_chunk::{ChunkFault, decode_tally_chunk};

impl<F: Function> Instance<F> {
    /// Takes a piece of a move's records as live, or refuses it where it is the first.
    #[tactic(auto, unfolding(crate::specs::Instance::on_put))]
    pub(crate) fn put(
        &mut self,
        op: u32,
        piece: Piece,
        first: bool,
        out: &mut Outbox<Msg, Note>,
    ) -> Result<(), NoMemory>
        ensures node { OnOk result (self.new ≡ (on_put F.semantics self.old op piece first).node) }
        ensures sends { OnOk result (out.new.0 ≡ out.old.0 ++ (on_put F.semantics self.old op piece first).sends) }
        ensures notes { OnOk result (out.new.1 ≡ out.old.1 ++ (on_put F.semantics self.old op piece first).notes) }
    {
        if (piece.total as usize) < piece.chunks.items().len() {
            return Ok(());
        }
        if first {
            if let Some(why) = self.refusal(&piece) {
                return self.refuse(op, why, piece.chunks, out);
            }
        }
        let answered = first || piece.last;
        self.take_piece(op, piece, answered, out)
    }

    /// Why a piece that is put first is refused, if it is.
    fn refusal(&self, piece: &Piece) -> Option<Answer>
        ensures { result ≡ piece_refusal self.now piece.now }
    {
        let held = self.table.live_count();
        if u64::from(held) + u64::from(piece.total) > u64::from(self.limit) {
            return Some(Answer::Import {
                held,
                coming: piece.total,
                limit: self.limit,
            });
        }
        if self.marked && piece.newest > PLAIN {
            return Some(Answer::Old {
                newest: piece.newest,
                reads: PLAIN,
            });
        }
        None
    }

    /// Sends chunks back.
    fn refuse(
        &self,
        op: u32,
        why: Answer,
        chunks: Chunks,
        out: &mut Outbox<Msg, Note>,
    ) -> Result<(), NoMemory>
        ensures sends { OnOk result (out.new.0 ≡ out.old.0 ++ to_controller (Refusing op (record { why = why; chunks = chunks }) ∷ [])) }
        ensures notes { OnOk result (out.new.1 ≡ out.old.1) }
    {
        let refused = Boxed::new(self.alloc, Refused { why, chunks })?;
        out.send(CONTROLLER, Msg::PutNo { op, refused })
    }

    /// Takes a piece that isn't refused, and answers it where it is the first or the last.
    fn take_piece(
        &mut self,
        op: u32,
        piece: Piece,
        answered: bool,
        out: &mut Outbox<Msg, Note>,
    ) -> Result<(), NoMemory>
        ensures node { OnOk result (self.new ≡ (piece_put F.semantics self.old op piece answered None).node) }
        ensures sends { OnOk result (out.new.0 ≡ out.old.0 ++ (piece_put F.semantics self.old op piece answered None).sends) }
        ensures notes { OnOk result (out.new.1 ≡ out.old.1 ++ (piece_put F.semantics self.old op piece answered None).notes) }
    {
        let units = units_in(self.alloc, piece.chunks.items())?;
        if !self.take_live(piece.chunks)? {
            return Ok(());
        }
        self.note_imported(op, units, out)?;
        if !answered {
            return Ok(());
        }
        out.send(CONTROLLER, Msg::PutOk { op })
    }

    /// Takes back what another instance refused.
    #[tactic(auto, unfolding(crate::specs::Instance::on_restore))]
    pub(crate) fn restore(
        &mut self,
        op: u32,
        chunks: Chunks,
        out: &mut Outbox<Msg, Note>,
    ) -> Result<(), NoMemory>
        ensures node { OnOk result (self.new ≡ (on_restore F.semantics self.old op chunks).node) }
        ensures sends { OnOk result (out.new.0 ≡ out.old.0 ++ (on_restore F.semantics self.old op chunks).sends) }
        ensures notes { OnOk result (out.new.1 ≡ out.old.1 ++ (on_restore F.semantics self.old op chunks).notes) }
    {
        let units = units_in(self.alloc, chunks.items())?;
        if !self.take_live(chunks)? {
            return Ok(());
        }
        self.note_imported(op, units, out)?;
        out.send(CONTROLLER, Msg::Restored { op })
    }

    /// Keeps the chunks' records as standby.
    #[tactic(auto, unfolding(crate::specs::Instance::on_standby))]
    pub(crate) fn standby(
        &mut self,
        op: u32,
        chunks: Chunks,
        out: &mut Outbox<Msg, Note>,
    ) -> Result<(), NoMemory>
        ensures node { OnOk result (self.new ≡ (on_standby F.semantics self.old op chunks).node) }
        ensures sends { OnOk result (out.new.0 ≡ out.old.0 ++ (on_standby F.semantics self.old op chunks).sends) }
        ensures notes { OnOk result (out.new.1 ≡ out.old.1 ++ (on_standby F.semantics self.old op chunks).notes) }
    {
        let units = KeptUnits::of(self.alloc, chunks.items())?;
        if !self.take_standby(chunks)? {
            return Ok(());
        }
        self.note_kept(op, units, out)?;
        out.send(CONTROLLER, Msg::Kept { op })
    }

    /// Sets the records of a share.
    #[tactic(auto, unfolding(crate::specs::Instance::on_sync))]
    pub(crate) fn sync(
        &mut self,
        home: bool,
        op: u32,
        chunks: Chunks,
        out: &mut Outbox<Msg, Note>,
    ) -> Result<(), NoMemory>
        ensures node { OnOk result (self.new ≡ (on_sync F.semantics self.old home op chunks).node) }
        ensures sends { OnOk result (out.new.0 ≡ out.old.0 ++ (on_sync F.semantics self.old home op chunks).sends) }
        ensures notes { OnOk result (out.new.1 ≡ out.old.1 ++ (on_sync F.semantics self.old home op chunks).notes) }
    {
        let units = KeptUnits::of(self.alloc, chunks.items())?;
        if !self.take_records(home, chunks)? {
            return Ok(());
        }
        self.note_kept(op, units, out)?;
        out.send(CONTROLLER, Msg::Synced { op })
    }

    /// Merges a tally into the instance's own.
    #[tactic(auto, unfolding(crate::specs::Instance::on_put_all))]
    pub(crate) fn put_all(
        &mut self,
        op: u32,
        chunk: &Chunk,
        out: &mut Outbox<Msg, Note>,
    ) -> Result<(), NoMemory>
        ensures node { OnOk result (self.new ≡ (on_put_all F.semantics self.old op chunk.now).node) }
        ensures sends { OnOk result (out.new.0 ≡ out.old.0 ++ (on_put_all F.semantics self.old op chunk.now).sends) }
        ensures notes { OnOk result (out.new.1 ≡ out.old.1 ++ (on_put_all F.semantics self.old op chunk.now).notes) }
    {
        match decode_tally_chunk(self.alloc, F::which(), &chunk.bytes) {
            Ok(tally) => {
                self.tally.merge(&tally);
                out.send(CONTROLLER, Msg::Kept { op })
            }
            Err(ChunkFault::NoMemory) => Err(NoMemory),
            Err(_) => Ok(()),
        }
    }

    /// Notes that the records of these units became live.
    fn note_imported(
        &self,
        op: u32,
        units: Units,
        out: &mut Outbox<Msg, Note>,
    ) -> Result<(), NoMemory>
        ensures { OnOk result (out.new ≡ (out.old.0, out.old.1 ++ ImportedNote self.now.index op units ∷ [])) }
    {
        let units = Boxed::new(self.alloc, units)?;
        out.note(Note::Imported {
            instance: self.index.get(),
            op,
            units,
        })
    }

    /// Notes that the records of these units are kept.
    fn note_kept(
        &self,
        op: u32,
        units: KeptUnits,
        out: &mut Outbox<Msg, Note>,
    ) -> Result<(), NoMemory>
        ensures { OnOk result (out.new ≡ (out.old.0, out.old.1 ++ KeptNote self.now.index op units ∷ [])) }
    {
        out.note(Note::Kept {
            instance: self.index.get(),
            op,
            units,
        })
    }

    /// Makes records live, and tells whether no chunk was bad.
    fn take_live(&mut self, chunks: Chunks) -> Result<bool, NoMemory>
        ensures good { IfOk result (λ good. good ≡ are_good F.semantics chunks) }
        ensures node { IfOk result (λ good. self.new ≡ (if good then with_live F.semantics self.old chunks else self.old)) }
    {
        are_taken(self.table.restore(chunks))
    }

    /// Lets records stand by, and tells whether no chunk was bad.
    fn take_standby(&mut self, chunks: Chunks) -> Result<bool, NoMemory>
        ensures good { IfOk result (λ good. good ≡ are_good F.semantics chunks) }
        ensures node { IfOk result (λ good. self.new ≡ (if good then with_standby F.semantics self.old chunks else self.old)) }
    {
        are_taken(self.table.set_standby(chunks))
    }

    /// Sets records, and tells whether no chunk was bad.
    fn take_records(&mut self, live: bool, chunks: Chunks) -> Result<bool, NoMemory>
        ensures good { IfOk result (λ good. good ≡ are_good F.semantics chunks) }
        ensures node { IfOk result (λ good. self.new ≡ (if good then with_records F.semantics self.old live chunks else self.old)) }
    {
        are_taken(self.table.sync(live, chunks))
    }
}

/// Whether chunks were taken in.
fn are_taken(taken: Result<(), ImportFault>) -> Result<bool, NoMemory>
    ensures { IfOk result (λ are. AreTaken are taken) }
{
    match taken {
        Ok(()) => Ok(true),
        Err(ImportFault::NoMemory(_chunks)) => Err(NoMemory),
        Err(_fault) => Ok(false),
    }
}
