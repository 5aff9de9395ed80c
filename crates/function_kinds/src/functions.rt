//! The network functions by their kinds: what is done with one, whichever it is. A further function is a further arm of [`for_kind`].
ghost use Rattle.nf_function.specs.Semantics.{Semantics};
ghost use Rattle.nf_function.specs.declared.kind.Kind.{Kind as TheKind};
ghost use Rattle.function_kinds.specs.Functions.{OfKind};

use addr_translator::Nat;
use asset_monitor::Monitor;
use conn_tracker::Conntrack;
use nf_function::{Function, Kind};

/// Something to do with a network function, whichever it is.
pub trait ForFunction {
    /// What comes of it.
    type Output;

    /// When it may be done with a function of this kind.
    ghost may: { Self → TheKind → Type 0 };

    /// What is said of what comes of it, for each function.
    ghost gives: { Self → (R F : Type 0) → Semantics R → Self.Output → Type 0 };

    /// Does it with a function.
    fn call<F: Function + Send>(self) -> Self::Output
    where
        F::Record: Send,
        requires { may self F.semantics.kind }
        ensures { gives self _ F.row.Denot F.semantics result };
}

/// Does something with the function of a kind.
pub fn for_kind<W: ForFunction>(kind: Kind, work: W) -> W::Output
    requires { W.may work kind }
    ensures { OfKind kind (λ R F f. W.gives work R F f result) }
{
    match kind {
        Kind::Conntrack => work.call::<Conntrack>(),
        Kind::Nat => work.call::<Nat>(),
        Kind::Monitor => work.call::<Monitor>(),
    }
}
