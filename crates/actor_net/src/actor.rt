ghost use Rattle.std.specs.Prelude.{◌≡◌, ◌++◌, ℕ, Bool, OnOk};
ghost use Rattle.actor_net.specs.Network.{Stepped};

use super::outbox::Outbox;
use basics::NoMemory;

/// A node that takes one message at a time.
pub trait Actor: Drop {
    /// What is sent on links and stands in the input.
    type Message: Drop;

    /// What a step writes into the log.
    type Note: Drop;

    /// What a step does at each node, port and message.
    ghost stepped: { Self → ℕ → Self.Message → Stepped Self Self.Message Self.Note };

    /// Whether the first item of the input may be taken.
    ghost is_ready: { Self → Self.Message → Bool };

    /// Whether the node has nothing left to do.
    ghost has_ended: { Self → Bool };

    /// Whether the node may take this item from the head of the input. Only node 0 is asked.
    fn ready(&self, item: &Self::Message) -> bool
        ensures { result ≡ is_ready self.now item.now };

    /// Takes a message from a port. After an error the node may have done a part of the step, and is only taken apart.
    fn step(
        &mut self,
        port: u8,
        message: Self::Message,
        out: &mut Outbox<Self::Message, Self::Note>,
    ) -> Result<(), NoMemory>
        ensures node { OnOk result (self.new ≡ (stepped self.old port message).node) }
        ensures sends { OnOk result (out.new.0 ≡ out.old.0 ++ (stepped self.old port message).sends) }
        ensures notes { OnOk result (out.new.1 ≡ out.old.1 ++ (stepped self.old port message).notes) };

    /// Whether the node has nothing left to do.
    fn ended(&self) -> bool
        ensures { result ≡ has_ended self.now };
}
