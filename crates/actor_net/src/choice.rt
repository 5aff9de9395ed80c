ghost use Rattle.std.specs.Prelude.{◌≡◌, ◌<◌, ◌+◌, ◌*◌};

/// Which message is taken next: the node that takes it, and the port that it comes from. A port is the number of the
/// sending node, and port 0 of node 0 is the input.
#[derive(Clone, Copy, Debug, PartialEq, Eq)]
pub struct Choice {
    pub node: u8,
    pub port: u8,
}

impl Choice {
    ghost use Rattle.actor_net.specs.Network.{is_input, node_numbers};

    /// Whether it takes from the input.
    #[inline(always)]
    pub fn is_input(self) -> bool
        ensures { result ≡ is_input self }
    {
        self.node == 0 && self.port == 0
    }

    /// The place of its link among those of so many nodes: one row of receivers for each sender. The input is place 0.
    #[inline(always)]
    pub(crate) fn place(self, nodes: usize) -> usize
        requires { (self.node < nodes) × (self.port < nodes) × (nodes < node_numbers) }
        ensures value { result ≡ self.port * nodes + self.node }
        ensures small { result < nodes * nodes }
    {
        self.port as usize * nodes + self.node as usize
    }
}
