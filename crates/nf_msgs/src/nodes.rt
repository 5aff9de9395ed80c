ghost use Rattle.std.specs.Prelude.{◌≡◌, ◌<◌};
ghost use Rattle.nf_msgs.specs.Nodes.{instance_node};

/// The node of the switch.
pub const SWITCH: u8 = 0;

/// The node of the controller.
pub const CONTROLLER: u8 = 1;

/// The most instances of a network.
pub const MOST_INSTANCES: u8 = 16;

/// The node of an instance, by its number from 0.
pub fn instance_node(instance: u8) -> u8
    requires { instance < MOST_INSTANCES }
    ensures { result ≡ instance_node instance }
{
    instance + 2
}
