//! The states of a connection, and which of them comes after a packet.
ghost use Rattle.std.specs.Prelude.{◌≡◌, ◌≤◌, length};
ghost use Rattle.conn_tracker.specs.Table.{next_tcp, next_udp, restarts, state_number};
ghost use Rattle.conn_tracker.specs.States.{name_of, all_states, state_of, state_of_first};
ghost use Rattle.conn_tracker.specs.RecordRoom.{state_room};
ghost use Rattle.conn_tracker.specs.declared.class.Class.TheVariants.{Fin};

use crate::class::Class;

/// How far a connection has come. Packets that go in the opener's direction are forward, the others reverse.
#[derive(Clone, Copy, Debug, PartialEq, Eq)]
pub enum State {
    /// TCP: the opener asked.
    Opening,
    /// TCP: the other end answered.
    Answered,
    /// TCP: the opener confirmed.
    Established,
    /// TCP: the opener has ended its half.
    FinFwd,
    /// TCP: the other end has ended its half.
    FinRev,
    /// TCP: both ends have ended.
    Closed,
    /// TCP: one end broke the connection off.
    Reset,
    /// TCP: the opening wasn't seen.
    Loose,
    /// UDP: packets in one direction.
    Single,
    /// UDP: packets in both directions.
    Both,
}

/// The states by their numbers.
static STATES: [State; 10] = [
    State::Opening,
    State::Answered,
    State::Established,
    State::FinFwd,
    State::FinRev,
    State::Closed,
    State::Reset,
    State::Loose,
    State::Single,
    State::Both,
];

impl State {
    /// All states, by their numbers.
    pub fn all() -> &'static [State]
        ensures { result.now ≡ all_states }
    {
        &STATES
    }

    /// The state with this number in outputs and stored records.
    pub fn numbered(number: u8) -> Option<State>
        ensures { result ≡ state_of number }
    {
        STATES.get(usize::from(number)).copied()
    }

    /// The state of a TCP connection whose first packet has this class.
    pub fn first(class: Class) -> State
        ensures { result ≡ state_of_first class }
    {
        match class {
            Class::Rst => State::Reset,
            Class::SynAck => State::Answered,
            Class::Syn => State::Opening,
            Class::Fin => State::FinFwd,
            Class::Other => State::Loose,
        }
    }

    /// The state of a TCP connection after a packet.
    pub fn after(self, class: Class, is_forward: bool) -> State
        ensures { result ≡ next_tcp self class is_forward }
    {
        match (self, class) {
            (State::Single | State::Both, _) => self,
            (State::Closed | State::Reset, Class::Syn) => State::Opening,
            (State::Closed | State::Reset, _) => self,
            (_, Class::Rst) => State::Reset,
            (_, Class::Fin) => self.after_fin(is_forward),
            (State::Opening, Class::SynAck) if !is_forward => State::Answered,
            (State::Answered, Class::Other) if is_forward => State::Established,
            (State::Loose, Class::Other) if !is_forward => State::Established,
            _ => self,
        }
    }

    /// The state of a TCP connection after a FIN.
    fn after_fin(self, is_forward: bool) -> State
        ensures { result ≡ next_tcp self Fin is_forward }
    {
        match self {
            State::FinFwd if !is_forward => State::Closed,
            State::FinRev if is_forward => State::Closed,
            State::Opening | State::Answered | State::Established | State::Loose => {
                if is_forward {
                    State::FinFwd
                } else {
                    State::FinRev
                }
            }
            _ => self,
        }
    }

    /// The state of a UDP flow after a packet.
    pub fn after_udp(self, is_forward: bool) -> State
        ensures { result ≡ next_udp self is_forward }
    {
        match self {
            State::Single if !is_forward => State::Both,
            _ => self,
        }
    }

    /// Whether a packet of this class begins a connection anew.
    pub fn restarts(self, class: Class) -> bool
        ensures { result ≡ restarts self class }
    {
        matches!((self, class), (State::Closed | State::Reset, Class::Syn))
    }

    /// The state's number in outputs and stored records.
    pub fn number(self) -> u8
        ensures { result ≡ state_number self }
    {
        self as u8
    }

    /// The state's name.
    pub fn name(self) -> &'static str
        ensures name { result.now ≡ name_of self }
        ensures short { length result.now ≤ state_room }
    {
        match self {
            State::Opening => "opening",
            State::Answered => "answered",
            State::Established => "established",
            State::FinFwd => "finfwd",
            State::FinRev => "finrev",
            State::Closed => "closed",
            State::Reset => "reset",
            State::Loose => "loose",
            State::Single => "single",
            State::Both => "both",
        }
    }
}
