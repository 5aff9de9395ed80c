//! What one unit sees of a two-phase update: a machine of four roles (the switch, the controller, the source A and the destination B), and that
//! every step of it keeps the order of the unit's packets and its record. Then the network of these four nodes, with instances of which only
//! laws on their records are known, and what every run of it keeps.
//!
//! There is no code here, and nobody has to believe its definitions: they are steps between the tables of `two_phase` and what it promises. A
//! *stage* is a place of the update's one message under way with the lists of packets around it; its *shape* is the whole state of the machine
//! there; an *observer* is a unit that the filter takes, or nobody. The network's tables stand in `Tables`, what is proved of every run in `Theorem`.
#![tactic(auto)]
