//! What one unit sees of a move and of a share, and the abstract network of all units.
//!
//! There is no code here, and nobody has to believe its definitions: they are steps between the tables of the network's nodes
//! and what is proved of every run. The proofs stand in folders: `unit`, `share`, `net` and `whole`.
//!
//! `unit` has a machine of four roles (the switch, the controller, the source and the destination), with a third instance beside
//! them, and shows that every step of it keeps the order of the unit's packets and its record. A *stage* is a place of the move's
//! message under way with the lists of packets around it; its *shape* is the whole state of the machine there; a *seat* says besides
//! whether the move's source owns the unit, its destination does (*beside*), or another instance (*away*). `share` has the same of a
//! strict share. `net` has the network as the proof of moves sees it, and the same with shares; `whole` has both in one world.
#![tactic(auto)]
