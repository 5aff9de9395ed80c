//! A link from one thread to another: what was sent is what was taken, in order, and then what is left.
//!
//! [`Link::open`] makes the two ends of a link. Contracts see an end as a record: the messages that it sent or took, and all
//! that was done on the link, by both ends and in order, up to this end's own last message. So an end learns with each message
//! what the other end did before it. A message is refused only where the link was full at a moment since the last one that was
//! sent, and none is given only where the link was empty right after the last one that was taken. That an end looks at the
//! link again in each call isn't promised. [`close`] brings both ends together. There it is proved that nothing was lost,
//! doubled or reordered on the way. The link is a bounded queue of `crossbeam_queue` under a protocol of this crate. The crate
//! touches nothing but memory, which two threads may share.
#![tactic(auto)]

mod ends;
mod knowledge;

pub use ends::{Closed, Full, Link, SendEnd, TakeEnd, close};
