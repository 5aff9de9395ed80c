//! A link for each ordered pair of nodes, opened before a round and closed after it.
ghost use Rattle.std.specs.Prelude.{◌≡◌, ◌<◌, ◌++◌, ℕ, List, [], ◌∷◌, length, map, IfOk, OnOk};
ghost use Rattle.actor_net.specs.Histories.{messages};
ghost use Rattle.actor_net.specs.declared.stamped.Stamped.{Stamped};
ghost use Rattle.fifo_link.specs.Ends.{End};
ghost use Rattle.actor_threads.specs.Ways.{unpacked};
ghost use Rattle.actor_threads.specs.LinkTable.{row_at, AreFresh, RowOpened, AllOpened, Closed, RowClosed, CanClose, closing};

use crate::ways::{Batch, WayIn, WayOut, append};
use actor_net::{Link, Stamped};
use basics::NoMemory;
use fifo_link::{SendEnd, TakeEnd, close};
use std::alloc::Global;
use std::collections::VecDeque;
use std::sync::Wait;

/// A link holds at most so many batches.
pub const LINK_CAPACITY: usize = 64;

/// The ends of the links between all nodes: a row of send ends for each sender, and a row of take ends for each receiver.
#[derive(Drop)]
pub struct Ends<M> {
    pub sends: Vec<Vec<SendEnd<Batch<M>>>>,
    pub takes: Vec<Vec<TakeEnd<Batch<M>>>>,
}

/// One new link for each ordered pair of nodes, a node with itself among them.
pub fn open_all<M: Drop>(alloc: Global, nodes: usize) -> Result<Ends<M>, NoMemory>
    ensures { IfOk result (λ e. AllOpened nodes nodes (map (λ v. v.items) e.sends.items) (map (λ v. v.items) e.takes.items)) }
{
    let mut takes = no_links(alloc, nodes)?;
    let sends = open_rows(alloc, nodes, &mut takes)?;
    Ok(Ends { sends, takes })
}

/// A row for each receiver, without an end.
fn no_links<M: Drop>(alloc: Global, nodes: usize) -> Result<Vec<Vec<TakeEnd<Batch<M>>>>, NoMemory>
    ensures count { IfOk result (λ takes. length takes.items ≡ nodes) }
    ensures none { IfOk result (λ takes. (r : ℕ) → r < nodes → row_at (map (λ v. v.items) takes.items) r ≡ []) }
{
    let mut takes = Vec::with_capacity(alloc, nodes)?;
    for _ in 0..nodes {
        takes.push(Vec::with_capacity(alloc, nodes)?)?;
    }
    Ok(takes)
}

/// New links from all senders to all receivers.
fn open_rows<M: Drop>(
    alloc: Global,
    nodes: usize,
    takes: &mut Vec<Vec<TakeEnd<Batch<M>>>>,
) -> Result<Vec<Vec<SendEnd<Batch<M>>>>, NoMemory>
    requires count { length takes.old.items ≡ nodes }
    requires none { (r : ℕ) → r < nodes → row_at (map (λ v. v.items) takes.old.items) r ≡ [] }
    ensures { IfOk result (λ sends. AllOpened nodes nodes (map (λ v. v.items) sends.items) (map (λ v. v.items) takes.new.items)) }
{
    let mut sends = Vec::with_capacity(alloc, nodes)?;
    for _ in 0..nodes {
        sends.push(open_row(alloc, takes)?)?;
    }
    Ok(sends)
}

/// New links from one sender to all receivers.
fn open_row<M: Drop>(
    alloc: Global,
    takes: &mut Vec<Vec<TakeEnd<Batch<M>>>>,
) -> Result<Vec<SendEnd<Batch<M>>>, NoMemory>
    ensures { IfOk result (λ row. RowOpened (length takes.old.items) row.items (map (λ v. v.items) takes.old.items) (map (λ v. v.items) takes.new.items)) }
{
    let mut row = Vec::with_capacity(alloc, takes.len())?;
    for receiver in 0..takes.len() {
        row.push(open_link(alloc, &mut takes[receiver])?)?;
    }
    Ok(row)
}

/// A new link. Its take end goes after others.
fn open_link<M: Drop>(
    alloc: Global,
    takes: &mut Vec<TakeEnd<Batch<M>>>,
) -> Result<SendEnd<Batch<M>>, NoMemory>
    ensures { IfOk result (λ send. (take : End (List (Stamped M))) × ((takes.new.items ≡ takes.old.items ++ take ∷ []) × AreFresh send take)) }
{
    let (send, take) = fifo_link::Link::open(alloc, LINK_CAPACITY)?;
    takes.push(take)?;
    Ok(send)
}

/// Closes the links of one sender. Each receiver's way in from it is its first. The lists of the links go after those before.
pub fn close_row<M: Drop, R: Wait>(
    rt: &R,
    mut row: VecDeque<WayOut<M>>,
    ins: &mut Vec<VecDeque<WayIn<M>>>,
    links: &mut Vec<Link<M>>,
) -> Result<(), NoMemory>
    requires { CanClose row.items (map (λ v. v.items) ins.old.items) }
    ensures { OnOk result (RowClosed (length row.items) row.items (closing (map (λ v. v.items) ins.old.items) links.old.items)
        (closing (map (λ v. v.items) ins.new.items) links.new.items)) }
{
    let mut receiver = 0;
    while let Some(way_out) = row.pop_front() {
        let Some(way_in) = ins[receiver].pop_front() else {
            unreachable!()
        };
        links.push(close_way(rt, way_in, way_out)?)?;
        receiver += 1;
    }
    Ok(())
}

/// Closes one link: what its receiver keeps, what was left on it, and what its sender got back.
fn close_way<M: Drop, R: Wait>(
    rt: &R,
    way_in: WayIn<M>,
    way_out: WayOut<M>,
) -> Result<Link<M>, NoMemory>
    requires { way_out.link ≡ way_in.link }
    ensures { IfOk result (λ list. Closed way_in way_out list) }
{
    let (take, mut list, batch) = way_in.parts();
    let (send, waiting) = way_out.parts();
    let left = close(rt, send, take).left;
    append_all(&mut list, batch, left, waiting)?;
    Ok(list)
}

/// Puts what was left of a batch, what was left on a link and what its sender got back after messages.
fn append_all<M: Drop>(
    list: &mut Link<M>,
    batch: Vec<Stamped<M>>,
    left: Vec<Batch<M>>,
    waiting: Vec<Stamped<M>>,
) -> Result<(), NoMemory>
    ensures { OnOk result (list.new ≡ list.old ++ messages (batch.items ++ (unpacked left.items ++ waiting.items))) }
{
    append(list, batch)?;
    append_batches(list, left)?;
    append(list, waiting)?;
    Ok(())
}

/// Puts the messages of batches after others.
fn append_batches<M: Drop>(list: &mut Link<M>, batches: Vec<Batch<M>>) -> Result<(), NoMemory>
    ensures { OnOk result (list.new ≡ list.old ++ messages (unpacked batches.items)) }
{
    for batch in batches {
        append(list, batch.into_vec())?;
    }
    Ok(())
}
