//! Reading what the journal of a disk holds.
ghost use Rattle.std.specs.Prelude.{◌≡◌, ◌≢◌, ◌↔◌, ℕ, ◌+◌, ◌<◌, ◌≤◌, ◌^◌, All, List, IfOk, IfErr, OnOk, IsTrue, length};
ghost use Rattle.std.specs.FinMap.{insert};
ghost use Rattle.std.specs.Option.{IfSome};
ghost use Rattle.fx_disk.specs.Seen.{HasOnlyRead};
ghost use Rattle.fx_item.specs.Look.{value_in};
ghost use Rattle.fx_namespace.specs.Nodes.{Stands};
ghost use Rattle.fx_namespace.specs.Trees.{IsTreeOf, bare};
ghost use Rattle.fx_record.specs.Commits.{IsCommit};
ghost use Rattle.fx_plain.specs.Tree.{IsCountable, node_count};
ghost use Rattle.fx_record.specs.Txns as records;
ghost use Rattle.fx_record.specs.Txns.{txns_of};
ghost use Rattle.fx_journal.specs.Stream.{IsSeries};
ghost use Rattle.fx_super.specs.Super.{KeepsRules, fields_of};
ghost use Rattle.fx_log.specs.Chosen.{ChoosesSuper, start_of};
ghost use Rattle.fx_image.specs.Standing.{HasSessionRoom, Transactions, kept, stream_pieces};
ghost use Rattle.fx_store.specs.Opening.{IsRead};
ghost use Rattle.fx_store.specs.Session.{KnowsNodes, new_step};
ghost use Rattle.fx_store.specs.declared.opening.TheConstants.{MAX_OPENING_NODES};
ghost use Rattle.fx_mount.specs.Found.{CanGoOn, HasReadWell, HasStream, HasSuper, IsMountCause};
ghost use Rattle.fx_mount.specs.Growing.{AreParentsFirst, HasFewNodes, HasNodes, HasPaths, MayStand, empty_node};
ghost use Rattle.fx_mount.specs.Reading.{HoldsContents, IsGathered, IsReadFault};

use crate::fault::MountFault;
use fx_disk::Disk;
use fx_journal::{Blocks, Stream, WalkFault, walk};
use fx_nodes::{ItemTable, TreeNode, TreeNodes, check, tree_nodes};
use fx_plain::{Kind, Plain, Step};
use fx_record::{Piece, Txns, TxnsFault, read_txns};
use fx_store::{Contents, NodeMap, start_of};
use fx_super::Super;
use std::alloc::{AllocError, Global};

/// Reads the stream, its transactions and the tree that their items make. One pass over the
/// stream's blocks, and the time of its records and of the nodes.
pub(crate) fn read_journal<D: Disk>(
    alloc: Global,
    disk: &mut D,
    sup: &Super,
) -> Result<Contents, MountFault>
    requires goes_on { CanGoOn (D.seen disk.old).size (fields_of sup.now) }
    requires chosen { IfSome (D.seen disk.old).told
        (λ r. ChoosesSuper (fields_of sup.now) r.contents) }
    ensures read { IfOk result (IsRead (D.seen disk.old) (fields_of sup.now)) }
    ensures well { OnOk result (HasReadWell (D.seen disk.old) (D.seen disk.new)) }
    ensures cause { IfErr result (IsMountCause (D.seen disk.old) (D.seen disk.new)) }
    ensures only { HasOnlyRead (D.seen disk.old) (D.seen disk.new) }
{
    let stream = match walk(alloc, disk, start_of(sup), sup.ring, sup.generation) {
        Ok(stream) => stream,
        Err(WalkFault::Device) => return Err(MountFault::Device),
        Err(WalkFault::OutOfMemory) => return Err(MountFault::OutOfMemory),
    };
    match read_contents(alloc, sup, stream) {
        Ok(contents) => Ok(contents),
        Err(fault) => Err(fault),
    }
}

/// What the blocks of the stream hold, or the first fault of it.
fn read_contents(alloc: Global, sup: &Super, stream: Stream) -> Result<Contents, MountFault>
    requires rules { KeepsRules (fields_of sup.now) }
    requires few { length stream.blocks ≤ sup.now.ring }
    requires series { IsSeries sup.now.generation (start_of (fields_of sup.now))
        stream.blocks stream.next }
    ensures holds { IfOk result
        (HoldsContents (fields_of sup.now) stream.blocks stream.next) }
    ensures refused { IfErr result (λ fault. (size : ℕ) (image : List (List ℕ)) →
        HasSuper size image (fields_of sup.now) →
        HasStream image (fields_of sup.now) stream.blocks → IsReadFault size image fault) }
    ensures memory { IfErr result (λ fault. fault ≢ MountFault.Device) }
{
    let closed = stream.blocks.len() as u32;
    let next = stream.next;
    let pieces = stream_pieces(alloc, stream.blocks)?;
    let txns = match read_txns(alloc, sup.base, &pieces) {
        Ok(txns) => txns,
        Err(TxnsFault::BadRecord(place)) => return Err(MountFault::BadRecord(place)),
        Err(TxnsFault::OutOfMemory) => return Err(MountFault::OutOfMemory),
    };
    let table = gather(alloc, sup, &txns)?;
    if let Some(node) = check(alloc, &table)? {
        return Err(MountFault::BadTree {
            store: node.store,
            id: node.id,
        });
    }
    let made = tree_of(alloc, &table)?;
    let base = sup.base + txns.as_slice().len() as u64;
    if !has_room(sup, base, &table) {
        return Err(MountFault::Cramped(0));
    }
    let (tree, nodes) = made;
    Ok(Contents {
        closed,
        next,
        base,
        txns,
        tree,
        nodes,
        next_id: table.next_id(),
        next_store: table.next_store(),
    })
}

/// The blocks as their epochs and record bytes.
fn stream_pieces(alloc: Global, blocks: Blocks) -> Result<Vec<Piece>, AllocError>
    ensures { IfOk result (λ pieces. records.pieces_of pieces.items ≡ stream_pieces blocks) }
{
    let mut pieces = Vec::with_capacity(alloc, blocks.len())?;
    for block in blocks.into_vec() {
        pieces.push(Piece {
            epoch: block.epoch,
            records: block.records,
        })?;
    }
    Ok(pieces)
}

/// What stands after all transactions.
fn gather(alloc: Global, sup: &Super, txns: &Txns) -> Result<ItemTable, AllocError>
    requires { All (λ t. IsCommit t.1) (txns_of txns.now) }
    ensures { IfOk result (IsGathered (fields_of sup.now) (txns_of txns.now)) }
{
    let mut table = ItemTable::new(alloc, sup.next_id, sup.next_store);
    for (_, items) in txns.as_slice() {
        table.put(items.as_slice())?;
    }
    Ok(table)
}

/// Whether the numbers leave room for a session.
fn has_room(sup: &Super, base: u64, table: &ItemTable) -> bool
    requires rules { KeepsRules (fields_of sup.now) }
    requires few { base < 2 ^ 63 }
    ensures { (txns : Transactions) → kept (fields_of sup.now) txns ≡ base →
        IsGathered (fields_of sup.now) txns table.now →
        IsTrue result ↔ HasSessionRoom (fields_of sup.now) txns }
{
    const COUNTS: u64 = 1 << 40;
    const IDS: u64 = 1 << 23;
    sup.generation + COUNTS <= 1 << 63
        && sup.sequence + COUNTS <= 1 << 62
        && base + COUNTS <= 1 << 62
        && table.next_id() <= (1 << 62) - IDS
        && u64::from(table.next_store()) + IDS <= 1 << 31
}

/// The tree of items that make one, and the node of each of its paths.
fn tree_of(alloc: Global, table: &ItemTable) -> Result<(Plain, NodeMap), AllocError>
    requires stands { Stands (value_in table.now.items) }
    requires few { HasFewNodes (value_in table.now.items) }
    ensures tree { IfOk result (λ made. IsTreeOf (value_in table.now.items) bare made.0) }
    ensures nodes { IfOk result (λ made. KnowsNodes (value_in table.now.items) made.1) }
    ensures small { IfOk result (λ made. node_count made.0 ≤ MAX_OPENING_NODES) }
{
    let nodes = tree_nodes(alloc, table)?;
    grow(alloc, nodes)
}

/// The tree of these nodes, parents before their children, and the node of each of its paths.
fn grow(alloc: Global, nodes: TreeNodes) -> Result<(Plain, NodeMap), AllocError>
    requires first { AreParentsFirst nodes }
    requires few { length nodes < MAX_OPENING_NODES }
    ensures tree { IfOk result (λ made. HasNodes nodes (length nodes) made.0) }
    ensures nodes { IfOk result (λ made. HasPaths nodes (length nodes) made.1) }
    ensures small { IfOk result (λ made. node_count made.0 ≤ length nodes + 1) }
{
    let mut tree = Plain::new(alloc)?;
    let mut paths = NodeMap::new(alloc)?;
    for node in nodes.into_vec() {
        add_node(alloc, &mut tree, &mut paths, node)?;
    }
    Ok((tree, paths))
}

/// Puts a node of the image into the tree: a directory, or a file that holds nothing.
fn add_node(
    alloc: Global,
    tree: &mut Plain,
    paths: &mut NodeMap,
    node: TreeNode,
) -> Result<(), AllocError>
    requires few { IsCountable tree.old }
    requires stands { MayStand tree.old node.path node.kind }
    ensures tree { OnOk result (tree.new ≡ insert tree.old node.path (empty_node node.kind)) }
    ensures paths { OnOk result (paths.new ≡ insert paths.old node.path node.node) }
{
    paths.put(alloc, node.path.as_slice(), node.node)?;
    let step = making(node);
    let Ok(_) = tree.step(alloc, &step)? else {
        unreachable!();
    };
    Ok(())
}

/// The step that makes a node.
fn making(node: TreeNode) -> Step
    ensures { result ≡ new_step node.kind node.path }
{
    match node.kind {
        Kind::Dir => Step::Mkdir { path: node.path },
        Kind::File => Step::Create { path: node.path },
    }
}
