//! The nodes of a file tree by their fileids.

ghost use Rattle.std.specs.Prelude.{◌≡◌, ◌+◌, ◌^◌, ◌<◌, IfOk, OnErr, OnOk, length, option_copied};
ghost use Rattle.std.specs.Borrow.{sem};
ghost use Rattle.std.specs.Option.{option_copied_mut};
ghost use Rattle.sky_nodes.specs.Ascending.{Ascends};
ghost use Rattle.sky_nodes.specs.Lending.{LendsNode};
ghost use Rattle.sky_nfs.specs.Changes.{erase, grow};
ghost use Rattle.sky_nfs.specs.Tree.{empty_tree, node_at};

use super::Node;
use sky_base::NoMemory;
use std::alloc::Global;
use std::collections::BTreeMap;
use std::marker::Model;

/// The nodes of a volume by their fileids, whatever tree they make. Contracts see them as a tree of the definitions.
///
/// A call takes time in the logarithm of the number of nodes, and what its node's own change takes.
#[derive(Drop)]
pub struct Nodes {
    volume: u64,
    nodes: BTreeMap<u64, Node>,
    next_fileid: u64,
}

impl Model for Nodes {
    ghost use Rattle.std.specs.BTreeMap.{keys};
    ghost use Rattle.std.specs.List.Sorted.{IsStrictlySortedBy};
    ghost use Rattle.std.specs.Ordering.{nat_cmp};
    ghost use Rattle.sky_nfs.specs.Tree as tree;

    ghost Value = { tree.Tree };

    ghost view = { λ n. record { volume = n.volume; nodes = n.nodes.entries; next_fileid = n.next_fileid } };

    ghost invariant = { λ n. IsStrictlySortedBy nat_cmp (keys n.nodes) };
}

impl Nodes {
    /// The empty tree of a volume: the root alone.
    pub fn empty(alloc: Global, volume: u64) -> Result<Nodes, NoMemory>
        ensures { IfOk result (λ nodes. nodes ≡ empty_tree volume) }
    {
        let mut nodes = BTreeMap::new(alloc);
        nodes.insert(1, Node::empty_root(alloc))?;
        Ok(Nodes {
            volume,
            nodes,
            next_fileid: 2,
        })
    }

    /// The volume's number.
    pub fn volume(&self) -> u64
        ensures { result ≡ self.now.volume }
    {
        self.volume
    }

    /// The fileid that is given next.
    pub fn next_fileid(&self) -> u64
        ensures { result ≡ self.now.next_fileid }
    {
        self.next_fileid
    }

    /// How many nodes there are.
    pub fn len(&self) -> usize
        ensures { result ≡ length self.now.nodes }
    {
        self.nodes.len()
    }

    /// The node of a fileid.
    pub fn get(&self, fileid: u64) -> Option<&Node>
        ensures { option_copied result ≡ node_at self.now.nodes fileid }
    {
        self.nodes.get(&fileid)
    }

    /// The nodes stand in the order of their fileids. It does nothing: its contract is for callers' proofs.
    pub(crate) fn fileids_ascend(&self)
        ensures { Ascends self.now }
    {
        let _ = &self.nodes;
    }

    /// There is no node of this fileid any more.
    pub fn erase(&mut self, fileid: u64)
        ensures { self.new ≡ erase self.old fileid }
    {
        let _ = self.nodes.remove(&fileid);
    }

    /// There is a new node, which takes the next fileid. The answer is that fileid.
    ///
    /// `NoMemory` where there is no memory for it. All is as it was then.
    pub(crate) fn grow(&mut self, node: Node) -> Result<u64, NoMemory>
        requires { self.old.next_fileid + 1 < 2 ^ 64 }
        ensures fileid { IfOk result (λ fileid. fileid ≡ self.old.next_fileid) }
        ensures grown { OnOk result (self.new ≡ grow self.old node) }
        ensures err { OnErr result (self.new ≡ self.old) }
    {
        let fileid = self.next_fileid;
        self.nodes.insert(fileid, node)?;
        self.next_fileid = fileid + 1;
        Ok(fileid)
    }

    /// Takes back a new node: its fileid is given next again.
    pub(crate) fn take_back(&mut self, fileid: u64)
        ensures { self.new ≡ record (erase self.old fileid) { next_fileid = fileid } }
    {
        let _ = self.nodes.remove(&fileid);
        self.next_fileid = fileid;
    }

    /// The node of a fileid, to change.
    pub fn get_mut(&mut self, fileid: u64) -> Option<&mut Node>
        ensures* writes_back { sem 𝓛 (LendsNode self.entry fileid result) }
        ensures value { option_copied_mut result ≡ node_at self.old.nodes fileid }
    {
        self.nodes.get_mut(&fileid)
    }
}
