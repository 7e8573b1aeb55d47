//! The file tree.

ghost use Rattle.std.specs.Prelude.{◌≡◌, ◌≤◌, ◌^◌, IfOk, IsTrue, OnErr, OnOk, false};
ghost use Rattle.sky_nfs.specs.Calls.{is_change};
ghost use Rattle.sky_nfs.specs.Procedure.{getattr, procedure};
ghost use Rattle.sky_nfs.specs.Tree.{empty_tree};

use crate::attributes::getattr;
use crate::changes::apply_change;
use crate::predict::predict_change;
use crate::readings::answer_reading;
use sky_base::{Attr, Cred, Moment, NoMemory};
use sky_nfs::{Answer, Call, NfsStatus, RawHandle, valid_trees_stay_valid};
use sky_nodes::Nodes;
use std::alloc::Global;
use std::marker::Model;

/// A file tree in memory, whole. Contracts see it as a tree of the definitions, which is valid.
///
/// A look-up takes time in the logarithm of the number of nodes and of the directory's entries. A READ and a WRITE take
/// time in the bytes that they move. A READDIR takes time in the entries of its page besides the search for the first,
/// however many the directory has; a READDIRPLUS has one more look-up for each.
#[derive(Drop)]
pub struct Tree {
    nodes: Nodes,
    alloc: Global,
}

impl Model for Tree {
    ghost use Rattle.sky_nfs.specs.Tree as tree;
    ghost use Rattle.sky_nfs.specs.Validity.{IsValidTree};

    ghost Value = { tree.Tree };

    ghost view = { λ t. t.nodes };

    ghost invariant = { λ t. IsValidTree t.nodes };
}

impl Tree {
    ghost use Rattle.sky_nfs.specs.Validity.{IsValidTree};
    ghost use Rattle.sky_tree.specs.Memory.{takes_memory};

    /// The empty tree of a volume: the root alone, in which everyone may do all.
    ///
    /// `NoMemory` where there is no memory for it.
    pub fn empty(alloc: Global, volume: u64) -> Result<Tree, NoMemory>
        requires { volume ≤ 2 ^ 62 }
        ensures { IfOk result (λ tree. tree ≡ empty_tree volume) }
    {
        let nodes = Nodes::empty(alloc, volume)?;
        Ok(Tree { nodes, alloc })
    }

    /// Tells what is true of every tree, for proofs. It does nothing.
    pub fn facts(&self)
        ensures { IsValidTree self.now }
    {
        let _alloc = self.alloc;
    }

    /// The number of the volume.
    pub fn volume(&self) -> u64
        ensures { result ≡ self.now.volume }
    {
        self.nodes.volume()
    }

    /// What GETATTR answers: the attributes of the object that a handle names (RFC 1813 section 3.3.1). It takes no
    /// memory.
    pub fn getattr(&self, object: &RawHandle) -> Result<Attr, NfsStatus>
        ensures { result ≡ getattr self.now object.now }
    {
        getattr(&self.nodes, object)
    }

    /// What `apply` will answer to a call, told while the tree is as before: so an entry of the journal can be written
    /// between the answer and the change.
    ///
    /// `NoMemory` where there is no memory for the bytes, the text or the entries that the answer carries. For a call that
    /// changes the tree none is taken: no directory, no file and no text is copied.
    pub fn answer(
        &self,
        epoch: u64,
        cred: &Cred,
        call: &Call,
        moment: Moment,
    ) -> Result<Answer, NoMemory>
        ensures answer { IfOk result (λ answer. answer ≡ (procedure self.now epoch cred.now call.now moment).answer) }
        ensures reads { OnErr result (is_change call.now ≡ false) }
        ensures memory { OnErr result (IsTrue (takes_memory self.now cred.now call.now)) }
    {
        if call.changes() {
            let answer = predict_change(self.alloc, &self.nodes, epoch, cred, call, moment);
            Ok(answer)
        } else {
            answer_reading(self.alloc, &self.nodes, epoch, cred, call)
        }
    }

    /// Does a call, and answers it, in this epoch and at this moment (RFC 1813 section 3.3).
    ///
    /// `NoMemory` where there is no memory for the answer, or for what the tree grows by. All is as it was then. No memory is
    /// taken for NULL, GETATTR, ACCESS, FSSTAT, FSINFO, PATHCONF and COMMIT, nor for a call without name, text or data that
    /// is refused.
    pub fn apply(
        &mut self,
        epoch: u64,
        cred: &Cred,
        call: &Call,
        moment: Moment,
    ) -> Result<Answer, NoMemory>
        ensures answer { IfOk result (λ answer. answer ≡ (procedure self.old epoch cred.now call.now moment).answer) }
        ensures tree { OnOk result (self.new ≡ (procedure self.old epoch cred.now call.now moment).tree) }
        ensures valid { IsValidTree self.new }
        ensures err { OnErr result (self.new ≡ self.old) }
        ensures memory { OnErr result (IsTrue (takes_memory self.old cred.now call.now)) }
    {
        valid_trees_stay_valid();
        if call.changes() {
            apply_change(self.alloc, &mut self.nodes, epoch, cred, call, moment)
        } else {
            answer_reading(self.alloc, &self.nodes, epoch, cred, call)
        }
    }
}
