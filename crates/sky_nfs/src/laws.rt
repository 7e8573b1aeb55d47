//! What holds of the definitions as such. A call of these functions does nothing: each of their clauses is a law that
//! is proved.

ghost use Rattle.std.specs.Prelude.{◌≡◌, ℕ, ◌<◌, ◌≤◌, ◌^◌, Some, false};
ghost use Rattle.sky_base.specs.Limits.{max_handle_bytes, max_volume};
ghost use Rattle.sky_base.specs.declared.cred.Cred.{Cred};
ghost use Rattle.sky_base.specs.declared.moment.Moment.{Moment};
ghost use Rattle.sky_nfs.specs.Calls.{is_change};
ghost use Rattle.sky_nfs.specs.Handles.{handle_bytes, volume_in, fileid_in};
ghost use Rattle.sky_nfs.specs.Laws.{EachCallKeepsValid};
ghost use Rattle.sky_nfs.specs.Procedure.{procedure, refusal_of};
ghost use Rattle.sky_nfs.specs.Results.{with_verifier};
ghost use Rattle.sky_nfs.specs.Tree.{Tree, Node, empty_tree, node_at, attributes_of, links_of};
ghost use Rattle.sky_nfs.specs.Validity.{IsValidTree};
ghost use Rattle.sky_nfs.specs.declared.call.Call.{Call};
ghost use Rattle.sky_nfs.specs.declared.status.NfsStatus.{NfsStatus};

use crate::handle::RawHandle;

/// A call that is refused leaves the tree, and so does a call of a procedure that only reads.
pub fn refusals_and_readings_leave_the_tree()
    ensures refused { (t : Tree) (epoch : ℕ) (cred : Cred) (call : Call) (now : Moment) (status : NfsStatus)
        → refusal_of t cred call ≡ Some status → (procedure t epoch cred call now).tree ≡ t }
    ensures reading { (t : Tree) (epoch : ℕ) (cred : Cred) (call : Call) (now : Moment)
        → is_change call ≡ false → (procedure t epoch cred call now).tree ≡ t }
{}

/// The epoch is told by write verifiers alone: the tree after a call is the same in every epoch, and so is the answer
/// but for its write verifier, which is the epoch.
pub fn epochs_are_told_by_write_verifiers()
    ensures tree { (t : Tree) (epoch other : ℕ) (cred : Cred) (call : Call) (now : Moment)
        → (procedure t epoch cred call now).tree ≡ (procedure t other cred call now).tree }
    ensures answer { (t : Tree) (epoch other : ℕ) (cred : Cred) (call : Call) (now : Moment)
        → (procedure t epoch cred call now).answer ≡ with_verifier epoch (procedure t other cred call now).answer }
{}

/// In a valid tree the number of links that a node tells is counted from the entries.
pub fn links_are_counted()
    ensures { (t : Tree) (fileid : ℕ) (node : Node)
        → IsValidTree t → node_at t.nodes fileid ≡ Some node
        → (attributes_of t.volume fileid node).nlink ≡ links_of t fileid node }
{}

/// The empty tree of each volume is valid, and a valid tree stays valid under every call, whoever calls, and whenever.
pub fn valid_trees_stay_valid()
    ensures begins { (volume : ℕ) → volume ≤ max_volume → IsValidTree (empty_tree volume) }
    ensures stays { EachCallKeepsValid }
{}

/// The limit that the code has is that of the definition.
pub fn limit_is_as_defined()
    ensures { RawHandle.MAX ≡ max_handle_bytes }
{}

/// A handle gives back the volume and the fileid that it was made of, so that no two nodes have one handle.
pub fn handles_are_read_back()
    ensures volume { (volume fileid : ℕ) → volume < 2 ^ 64 → volume_in (handle_bytes volume fileid) ≡ volume }
    ensures fileid { (volume fileid : ℕ) → fileid < 2 ^ 64 → fileid_in (handle_bytes volume fileid) ≡ fileid }
{}
