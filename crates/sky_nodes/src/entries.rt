//! Names that come and go, and the nodes with them.

ghost use Rattle.std.specs.Prelude.{◌≡◌, ◌≢◌, ◌+◌, ◌^◌, ◌<◌, IfOk, IfSome, IsSome, OnErr, OnOk, None, false, nat_le};
ghost use Rattle.sky_base.specs.Listing.{fileid_at};
ghost use Rattle.sky_dir.specs.Rows.{is_crowded};
ghost use Rattle.sky_nfs.specs.Changes.{add_link, add_node, edit, enter, release, remove_name, stamp, unlink};
ghost use Rattle.sky_nfs.specs.Tree.{is_directory, listing_of, named, node_at, the_node};

use super::{Node, Nodes};
use sky_base::{Moment, Name, NoMemory};

impl Nodes {
    /// There is a new node under a name of a directory that has no such name, and has room for it. The answer is its
    /// fileid.
    ///
    /// `NoMemory` where there is no memory for it. All is as it was then.
    pub fn add_node(
        &mut self,
        now: Moment,
        dir: u64,
        name: Name,
        node: Node,
    ) -> Result<u64, NoMemory>
        requires fits { self.old.next_fileid + 1 < 2 ^ 64 }
        requires new { node_at self.old.nodes self.old.next_fileid ≡ None }
        requires there { IsSome (node_at self.old.nodes dir) }
        requires absent { fileid_at (listing_of (the_node self.old dir)) name ≡ None }
        requires room { is_crowded (listing_of (the_node self.old dir)) name ≡ false }
        ensures fileid { IfOk result (λ fileid. fileid ≡ self.old.next_fileid) }
        ensures added { OnOk result (self.new ≡ add_node self.old now dir name node) }
        ensures err { OnErr result (self.new ≡ self.old) }
    {
        let fileid = self.grow(node)?;
        let Ok(()) = self.enter(dir, now, name, fileid) else {
            self.take_back(fileid);
            return Err(NoMemory);
        };
        Ok(fileid)
    }

    /// A file or a link has one more name: a directory that has no such name, and has room for it, gets an entry.
    ///
    /// `NoMemory` where there is no memory for it. All is as it was then.
    pub fn link(&mut self, now: Moment, fileid: u64, dir: u64, name: Name) -> Result<(), NoMemory>
        requires node { IsSome (node_at self.old.nodes fileid) }
        requires fits { (the_node self.old fileid).nlink + 1 < 2 ^ 32 }
        requires there { IsSome (node_at self.old.nodes dir) }
        requires apart { fileid ≢ dir }
        requires absent { fileid_at (listing_of (the_node self.old dir)) name ≡ None }
        requires room { is_crowded (listing_of (the_node self.old dir)) name ≡ false }
        ensures linked { OnOk result (self.new ≡ edit (edit self.old fileid (λ n. stamp now (add_link n))) dir (λ d. enter now name fileid d)) }
        ensures err { OnErr result (self.new ≡ self.old) }
    {
        self.enter(dir, now, name, fileid)?;
        self.add_link_now(fileid, now);
        Ok(())
    }

    /// A file or a link has a link less. It goes with the last one.
    pub fn unlink(&mut self, now: Moment, fileid: u64)
        ensures { self.new ≡ unlink self.old now fileid }
    {
        if self.has_last_link(fileid) {
            self.erase(fileid);
        } else {
            self.drop_link_now(fileid, now);
        }
    }

    /// Whether a node has one link or none.
    fn has_last_link(&self, fileid: u64) -> bool
        ensures { result ≡ nat_le (the_node self.now fileid).nlink 1 }
    {
        self.get(fileid).is_none_or(|node| node.nlink() <= 1)
    }

    /// Whether a directory stands at a fileid.
    pub fn is_directory(&self, fileid: u64) -> bool
        ensures { result ≡ is_directory (the_node self.now fileid) }
    {
        self.get(fileid).is_some_and(|node| node.is_directory())
    }

    /// The node of an entry that went: a directory goes, and its parent has a subdirectory less. A file or a link has
    /// a link less.
    pub fn release(&mut self, now: Moment, dir: u64, fileid: u64)
        requires there { IsSome (node_at self.old.nodes dir) }
        requires apart { fileid ≢ dir }
        ensures { self.new ≡ release self.old now dir fileid }
    {
        if self.is_directory(fileid) {
            self.erase(fileid);
            self.drop_link(dir);
        } else {
            self.unlink(now, fileid);
        }
    }

    /// The fileid that a name stands for in a directory.
    pub fn named(&self, dir: u64, name: &[u8]) -> Option<u64>
        ensures { result ≡ named self.now dir name.now }
    {
        self.get(dir)?.find(name)
    }

    /// An entry goes, and what becomes of its node. Without such an entry all is as it was.
    pub fn remove_name(&mut self, now: Moment, dir: u64, name: &[u8])
        requires there { IsSome (node_at self.old.nodes dir) }
        requires apart { IfSome (named self.old dir name.now) (λ fileid. fileid ≢ dir) }
        ensures { self.new ≡ remove_name self.old now dir name.now }
    {
        if let Some(fileid) = self.named(dir, name) {
            self.leave(dir, now, name);
            self.release(now, dir, fileid);
        }
    }
}
