//! An entry moves to another name, and what its node counts with it.

ghost use Rattle.std.specs.Prelude.{◌≡◌, ◌≢◌, ◌+◌, ◌^◌, ◌<◌, ◌≤◌, IfSome, IsSome, OnErr, OnOk, cond, false};
ghost use Rattle.std.specs.Str.{bytes_eq};
ghost use Rattle.sky_base.specs.Limits.{max_cookie, max_directory_bytes};
ghost use Rattle.sky_base.specs.Listing.{size_of_listing};
ghost use Rattle.sky_nfs.specs.Changes.{edit, enter, leave, remove_name, stamp};
ghost use Rattle.sky_nfs.specs.Procedures.Rename.{move_directory, move_name};
ghost use Rattle.sky_nfs.specs.Tree.{listing_of, named, node_at, the_node};

use super::Nodes;
use sky_base::{Moment, Name, NoMemory};

impl Nodes {
    /// A name of a directory stands for this node from now on. The entry that had the name goes, and what becomes of
    /// its node. A cookie is left for the new entry.
    ///
    /// `NoMemory` where there is no memory for it. All is as it was then.
    fn replace_name(
        &mut self,
        now: Moment,
        dir: u64,
        name: Name,
        fileid: u64,
    ) -> Result<(), NoMemory>
        requires there { IsSome (node_at self.old.nodes dir) }
        requires apart { IfSome (named self.old dir name) (λ old. old ≢ dir) }
        requires cookie { (listing_of (the_node self.old dir)).next_cookie < max_cookie }
        requires size { size_of_listing (listing_of (the_node self.old dir)) ≤ max_directory_bytes }
        ensures replaced { OnOk result (self.new ≡ edit (remove_name self.old now dir name) dir (λ d. enter now name fileid d)) }
        ensures err { OnErr result (self.new ≡ self.old) }
    {
        self.fileids_ascend();
        let old = self.named(dir, name.as_bytes());
        self.replace(dir, now, name, fileid)?;
        if let Some(old) = old {
            self.release(now, dir, old);
        }
        Ok(())
    }

    /// A directory that moves has another parent, and counts there.
    fn move_directory(&mut self, from: u64, to: u64, fileid: u64)
        requires source { IsSome (node_at self.old.nodes from) }
        requires target { IsSome (node_at self.old.nodes to) }
        requires node { IsSome (node_at self.old.nodes fileid) }
        requires fits { (the_node self.old to).nlink + 1 < 2 ^ 32 }
        ensures { self.new ≡ move_directory self.old from to fileid }
    {
        self.set_parent(fileid, to);
        self.drop_link(from);
        self.add_link(to);
    }

    /// The old name of a node that has another one goes, now. A directory counts where it came to.
    fn leave_for(
        &mut self,
        now: Moment,
        from: u64,
        name: &[u8],
        to: u64,
        fileid: u64,
        is_directory: bool,
    )
        requires source { IsSome (node_at self.old.nodes from) }
        requires target { IsSome (node_at self.old.nodes to) }
        requires node { IsSome (node_at self.old.nodes fileid) }
        requires fits { (the_node self.old to).nlink + 1 < 2 ^ 32 }
        ensures { let left = edit (edit self.old from (λ d. leave now name.now d)) fileid (λ n. stamp now n) in self.new ≡ cond is_directory (move_directory left from to fileid) left }
    {
        self.leave(from, now, name);
        self.stamp(fileid, now);
        if is_directory {
            self.move_directory(from, to, fileid);
        }
    }

    /// The entry of a name moves to another name, in the same directory or in another one, and stands behind all
    /// others there. The entry that had that name goes, and what becomes of its node: it is another node than the one
    /// that moves and than both directories.
    ///
    /// `NoMemory` where there is no memory for the new entry. All is as it was then.
    pub fn move_name(
        &mut self,
        now: Moment,
        from: u64,
        from_name: &[u8],
        to: u64,
        to_name: Name,
        fileid: u64,
    ) -> Result<(), NoMemory>
        requires source { IsSome (node_at self.old.nodes from) }
        requires target { IsSome (node_at self.old.nodes to) }
        requires node { IsSome (node_at self.old.nodes fileid) }
        requires fits { (the_node self.old to).nlink + 1 < 2 ^ 32 }
        requires apart { IfSome (named self.old to to_name) (λ old. (old ≢ to) × (old ≢ from) × (old ≢ fileid)) }
        requires differ { from ≡ to → bytes_eq to_name from_name.now ≡ false }
        requires cookie { (listing_of (the_node self.old to)).next_cookie < max_cookie }
        requires size { size_of_listing (listing_of (the_node self.old to)) ≤ max_directory_bytes }
        ensures moved { OnOk result (self.new ≡ move_name self.old now from from_name.now to to_name fileid) }
        ensures err { OnErr result (self.new ≡ self.old) }
    {
        let is_directory = self.is_directory(fileid);
        self.replace_name(now, to, to_name, fileid)?;
        self.leave_for(now, from, from_name, to, fileid, is_directory);
        Ok(())
    }
}
