//! Changes of one node among the others.

ghost use Rattle.std.specs.Prelude.{◌≡◌, ◌+◌, ◌^◌, ◌<◌, ◌≤◌, IsSome, OnErr, OnOk, None, Some, false, length};
ghost use Rattle.sky_base.specs.Limits.{max_cookie, max_directory_bytes};
ghost use Rattle.sky_base.specs.Listing.{fileid_at, size_of_listing};
ghost use Rattle.sky_dir.specs.Rows.{is_crowded};
ghost use Rattle.sky_nfs.specs.Changes.{add_link, drop_link, edit, enter, leave, stamp, with_parent, with_size};
ghost use Rattle.sky_nfs.specs.Procedures.SetAttr.{set_node};
ghost use Rattle.sky_nfs.specs.Procedures.Write.{write_node};
ghost use Rattle.sky_nfs.specs.Tree.{listing_of, node_at, the_node};

use super::Nodes;
use sky_base::{Moment, Name, NoMemory};
use sky_nfs::SetAttr;

impl Nodes {
    /// The attributes of a node were changed now.
    pub fn stamp(&mut self, fileid: u64, now: Moment)
        requires { IsSome (node_at self.old.nodes fileid) }
        ensures { self.new ≡ edit self.old fileid (λ n. stamp now n) }
    {
        if let Some(node) = self.get_mut(fileid) {
            node.stamp(now);
        }
    }

    /// A node has a link more.
    pub fn add_link(&mut self, fileid: u64)
        requires there { IsSome (node_at self.old.nodes fileid) }
        requires fits { (the_node self.old fileid).nlink + 1 < 2 ^ 32 }
        ensures { self.new ≡ edit self.old fileid add_link }
    {
        if let Some(node) = self.get_mut(fileid) {
            node.add_link();
        }
    }

    /// A node has a link more, from now on.
    pub(crate) fn add_link_now(&mut self, fileid: u64, now: Moment)
        requires there { IsSome (node_at self.old.nodes fileid) }
        requires fits { (the_node self.old fileid).nlink + 1 < 2 ^ 32 }
        ensures { self.new ≡ edit self.old fileid (λ n. stamp now (add_link n)) }
    {
        if let Some(node) = self.get_mut(fileid) {
            node.add_link();
            node.stamp(now);
        }
    }

    /// A node has a link less.
    pub fn drop_link(&mut self, fileid: u64)
        requires { IsSome (node_at self.old.nodes fileid) }
        ensures { self.new ≡ edit self.old fileid drop_link }
    {
        if let Some(node) = self.get_mut(fileid) {
            node.drop_link();
        }
    }

    /// A node has a link less, from now on.
    pub(crate) fn drop_link_now(&mut self, fileid: u64, now: Moment)
        requires { IsSome (node_at self.old.nodes fileid) }
        ensures { self.new ≡ edit self.old fileid (λ n. stamp now (drop_link n)) }
    {
        if let Some(node) = self.get_mut(fileid) {
            node.drop_link();
            node.stamp(now);
        }
    }

    /// A directory has another parent.
    pub fn set_parent(&mut self, fileid: u64, parent: u64)
        requires { IsSome (node_at self.old.nodes fileid) }
        ensures { self.new ≡ edit self.old fileid (λ n. record n { content = with_parent parent n.content }) }
    {
        if let Some(node) = self.get_mut(fileid) {
            node.set_parent(parent);
        }
    }

    /// A directory has an entry less, from now on.
    pub fn leave(&mut self, dir: u64, now: Moment, name: &[u8])
        requires { IsSome (node_at self.old.nodes dir) }
        ensures { self.new ≡ edit self.old dir (λ d. leave now name.now d) }
    {
        if let Some(node) = self.get_mut(dir) {
            node.leave(now, name);
        }
    }

    /// A directory that has no such name, and has room for it, has an entry more from now on.
    ///
    /// `NoMemory` where there is no memory for it. All is as it was then.
    pub fn enter(&mut self, dir: u64, now: Moment, name: Name, fileid: u64) -> Result<(), NoMemory>
        requires there { IsSome (node_at self.old.nodes dir) }
        requires absent { fileid_at (listing_of (the_node self.old dir)) name ≡ None }
        requires room { is_crowded (listing_of (the_node self.old dir)) name ≡ false }
        ensures entered { OnOk result (self.new ≡ edit self.old dir (λ d. enter now name fileid d)) }
        ensures err { OnErr result (self.new ≡ self.old) }
    {
        match self.get_mut(dir) {
            Some(node) => node.enter(now, name, fileid),
            None => Ok(()),
        }
    }

    /// In a directory the entry of a name goes where there is one, and one of the name and this fileid is added, from
    /// now on. A cookie is left for it.
    ///
    /// `NoMemory` where there is no memory for it. All is as it was then.
    pub fn replace(
        &mut self,
        dir: u64,
        now: Moment,
        name: Name,
        fileid: u64,
    ) -> Result<(), NoMemory>
        requires there { IsSome (node_at self.old.nodes dir) }
        requires cookie { (listing_of (the_node self.old dir)).next_cookie < max_cookie }
        requires size { size_of_listing (listing_of (the_node self.old dir)) ≤ max_directory_bytes }
        ensures replaced { OnOk result (self.new ≡ edit self.old dir (λ d. enter now name fileid (leave now name d))) }
        ensures err { OnErr result (self.new ≡ self.old) }
    {
        match self.get_mut(dir) {
            Some(node) => node.replace(now, name, fileid),
            None => Ok(()),
        }
    }

    /// A file is cut to a size or continued, now.
    ///
    /// `NoMemory` where there is no memory for the zeros. All is as it was then.
    pub fn take_size(&mut self, fileid: u64, size: u64, now: Moment) -> Result<(), NoMemory>
        requires { IsSome (node_at self.old.nodes fileid) }
        ensures set { OnOk result (self.new ≡ edit self.old fileid (λ n. stamp now (with_size (Some size) now n))) }
        ensures err { OnErr result (self.new ≡ self.old) }
    {
        match self.get_mut(fileid) {
            Some(node) => node.take_size(size, now),
            None => Ok(()),
        }
    }

    /// A node gets the attributes that a caller sets, now.
    ///
    /// `NoMemory` where there is no memory for the zeros of a size. All is as it was then.
    pub fn set(&mut self, fileid: u64, set: &SetAttr, now: Moment) -> Result<(), NoMemory>
        requires { IsSome (node_at self.old.nodes fileid) }
        ensures set { OnOk result (self.new ≡ edit self.old fileid (λ n. set_node set.now now n)) }
        ensures err { OnErr result (self.new ≡ self.old) }
    {
        match self.get_mut(fileid) {
            Some(node) => node.set(set, now),
            None => Ok(()),
        }
    }

    /// A piece is written at an offset of a file, now.
    ///
    /// `NoMemory` where there is no memory for what the file grows by. All is as it was then.
    pub fn write(
        &mut self,
        fileid: u64,
        now: Moment,
        offset: u64,
        piece: &[u8],
    ) -> Result<(), NoMemory>
        requires there { IsSome (node_at self.old.nodes fileid) }
        requires fits { offset + length piece.now < 2 ^ 64 }
        ensures written { OnOk result (self.new ≡ edit self.old fileid (λ n. write_node now offset piece.now n)) }
        ensures err { OnErr result (self.new ≡ self.old) }
    {
        match self.get_mut(fileid) {
            Some(node) => node.write(now, offset, piece),
            None => Ok(()),
        }
    }
}
