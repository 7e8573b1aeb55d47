//! A node of a file tree.

ghost use Rattle.std.specs.Prelude.{◌≡◌, ◌+◌, ◌^◌, ◌<◌, ◌≤◌, OnErr, OnOk, None, Some, false, length, nat_le, true};
ghost use Rattle.sky_base.specs.Limits.{max_cookie, max_directory_bytes};
ghost use Rattle.sky_base.specs.Listing.{fileid_at, size_of_listing, without_entry};
ghost use Rattle.sky_dir.specs.Rows.{is_crowded};
ghost use Rattle.sky_nfs.specs.Changes.{add_link, drop_link, enter, leave, new_node, set_time, stamp, with_attributes, with_parent, with_size};
ghost use Rattle.sky_nfs.specs.Procedures.Remove.{has_entries};
ghost use Rattle.sky_nfs.specs.Procedures.SetAttr.{set_node};
ghost use Rattle.sky_nfs.specs.Procedures.Write.{write_node};
ghost use Rattle.sky_nfs.specs.Tree.{attributes_of, empty_root, is_directory, is_file, is_link, kind_of, listing_of, parent_of, size_of};
ghost use Rattle.sky_nodes.specs.Contents.{content_of};

use super::FileBytes;
use sky_base::{Attr, Cred, Device, Kind, Moment, Name, NoMemory};
use sky_dir::Entries;
use sky_nfs::{Bytes, SetAttr, SetTime};
use std::alloc::Global;
use std::marker::Model;

/// The beginning of 1970.
const EPOCH_START: Moment = Moment {
    seconds: 0,
    nanos: 0,
};

/// What a node holds.
#[derive(Drop)]
pub enum Content {
    /// A regular file its bytes.
    File(FileBytes),
    /// A directory its parent's fileid, and its entries.
    Directory(u64, Entries),
    /// A symbolic link its text.
    Link(Bytes),
}

/// A node: what it holds, and those of its attributes that don't follow from that. Contracts see it as a node of the
/// definitions of the file tree.
#[derive(Drop)]
pub struct Node {
    mode: u32,
    nlink: u32,
    uid: u32,
    gid: u32,
    atime: Moment,
    mtime: Moment,
    ctime: Moment,
    verifier: Option<[u8; 8]>,
    content: Content,
}

impl Model for Node {
    ghost use Rattle.sky_nfs.specs.Tree as tree;

    ghost Value = { tree.Node };

    ghost use Rattle.sky_nodes.specs.Contents.{content_of};

    ghost view = { λ n. record { mode = n.mode; nlink = n.nlink; uid = n.uid; gid = n.gid; atime = n.atime; mtime = n.mtime; ctime = n.ctime; verifier = n.verifier; content = content_of n.content } };
}

impl Content {
    /// The kind of node that holds it.
    pub fn kind(&self) -> Kind
        ensures { result ≡ kind_of (content_of self.now) }
    {
        match self {
            Content::File(_) => Kind::Regular,
            Content::Directory(..) => Kind::Directory,
            Content::Link(_) => Kind::SymbolicLink,
        }
    }

    /// The size in bytes: of a file its length, of a directory that of its entries, of a link the text's length.
    pub fn size(&self) -> u64
        ensures { result ≡ size_of (content_of self.now) }
    {
        match self {
            Content::File(bytes) => bytes.len(),
            Content::Directory(_, entries) => entries.size(),
            Content::Link(text) => text.as_slice().len() as u64,
        }
    }
}

/// Whether a time is set, and to which.
fn set_time(how: SetTime, now: Moment, before: Moment) -> Moment
    ensures { result ≡ set_time how now before }
{
    match how {
        SetTime::Keep => before,
        SetTime::Server => now,
        SetTime::Client(time) => time,
    }
}

impl Node {
    /// A new node of a caller, which holds this and has this mode. All its times are now, and then come the attributes
    /// that the caller sets. A size isn't set.
    pub fn new(cred: &Cred, now: Moment, mode: u32, set: &SetAttr, content: Content) -> Node
        ensures { result ≡ new_node cred.now now mode set.now (content_of content) }
    {
        let nlink = match &content {
            Content::Directory(..) => 2,
            _ => 1,
        };
        let mut node = Node {
            mode,
            nlink,
            uid: cred.uid,
            gid: cred.gid,
            atime: now,
            mtime: now,
            ctime: now,
            verifier: None,
            content,
        };
        node.set_attributes(set, now);
        node
    }

    /// The root of an empty tree: a directory of user 0 in which everyone may do all.
    pub fn empty_root(alloc: Global) -> Node
        ensures { result ≡ empty_root }
    {
        Node {
            mode: 0o777,
            nlink: 2,
            uid: 0,
            gid: 0,
            atime: EPOCH_START,
            mtime: EPOCH_START,
            ctime: EPOCH_START,
            verifier: None,
            content: Content::Directory(1, Entries::new(alloc)),
        }
    }

    /// What it holds.
    pub fn content(&self) -> &Content
        ensures { content_of result.now ≡ self.now.content }
    {
        &self.content
    }

    /// Whether it is a regular file.
    pub fn is_file(&self) -> bool
        ensures { result ≡ is_file self.now }
    {
        matches!(self.content, Content::File(_))
    }

    /// Whether it is a directory.
    pub fn is_directory(&self) -> bool
        ensures { result ≡ is_directory self.now }
    {
        matches!(self.content, Content::Directory(..))
    }

    /// Whether it is a symbolic link.
    pub fn is_link(&self) -> bool
        ensures { result ≡ is_link self.now }
    {
        matches!(self.content, Content::Link(_))
    }

    /// How many links it has.
    pub fn nlink(&self) -> u32
        ensures { result ≡ self.now.nlink }
    {
        self.nlink
    }

    /// The verifier of the exclusive CREATE that made it.
    pub fn verifier(&self) -> Option<[u8; 8]>
        ensures { result ≡ self.now.verifier }
    {
        self.verifier
    }

    /// The parent's fileid, and 0 where it is no directory.
    pub fn parent(&self) -> u64
        ensures { result ≡ parent_of self.now }
    {
        match &self.content {
            Content::Directory(parent, _) => *parent,
            _ => 0,
        }
    }

    /// The fileid that a name stands for in it, where it is a directory that has the name.
    pub fn find(&self, name: &[u8]) -> Option<u64>
        ensures { result ≡ fileid_at (listing_of self.now) name.now }
    {
        match &self.content {
            Content::Directory(_, entries) => entries.find(name),
            _ => None,
        }
    }

    /// Whether an entry of this name would make a directory too large, or whether no cookie is left for it.
    pub fn is_crowded(&self, name: &[u8]) -> bool
        requires { is_directory self.now ≡ true }
        ensures { result ≡ is_crowded (listing_of self.now) name.now }
    {
        match &self.content {
            Content::Directory(_, entries) => entries.is_crowded(name),
            _ => false,
        }
    }

    /// Whether it is a directory that has entries.
    pub fn has_entries(&self) -> bool
        ensures { result ≡ has_entries self.now }
    {
        match &self.content {
            Content::Directory(_, entries) => entries.len() != 0,
            _ => false,
        }
    }

    /// The size of a directory without the entry of a name.
    pub fn size_without(&self, name: &[u8]) -> u64
        requires { is_directory self.now ≡ true }
        ensures { result ≡ size_of_listing (without_entry (listing_of self.now) name.now) }
    {
        match &self.content {
            Content::Directory(_, entries) => entries.size_without(name),
            _ => 0,
        }
    }

    /// Whether a directory has given out its last cookie.
    pub fn is_out_of_cookies(&self) -> bool
        requires { is_directory self.now ≡ true }
        ensures { result ≡ nat_le max_cookie (listing_of self.now).next_cookie }
    {
        match &self.content {
            Content::Directory(_, entries) => entries.next_cookie() >= Entries::MAX_COOKIE,
            _ => false,
        }
    }

    /// Its attributes, as the node of this fileid in this volume.
    pub fn attributes(&self, volume: u64, fileid: u64) -> Attr
        ensures { result ≡ attributes_of volume fileid self.now }
    {
        let size = self.content.size();
        Attr {
            kind: self.content.kind(),
            mode: self.mode,
            nlink: self.nlink,
            uid: self.uid,
            gid: self.gid,
            size,
            used: size,
            rdev: Device { major: 0, minor: 0 },
            fsid: volume,
            fileid,
            atime: self.atime,
            mtime: self.mtime,
            ctime: self.ctime,
        }
    }

    /// It keeps this verifier from now on.
    pub fn keep_verifier(&mut self, verifier: [u8; 8])
        ensures { self.new ≡ record self.old { verifier = Some verifier } }
    {
        self.verifier = Some(verifier);
    }

    /// Its attributes were changed now.
    pub fn stamp(&mut self, now: Moment)
        ensures { self.new ≡ stamp now self.old }
    {
        self.ctime = now;
    }

    /// It has a link more.
    pub fn add_link(&mut self)
        requires { self.old.nlink + 1 < 2 ^ 32 }
        ensures { self.new ≡ add_link self.old }
    {
        self.nlink += 1;
    }

    /// It has a link less.
    pub fn drop_link(&mut self)
        ensures { self.new ≡ drop_link self.old }
    {
        self.nlink = self.nlink.saturating_sub(1);
    }

    /// Sets the mode, the owners and the times that a caller sets. Of the mode the lowest 12 bits count.
    pub fn set_attributes(&mut self, set: &SetAttr, now: Moment)
        ensures { self.new ≡ with_attributes set.now now self.old }
    {
        if let Some(mode) = set.mode {
            self.mode = mode % 4096;
        }
        self.uid = set.uid.unwrap_or(self.uid);
        self.gid = set.gid.unwrap_or(self.gid);
        self.atime = set_time(set.atime, now, self.atime);
        self.mtime = set_time(set.mtime, now, self.mtime);
    }

    /// Sets the size where one is set, and the mtime with it. Only a file has bytes to cut or to continue.
    ///
    /// `NoMemory` where there is no memory for the zeros. All is as it was then.
    pub fn set_size(&mut self, size: Option<u64>, now: Moment) -> Result<(), NoMemory>
        ensures set { OnOk result (self.new ≡ with_size size now self.old) }
        ensures err { OnErr result (self.new ≡ self.old) }
    {
        let Some(size) = size else {
            return Ok(());
        };
        if let Content::File(bytes) = &mut self.content {
            bytes.resize(size)?;
        }
        self.mtime = now;
        Ok(())
    }

    /// Cuts a file to a size or continues it, now.
    ///
    /// `NoMemory` where there is no memory for the zeros. All is as it was then.
    pub fn take_size(&mut self, size: u64, now: Moment) -> Result<(), NoMemory>
        ensures set { OnOk result (self.new ≡ stamp now (with_size (Some size) now self.old)) }
        ensures err { OnErr result (self.new ≡ self.old) }
    {
        self.set_size(Some(size), now)?;
        self.ctime = now;
        Ok(())
    }

    /// Sets the attributes that a caller sets, the size among them, now. The size comes first, so that an mtime that is
    /// set stands.
    ///
    /// `NoMemory` where there is no memory for the zeros. All is as it was then.
    pub fn set(&mut self, set: &SetAttr, now: Moment) -> Result<(), NoMemory>
        ensures set { OnOk result (self.new ≡ set_node set.now now self.old) }
        ensures err { OnErr result (self.new ≡ self.old) }
    {
        self.set_size(set.size, now)?;
        self.set_attributes(set, now);
        self.ctime = now;
        Ok(())
    }

    /// Writes a piece at an offset of a file, now.
    ///
    /// `NoMemory` where there is no memory for what the file grows by. All is as it was then.
    pub fn write(&mut self, now: Moment, offset: u64, piece: &[u8]) -> Result<(), NoMemory>
        requires { offset + length piece.now < 2 ^ 64 }
        ensures written { OnOk result (self.new ≡ write_node now offset piece.now self.old) }
        ensures err { OnErr result (self.new ≡ self.old) }
    {
        if let Content::File(bytes) = &mut self.content {
            bytes.write(offset, piece)?;
        }
        self.mtime = now;
        self.ctime = now;
        Ok(())
    }

    /// Adds an entry to a directory, now. The directory has no such name, and has room for it.
    ///
    /// `NoMemory` where there is no memory for it. All is as it was then.
    pub fn enter(&mut self, now: Moment, name: Name, fileid: u64) -> Result<(), NoMemory>
        requires absent { fileid_at (listing_of self.old) name ≡ None }
        requires room { is_crowded (listing_of self.old) name ≡ false }
        ensures entered { OnOk result (self.new ≡ enter now name fileid self.old) }
        ensures err { OnErr result (self.new ≡ self.old) }
    {
        if let Content::Directory(_, entries) = &mut self.content {
            if entries.add(name, fileid).is_err() {
                return Err(NoMemory);
            }
        }
        self.mtime = now;
        self.ctime = now;
        Ok(())
    }

    /// In a directory the entry of a name goes where there is one, and one of the name and this fileid is added, now.
    /// A cookie is left for it.
    ///
    /// `NoMemory` where there is no memory for it. All is as it was then.
    pub fn replace(&mut self, now: Moment, name: Name, fileid: u64) -> Result<(), NoMemory>
        requires cookie { (listing_of self.old).next_cookie < max_cookie }
        requires size { size_of_listing (listing_of self.old) ≤ max_directory_bytes }
        ensures replaced { OnOk result (self.new ≡ enter now name fileid (leave now name self.old)) }
        ensures err { OnErr result (self.new ≡ self.old) }
    {
        if let Content::Directory(_, entries) = &mut self.content {
            entries.replace(name, fileid)?;
        }
        self.mtime = now;
        self.ctime = now;
        Ok(())
    }

    /// Takes an entry out of a directory, now.
    pub fn leave(&mut self, now: Moment, name: &[u8])
        ensures { self.new ≡ leave now name.now self.old }
    {
        if let Content::Directory(_, entries) = &mut self.content {
            let _ = entries.drop_name(name);
        }
        self.mtime = now;
        self.ctime = now;
    }

    /// A directory has another parent from now on.
    pub fn set_parent(&mut self, parent: u64)
        ensures { self.new ≡ record self.old { content = with_parent parent self.old.content } }
    {
        if let Content::Directory(old, _) = &mut self.content {
            *old = parent;
        }
    }
}
