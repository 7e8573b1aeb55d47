//! What a listing of a directory shows.

ghost use Rattle.std.specs.Prelude.{◌≡◌, ◌∷◌, List, cond, nat_lt, IsSome, true};
ghost use Rattle.std.specs.Iterator.{item_count, YieldsFirstBy};
ghost use Rattle.sky_base.specs.Listing.{Entry};
ghost use Rattle.sky_dir.specs.Items.{listed_of};
ghost use Rattle.sky_nfs.specs.Procedures.ReadDir.{left_behind};
ghost use Rattle.sky_nfs.specs.Tree.{is_directory, node_at, the_node};
ghost use Rattle.sky_tree.specs.Listing.{in_front};

use crate::rules::node;
use sky_dir::{Listed, PageIter};
use sky_nodes::{Content, Nodes};
use std::marker::Model;

/// The entries that a listing shows behind a cookie, in order: `.`, `..` and those of the directory. Contracts see it as
/// the list of those that are left.
#[derive(Drop)]
pub struct Shown<'a> {
    dot: Option<Listed<'a>>,
    dot_dot: Option<Listed<'a>>,
    entries: PageIter<'a>,
}

impl<'a> Model for Shown<'a> {
    ghost use Rattle.std.specs.Prelude.{List};
    ghost use Rattle.sky_base.specs.Listing.{Entry};
    ghost use Rattle.sky_tree.specs.Listing.{in_front};

    ghost Value = { List Entry };

    ghost view = { λ s. in_front s.dot (in_front s.dot_dot s.entries) };
}

impl<'a> Iterator for Shown<'a> {
    type Item = Listed<'a>;

    ghost next_gives = { YieldsFirstBy listed_of (λ s. s) };

    ghost remaining = { item_count (λ s. s) };

    fn next(&mut self) -> Option<Listed<'a>> {
        if let Some(dot) = self.dot.take() {
            return Some(dot);
        }
        if let Some(dot_dot) = self.dot_dot.take() {
            return Some(dot_dot);
        }
        self.entries.next()
    }
}

/// An entry, where its cookie is greater.
fn behind<'a>(cookie: u64, entry: Listed<'a>) -> Option<Listed<'a>>
    ensures { (es : List Entry) → in_front result es ≡ cond (nat_lt cookie entry.entry.cookie) (listed_of entry.entry ∷ es) es }
{
    if cookie < entry.cookie {
        Some(entry)
    } else {
        None
    }
}

/// The entries of a directory that a listing shows behind a cookie.
pub fn left_behind<'a>(nodes: &'a Nodes, dir: u64, cookie: u64) -> Shown<'a>
    requires there { IsSome (node_at nodes.now.nodes dir) }
    requires directory { is_directory (the_node nodes.now dir) ≡ true }
    ensures { result ≡ left_behind nodes.now dir cookie }
{
    let Content::Directory(parent, entries) = node(nodes, dir).content() else {
        unreachable!();
    };
    let dot = Listed {
        cookie: 1,
        name: b".".as_slice(),
        fileid: dir,
    };
    let dot_dot = Listed {
        cookie: 2,
        name: b"..".as_slice(),
        fileid: *parent,
    };
    Shown {
        dot: behind(cookie, dot),
        dot_dot: behind(cookie, dot_dot),
        entries: entries.page(cookie),
    }
}
