//! Who calls, and what is asked to be done with an object.

ghost use Rattle.std.specs.Prelude.{◌≡◌, ◌≤◌, ◌<◌, ◌↔◌, [], ◌∷◌, ◌++◌, length, IsTrue};
ghost use Rattle.sky_base.specs.Limits.{max_gids};

use std::marker::Model;

/// What a caller asks to do with an object.
#[derive(Clone, Copy, PartialEq, Eq)]
pub enum Want {
    /// To read a file or list a directory.
    Read,
    /// To write a file or change a directory's entries.
    Write,
    /// To execute a file or search a directory.
    Execute,
}

/// The further groups of a caller (`authsys_parms`, RFC 5531 appendix A): at most 16. Contracts see them as a list.
#[derive(Drop)]
pub struct Gids {
    ids: [u32; Gids::MAX],
    count: usize,
}

impl Model for Gids {
    ghost use Rattle.std.specs.Prelude.{List, ℕ, ◌≤◌, take};
    ghost use Rattle.sky_base.specs.Limits.{max_gids};

    ghost Value = { List ℕ };

    ghost view = { λ g. take g.count g.ids };

    ghost invariant = { λ g. g.count ≤ max_gids };
}

impl Gids {
    /// The most groups that it keeps.
    pub const MAX: usize = 16;

    /// No groups.
    pub fn new() -> Gids
        ensures { result ≡ [] }
    {
        Gids {
            ids: [0; Gids::MAX],
            count: 0,
        }
    }

    /// Whether there is room for no further group.
    pub fn is_full(&self) -> bool
        ensures full { IsTrue result ↔ (length self.now ≡ max_gids) }
        ensures most { length self.now ≤ max_gids }
    {
        self.count == Gids::MAX
    }

    /// Adds a group behind the others.
    pub fn push(&mut self, gid: u32)
        requires { length self.old < max_gids }
        ensures { self.new ≡ self.old ++ gid ∷ [] }
    {
        self.ids[self.count] = gid;
        self.count += 1;
    }

    /// The groups, to read.
    pub fn as_slice(&self) -> &[u32]
        ensures same { result.now ≡ self.now }
        ensures most { length self.now ≤ max_gids }
    {
        &self.ids[..self.count]
    }
}

/// Who calls (`authsys_parms`, RFC 5531 appendix A): a user, its group and its further groups.
#[derive(Drop)]
pub struct Cred {
    pub uid: u32,
    pub gid: u32,
    pub gids: Gids,
}
