//! What a line begins with.

use std::fmt;

/// What the line of a frame of this kind and session begins with: the session where it is of one, and else what it is.
#[derive(Clone, Copy)]
pub struct Head {
    pub kind: u8,
    pub session: u32,
}

impl fmt::Display for Head {
    ghost use Rattle.std.specs.Prelude.{Some};
    ghost use Rattle.sky_show.specs.Shown.{head_of};

    ghost output = { λ h. Some (head_of h.kind h.session) };

    fn fmt<W: fmt::Write>(&self, f: &mut fmt::Formatter<W>) -> fmt::Result {
        let kind = self.kind;
        let session = self.session;
        match kind {
            2 | 3 => write!(f, "session {session} "),
            10 => write!(f, "seal: "),
            11 => write!(f, "upload: "),
            12 => write!(f, "evict: "),
            13 => write!(f, "clean: "),
            14 => write!(f, "merge: "),
            15 => write!(f, "collect: "),
            16 => write!(f, "numbers: "),
            19 => write!(f, "opened: "),
            99 => write!(f, "end: "),
            _ => write!(f, "frame of kind {kind}: "),
        }
    }
}
