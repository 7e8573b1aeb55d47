//! Answers of a status alone.

ghost use Rattle.std.specs.Prelude.{◌≡◌, ◌<◌};
ghost use Rattle.sky_world.specs.Message.{procedure_count};
ghost use Rattle.sky_world.specs.Service.{bare, bare_answer};

use sky_nfs::{Answer, LinkResults, NfsStatus, Refused, RenameResults, WccData};

/// Nothing is told of an object before and after.
const UNTOLD: WccData = WccData {
    before: None,
    after: None,
};

/// Nothing is told of two directories.
const UNTOLD_BOTH: RenameResults = RenameResults {
    from: UNTOLD,
    to: UNTOLD,
};

/// Nothing is told of a file and a directory.
const UNTOLD_LINK: LinkResults = LinkResults {
    file: None,
    directory: UNTOLD,
};

/// A refusal with this status that tells nothing besides.
fn bare<A>(status: NfsStatus, attributes: A) -> Refused<A>
    ensures { result ≡ bare status attributes }
{
    Refused { status, attributes }
}

/// The answer of a procedure that has this status and leaves the attributes out. NULL has no status.
pub fn bare_answer(procedure: u32, status: NfsStatus) -> Answer
    requires { procedure < procedure_count }
    ensures { result ≡ bare_answer procedure status }
{
    match procedure {
        1 => Answer::GetAttr(Err(status)),
        2 => Answer::SetAttr(Err(bare(status, UNTOLD))),
        3 => Answer::Lookup(Err(bare(status, None))),
        4 => Answer::Access(Err(bare(status, None))),
        5 => Answer::ReadLink(Err(bare(status, None))),
        6 => Answer::Read(Err(bare(status, None))),
        7 => Answer::Write(Err(bare(status, UNTOLD))),
        8 => Answer::Create(Err(bare(status, UNTOLD))),
        9 => Answer::Mkdir(Err(bare(status, UNTOLD))),
        10 => Answer::Symlink(Err(bare(status, UNTOLD))),
        11 => Answer::Mknod(bare(status, UNTOLD)),
        12 => Answer::Remove(Err(bare(status, UNTOLD))),
        13 => Answer::Rmdir(Err(bare(status, UNTOLD))),
        14 => Answer::Rename(Err(bare(status, UNTOLD_BOTH))),
        15 => Answer::Link(Err(bare(status, UNTOLD_LINK))),
        16 => Answer::ReadDir(Err(bare(status, None))),
        17 => Answer::ReadDirPlus(Err(bare(status, None))),
        18 => Answer::FsStat(Err(bare(status, None))),
        19 => Answer::FsInfo(Err(bare(status, None))),
        20 => Answer::PathConf(Err(bare(status, None))),
        21 => Answer::Commit(Err(bare(status, UNTOLD))),
        _ => Answer::Null,
    }
}
