//! Which procedure a call calls.

ghost use Rattle.std.specs.Prelude.{◌≡◌};
ghost use Rattle.sky_nfs.specs.Calls.{procedure_of};

use sky_nfs::Call;

/// The number of the procedure that a call calls (RFC 1813, section 3.3): 0 to 21.
pub fn procedure_number(call: &Call) -> u32
    ensures { result ≡ procedure_of call.now }
{
    match call {
        Call::Null => 0,
        Call::GetAttr { .. } => 1,
        Call::SetAttr { .. } => 2,
        Call::Lookup { .. } => 3,
        Call::Access { .. } => 4,
        Call::ReadLink { .. } => 5,
        Call::Read { .. } => 6,
        Call::Write { .. } => 7,
        Call::Create { .. } => 8,
        Call::Mkdir { .. } => 9,
        Call::Symlink { .. } => 10,
        Call::Mknod { .. } => 11,
        Call::Remove { .. } => 12,
        Call::Rmdir { .. } => 13,
        Call::Rename { .. } => 14,
        Call::Link { .. } => 15,
        Call::ReadDir { .. } => 16,
        Call::ReadDirPlus { .. } => 17,
        Call::FsStat { .. } => 18,
        Call::FsInfo { .. } => 19,
        Call::PathConf { .. } => 20,
        Call::Commit { .. } => 21,
    }
}
