//! How many bytes an entry has.

ghost use Rattle.std.specs.Prelude.{◌≡◌, ◌^◌, ◌<◌, length, IsTrue};
ghost use Rattle.sky_nfs.specs.Calls.{is_change};
ghost use Rattle.sky_args.specs.Args.{args_bytes};
ghost use Rattle.sky_entry.specs.Entry.{body_bytes, entry_bytes};

use sky_args::args_length;
use sky_nfs::Change;

/// How many bytes of an entry follow its length.
#[tactic(auto, using(crate::proofs::Sizes::body_size))]
fn body_length(change: &Change) -> usize
    requires { length (args_bytes change.now.call) < 2 ^ 32 }
    ensures { result ≡ length (body_bytes change.now) }
{
    24 + 4 * change.cred.gids.as_slice().len() + args_length(&change.call)
}

/// How many bytes the entry of a change has: 28, 4 for each further group of the caller, and those of the arguments. The
/// conditions are that the call is one of those that change the tree, and that these are fewer than 2^32 bytes.
#[tactic(auto, using(crate::proofs::Sizes::entry_sizes))]
pub fn entry_length(change: &Change) -> u32
    requires changes { IsTrue (is_change change.now.call) }
    requires small { length (entry_bytes change.now) < 2 ^ 32 }
    ensures { result ≡ length (entry_bytes change.now) }
{
    4 + body_length(change) as u32
}
