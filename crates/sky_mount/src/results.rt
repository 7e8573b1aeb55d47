//! Writing results.

ghost use Rattle.std.specs.Prelude.{◌≡◌, ℕ, ◌≤◌, ◌↔◌, ◌++◌, Some, length, take, drop, IsOk, IfOk, OnOk, OnErr};
ghost use Rattle.std.specs.Str.{bytes_eq};
ghost use Rattle.sky_xdr.specs.Writing.{written_of, room_of, name_of};
ghost use Rattle.sky_mount.specs.Mount.{exported_path, root_handle, mount_results, one_export, results};
ghost use Rattle.sky_mount.specs.Values.{call_of};

use crate::args::MountCall;
use sky_xdr::{NoRoom, Writer};

/// The path at which the volume's root is exported.
const EXPORTED_PATH: &[u8] = b"/";

/// The fileid of a volume's root.
const ROOT: u64 = 1;

/// MNT was done (`mountstat3`, RFC 1813 section 5.1.5).
const MNT3_OK: u32 = 0;

/// Nothing is exported at the path of MNT.
const MNT3ERR_NOENT: u32 = 2;

/// The flavors of credentials that are taken (RFC 5531, section 8.2).
const AUTH_NONE: u32 = 0;

const AUTH_SYS: u32 = 1;

/// Whether the volume's root is exported at a path.
fn is_exported(path: &[u8]) -> bool
    ensures { result ≡ bytes_eq path.now exported_path }
{
    path == EXPORTED_PATH
}

/// How many bytes the results of a call have.
#[tactic(auto, using(crate::proofs::Sizes::sizes))]
fn length_of(call: &MountCall<'_>) -> usize
    ensures { (volume : ℕ) → result ≡ length (results volume (call_of call.now)) }
{
    match call {
        MountCall::Null | MountCall::Umnt { .. } | MountCall::UmntAll => 0,
        MountCall::Mnt { path } => { if is_exported(path) { 36 } else { 4 } }
        MountCall::Dump => 4,
        MountCall::Export => 20,
    }
}

/// Writes the results of MNT of the volume's root: the handle of 16 bytes, and two flavors.
#[tactic(auto, using(crate::proofs::Sizes::sizes))]
fn put_root(writer: &mut Writer<'_>, volume: u64) -> Result<(), NoRoom>
    ensures fits { length (mount_results (Some (root_handle volume))) ≤ room_of writer.old → IsOk result }
    ensures written { OnOk result (written_of writer.new ≡ written_of writer.old ++ mount_results (Some (root_handle volume))) }
    ensures same_buffer { name_of writer.new ≡ name_of writer.old }
{
    writer.put_u32(MNT3_OK)?;
    writer.put_u32(16)?;
    writer.put_u64(volume)?;
    writer.put_u64(ROOT)?;
    writer.put_u32(2)?;
    writer.put_u32(AUTH_SYS)?;
    writer.put_u32(AUTH_NONE)
}

/// Writes the results of EXPORT.
#[tactic(auto, using(crate::proofs::Sizes::sizes), unfolding(crate::specs::Mount::one_export))]
fn put_export(writer: &mut Writer<'_>) -> Result<(), NoRoom>
    ensures fits { length one_export ≤ room_of writer.old → IsOk result }
    ensures written { OnOk result (written_of writer.new ≡ written_of writer.old ++ one_export) }
    ensures same_buffer { name_of writer.new ≡ name_of writer.old }
{
    writer.put_bool(true)?;
    writer.put_opaque(EXPORTED_PATH)?;
    writer.put_bool(false)?;
    writer.put_bool(false)
}

/// Writes the results of a call.
#[tactic(auto, using(crate::proofs::Sizes::sizes), unfolding(crate::specs::Mount::mount_results, crate::specs::Mount::no_mounts))]
fn put_results(writer: &mut Writer<'_>, call: &MountCall<'_>, volume: u64) -> Result<(), NoRoom>
    ensures fits { length (results volume (call_of call.now)) ≤ room_of writer.old → IsOk result }
    ensures written { OnOk result (written_of writer.new ≡ written_of writer.old ++ results volume (call_of call.now)) }
    ensures same_buffer { name_of writer.new ≡ name_of writer.old }
{
    match call {
        MountCall::Null | MountCall::Umnt { .. } | MountCall::UmntAll => Ok(()),
        MountCall::Mnt { path } => {
            if is_exported(path) {
                put_root(writer, volume)
            } else {
                writer.put_u32(MNT3ERR_NOENT)
            }
        }
        MountCall::Dump => writer.put_bool(false),
        MountCall::Export => put_export(writer),
    }
}

/// Fills a buffer that is as long as the results of a call.
fn fill(buf: &mut [u8], call: &MountCall<'_>, volume: u64)
    requires { length buf.old ≡ length (results volume (call_of call.now)) }
    ensures { buf.new ≡ results volume (call_of call.now) }
{
    let mut writer = Writer::over(buf);
    put_results(&mut writer, call, volume).unwrap();
}

/// Writes the results of a call at the beginning of the buffer, where this volume is served, and says how many bytes they
/// have. MNT of `/` gives the handle of the volume's root and the flavors AUTH_SYS and AUTH_NONE; MNT of any other path is
/// MNT3ERR_NOENT. DUMP gives an empty list, and EXPORT the one directory `/`, for everyone. The others have no results.
///
/// `NoRoom` where the buffer ends before the results do; nothing is written then.
pub fn write_mount(buf: &mut [u8], call: &MountCall<'_>, volume: u64) -> Result<usize, NoRoom>
    ensures fits { IsOk result ↔ (length (results volume (call_of call.now)) ≤ length buf.old) }
    ensures len { IfOk result (λ n. n ≡ length (results volume (call_of call.now))) }
    ensures written { IfOk result (λ n. take n buf.new ≡ results volume (call_of call.now)) }
    ensures behind { IfOk result (λ n. drop n buf.new ≡ drop n buf.old) }
    ensures err { OnErr result (buf.new ≡ buf.old) }
{
    let count = length_of(call);
    if buf.len() < count {
        return Err(NoRoom);
    }
    fill(&mut buf[..count], call, volume);
    Ok(count)
}
