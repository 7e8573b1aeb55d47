//! Attributes and handles are written (RFC 1813 section 2.6).

ghost use Rattle.std.specs.Prelude.{◌≡◌, ◌+◌, ◌≤◌, ◌++◌, length, IsOk, OnOk};
ghost use Rattle.sky_xdr.specs.Encoding.{uint, uhyper};
ghost use Rattle.sky_xdr.specs.Writing.{written_of, room_of, name_of};
ghost use Rattle.sky_results.specs.Attributes as encoded;

use sky_base::{Attr, Device, Kind, Moment};
use sky_nfs::Handle;
use sky_xdr::{NoRoom, Writer};

/// The bytes of a handle of this server: the volume and the fileid.
const HANDLE_BYTES: u32 = 16;

/// The number of a kind.
fn kind_number(kind: Kind) -> u32
    ensures { result ≡ encoded.ftype3 kind }
{
    match kind {
        Kind::Regular => 1,
        Kind::Directory => 2,
        Kind::SymbolicLink => 5,
    }
}

/// Writes a moment, 8 bytes.
#[tactic(auto, using(crate::proofs::Sizes::sizes), unfolding(crate::specs::Attributes::nfstime3))]
pub(crate) fn put_moment(writer: &mut Writer<'_>, moment: Moment) -> Result<(), NoRoom>
    ensures fits { length (encoded.nfstime3 moment) ≤ room_of writer.old → IsOk result }
    ensures written { OnOk result (written_of writer.new ≡ written_of writer.old ++ encoded.nfstime3 moment) }
    ensures room { OnOk result (room_of writer.new + length (encoded.nfstime3 moment) ≡ room_of writer.old) }
    ensures same_buffer { name_of writer.new ≡ name_of writer.old }
{
    writer.put_u32(moment.seconds)?;
    writer.put_u32(moment.nanos)
}

/// Writes a device, 8 bytes.
#[tactic(auto, using(crate::proofs::Sizes::sizes), unfolding(crate::specs::Attributes::specdata3))]
fn put_device(writer: &mut Writer<'_>, device: Device) -> Result<(), NoRoom>
    ensures fits { length (encoded.specdata3 device) ≤ room_of writer.old → IsOk result }
    ensures written { OnOk result (written_of writer.new ≡ written_of writer.old ++ encoded.specdata3 device) }
    ensures room { OnOk result (room_of writer.new + length (encoded.specdata3 device) ≡ room_of writer.old) }
    ensures same_buffer { name_of writer.new ≡ name_of writer.old }
{
    writer.put_u32(device.major)?;
    writer.put_u32(device.minor)
}

/// Writes what an object is and whose, 20 bytes.
#[tactic(auto, using(crate::proofs::Sizes::sizes))]
fn put_owner(writer: &mut Writer<'_>, a: &Attr) -> Result<(), NoRoom>
    ensures fits { 20 ≤ room_of writer.old → IsOk result }
    ensures written { OnOk result (written_of writer.new ≡ written_of writer.old ++ uint (encoded.ftype3 a.now.kind) ++ uint a.now.mode ++ uint a.now.nlink ++ uint a.now.uid ++ uint a.now.gid) }
    ensures room { OnOk result (room_of writer.new + 20 ≡ room_of writer.old) }
    ensures same_buffer { name_of writer.new ≡ name_of writer.old }
{
    writer.put_u32(kind_number(a.kind))?;
    writer.put_u32(a.mode)?;
    writer.put_u32(a.nlink)?;
    writer.put_u32(a.uid)?;
    writer.put_u32(a.gid)
}

/// Writes how large an object is, and where it lies, 40 bytes.
#[tactic(auto, using(crate::proofs::Sizes::sizes))]
fn put_place(writer: &mut Writer<'_>, a: &Attr) -> Result<(), NoRoom>
    ensures fits { 40 ≤ room_of writer.old → IsOk result }
    ensures written { OnOk result (written_of writer.new ≡ written_of writer.old ++ uhyper a.now.size ++ uhyper a.now.used ++ encoded.specdata3 a.now.rdev ++ uhyper a.now.fsid ++ uhyper a.now.fileid) }
    ensures room { OnOk result (room_of writer.new + 40 ≡ room_of writer.old) }
    ensures same_buffer { name_of writer.new ≡ name_of writer.old }
{
    writer.put_u64(a.size)?;
    writer.put_u64(a.used)?;
    put_device(writer, a.rdev)?;
    writer.put_u64(a.fsid)?;
    writer.put_u64(a.fileid)
}

/// Writes the times of an object, 24 bytes.
#[tactic(auto, using(crate::proofs::Sizes::sizes))]
fn put_times(writer: &mut Writer<'_>, a: &Attr) -> Result<(), NoRoom>
    ensures fits { 24 ≤ room_of writer.old → IsOk result }
    ensures written { OnOk result (written_of writer.new ≡ written_of writer.old ++ encoded.nfstime3 a.now.atime ++ encoded.nfstime3 a.now.mtime ++ encoded.nfstime3 a.now.ctime) }
    ensures room { OnOk result (room_of writer.new + 24 ≡ room_of writer.old) }
    ensures same_buffer { name_of writer.new ≡ name_of writer.old }
{
    put_moment(writer, a.atime)?;
    put_moment(writer, a.mtime)?;
    put_moment(writer, a.ctime)
}

/// Writes attributes, 84 bytes.
#[tactic(auto, using(crate::proofs::Sizes::sizes), unfolding(crate::specs::Attributes::fattr3))]
pub(crate) fn put_attr(writer: &mut Writer<'_>, a: &Attr) -> Result<(), NoRoom>
    ensures fits { length (encoded.fattr3 a.now) ≤ room_of writer.old → IsOk result }
    ensures written { OnOk result (written_of writer.new ≡ written_of writer.old ++ encoded.fattr3 a.now) }
    ensures room { OnOk result (room_of writer.new + length (encoded.fattr3 a.now) ≡ room_of writer.old) }
    ensures same_buffer { name_of writer.new ≡ name_of writer.old }
{
    put_owner(writer, a)?;
    put_place(writer, a)?;
    put_times(writer, a)
}

/// Writes whether attributes are told, and those that are.
#[tactic(auto, using(crate::proofs::Sizes::sizes), unfolding(crate::specs::Attributes::post_op_attr))]
pub(crate) fn put_post_op_attr(writer: &mut Writer<'_>, told: &Option<Attr>) -> Result<(), NoRoom>
    ensures fits { length (encoded.post_op_attr told.now) ≤ room_of writer.old → IsOk result }
    ensures written { OnOk result (written_of writer.new ≡ written_of writer.old ++ encoded.post_op_attr told.now) }
    ensures room { OnOk result (room_of writer.new + length (encoded.post_op_attr told.now) ≡ room_of writer.old) }
    ensures same_buffer { name_of writer.new ≡ name_of writer.old }
{
    match told {
        None => writer.put_bool(false),
        Some(a) => {
            writer.put_bool(true)?;
            put_attr(writer, a)
        }
    }
}

/// How many bytes those are.
#[tactic(auto, using(crate::proofs::Sizes::sizes), unfolding(crate::specs::Attributes::post_op_attr))]
pub(crate) fn post_op_attr_length(told: &Option<Attr>) -> usize
    ensures size { result ≡ length (encoded.post_op_attr told.now) }
    ensures most { result ≤ 88 }
{
    match told {
        None => 4,
        Some(_) => 88,
    }
}

/// Writes a handle, 20 bytes: how long it is, the volume and the fileid.
#[tactic(auto, using(crate::proofs::Sizes::handle_sizes))]
pub(crate) fn put_handle(writer: &mut Writer<'_>, handle: Handle) -> Result<(), NoRoom>
    ensures fits { length (encoded.nfs_fh3 handle) ≤ room_of writer.old → IsOk result }
    ensures written { OnOk result (written_of writer.new ≡ written_of writer.old ++ encoded.nfs_fh3 handle) }
    ensures room { OnOk result (room_of writer.new + length (encoded.nfs_fh3 handle) ≡ room_of writer.old) }
    ensures same_buffer { name_of writer.new ≡ name_of writer.old }
{
    writer.put_u32(HANDLE_BYTES)?;
    writer.put_u64(handle.volume)?;
    writer.put_u64(handle.fileid)
}

/// Writes that a handle is told, and the handle, 24 bytes.
#[tactic(auto, using(crate::proofs::Sizes::sizes), unfolding(crate::specs::Attributes::post_op_fh3))]
pub(crate) fn put_post_op_handle(writer: &mut Writer<'_>, handle: Handle) -> Result<(), NoRoom>
    ensures fits { length (encoded.post_op_fh3 handle) ≤ room_of writer.old → IsOk result }
    ensures written { OnOk result (written_of writer.new ≡ written_of writer.old ++ encoded.post_op_fh3 handle) }
    ensures room { OnOk result (room_of writer.new + length (encoded.post_op_fh3 handle) ≡ room_of writer.old) }
    ensures same_buffer { name_of writer.new ≡ name_of writer.old }
{
    writer.put_bool(true)?;
    put_handle(writer, handle)
}
