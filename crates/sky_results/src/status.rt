//! The status that results begin with, and refusals, are written (RFC 1813 section 2.6).

ghost use Rattle.std.specs.Prelude.{◌≡◌, ◌+◌, ◌≤◌, ◌++◌, length, IsOk, OnOk, Some, None};
ghost use Rattle.sky_xdr.specs.Writing.{written_of, room_of, name_of};
ghost use Rattle.sky_results.specs.Answers.{nfsstat3, refused};
ghost use Rattle.sky_results.specs.Attributes.{post_op_attr};
ghost use Rattle.sky_results.specs.Wcc.{wcc_data};

use crate::attributes::put_post_op_attr;
use crate::wcc::put_wcc_data;
use sky_base::Attr;
use sky_nfs::{NfsStatus, Refused, WccData};
use sky_xdr::{NoRoom, Writer};

/// The status of what isn't refused.
const NFS3_OK: u32 = 0;

/// The bytes from which on an answer is too long: XDR tells each length in it in four bytes.
pub(crate) const TOO_LONG: usize = 1 << 32;

/// Writes that nothing was refused, 4 bytes.
#[tactic(auto, using(crate::proofs::Sizes::sizes))]
pub(crate) fn put_ok(writer: &mut Writer<'_>) -> Result<(), NoRoom>
    ensures fits { length (nfsstat3 None) ≤ room_of writer.old → IsOk result }
    ensures written { OnOk result (written_of writer.new ≡ written_of writer.old ++ nfsstat3 None) }
    ensures room { OnOk result (room_of writer.new + length (nfsstat3 None) ≡ room_of writer.old) }
    ensures same_buffer { name_of writer.new ≡ name_of writer.old }
{
    writer.put_u32(NFS3_OK)
}

/// Writes why a call is refused, 4 bytes.
#[tactic(auto, using(crate::proofs::Sizes::sizes))]
pub(crate) fn put_status(writer: &mut Writer<'_>, status: NfsStatus) -> Result<(), NoRoom>
    ensures fits { length (nfsstat3 (Some status)) ≤ room_of writer.old → IsOk result }
    ensures written { OnOk result (written_of writer.new ≡ written_of writer.old ++ nfsstat3 (Some status)) }
    ensures room { OnOk result (room_of writer.new + length (nfsstat3 (Some status)) ≡ room_of writer.old) }
    ensures same_buffer { name_of writer.new ≡ name_of writer.old }
{
    writer.put_u32(status.number())
}

/// Writes a refusal, with the attributes of an object.
#[tactic(auto, using(crate::proofs::Sizes::sizes))]
pub(crate) fn put_refusal(writer: &mut Writer<'_>, e: &Refused<Option<Attr>>) -> Result<(), NoRoom>
    ensures fits { length (refused post_op_attr e.now) ≤ room_of writer.old → IsOk result }
    ensures written { OnOk result (written_of writer.new ≡ written_of writer.old ++ refused post_op_attr e.now) }
    ensures room { OnOk result (room_of writer.new + length (refused post_op_attr e.now) ≡ room_of writer.old) }
    ensures same_buffer { name_of writer.new ≡ name_of writer.old }
{
    put_status(writer, e.status)?;
    put_post_op_attr(writer, &e.attributes)
}

/// Writes the refusal of a change, with an object before and after it.
#[tactic(auto, using(crate::proofs::Sizes::sizes))]
pub(crate) fn put_refused_change(
    writer: &mut Writer<'_>,
    e: &Refused<WccData>,
) -> Result<(), NoRoom>
    ensures fits { length (refused wcc_data e.now) ≤ room_of writer.old → IsOk result }
    ensures written { OnOk result (written_of writer.new ≡ written_of writer.old ++ refused wcc_data e.now) }
    ensures room { OnOk result (room_of writer.new + length (refused wcc_data e.now) ≡ room_of writer.old) }
    ensures same_buffer { name_of writer.new ≡ name_of writer.old }
{
    put_status(writer, e.status)?;
    put_wcc_data(writer, &e.attributes)
}
