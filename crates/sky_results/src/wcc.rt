//! What tells whether an object changed is written (weak cache consistency data, RFC 1813 section 2.6).

ghost use Rattle.std.specs.Prelude.{◌≡◌, ◌+◌, ◌≤◌, ◌++◌, length, IsOk, OnOk};
ghost use Rattle.sky_xdr.specs.Writing.{written_of, room_of, name_of};
ghost use Rattle.sky_results.specs.Wcc as encoded;

use crate::attributes::{post_op_attr_length, put_moment, put_post_op_attr};
use sky_nfs::{WccAttr, WccData};
use sky_xdr::{NoRoom, Writer};

/// Writes a size and times, 24 bytes.
#[tactic(auto, using(crate::proofs::Sizes::sizes), unfolding(crate::specs::Wcc::wcc_attr))]
fn put_wcc_attr(writer: &mut Writer<'_>, w: &WccAttr) -> Result<(), NoRoom>
    ensures fits { length (encoded.wcc_attr w.now) ≤ room_of writer.old → IsOk result }
    ensures written { OnOk result (written_of writer.new ≡ written_of writer.old ++ encoded.wcc_attr w.now) }
    ensures room { OnOk result (room_of writer.new + length (encoded.wcc_attr w.now) ≡ room_of writer.old) }
    ensures same_buffer { name_of writer.new ≡ name_of writer.old }
{
    writer.put_u64(w.size)?;
    put_moment(writer, w.mtime)?;
    put_moment(writer, w.ctime)
}

/// Writes whether they are told, and those that are.
#[tactic(auto, using(crate::proofs::Sizes::sizes), unfolding(crate::specs::Wcc::pre_op_attr))]
fn put_pre_op_attr(writer: &mut Writer<'_>, told: &Option<WccAttr>) -> Result<(), NoRoom>
    ensures fits { length (encoded.pre_op_attr told.now) ≤ room_of writer.old → IsOk result }
    ensures written { OnOk result (written_of writer.new ≡ written_of writer.old ++ encoded.pre_op_attr told.now) }
    ensures room { OnOk result (room_of writer.new + length (encoded.pre_op_attr told.now) ≡ room_of writer.old) }
    ensures same_buffer { name_of writer.new ≡ name_of writer.old }
{
    match told {
        None => writer.put_bool(false),
        Some(w) => {
            writer.put_bool(true)?;
            put_wcc_attr(writer, w)
        }
    }
}

/// How many bytes those are.
#[tactic(auto, using(crate::proofs::Sizes::sizes), unfolding(crate::specs::Wcc::pre_op_attr))]
fn pre_op_attr_length(told: &Option<WccAttr>) -> usize
    ensures size { result ≡ length (encoded.pre_op_attr told.now) }
    ensures most { result ≤ 28 }
{
    match told {
        None => 4,
        Some(_) => 28,
    }
}

/// Writes an object before and after a call.
#[tactic(auto, using(crate::proofs::Sizes::sizes), unfolding(crate::specs::Wcc::wcc_data))]
pub(crate) fn put_wcc_data(writer: &mut Writer<'_>, w: &WccData) -> Result<(), NoRoom>
    ensures fits { length (encoded.wcc_data w.now) ≤ room_of writer.old → IsOk result }
    ensures written { OnOk result (written_of writer.new ≡ written_of writer.old ++ encoded.wcc_data w.now) }
    ensures room { OnOk result (room_of writer.new + length (encoded.wcc_data w.now) ≡ room_of writer.old) }
    ensures same_buffer { name_of writer.new ≡ name_of writer.old }
{
    put_pre_op_attr(writer, &w.before)?;
    put_post_op_attr(writer, &w.after)
}

/// How many bytes those are.
#[tactic(auto, using(crate::proofs::Sizes::sizes), unfolding(crate::specs::Wcc::wcc_data))]
pub(crate) fn wcc_data_length(w: &WccData) -> usize
    ensures size { result ≡ length (encoded.wcc_data w.now) }
    ensures most { result ≤ 116 }
{
    pre_op_attr_length(&w.before) + post_op_attr_length(&w.after)
}
