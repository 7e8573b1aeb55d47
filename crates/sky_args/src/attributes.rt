//! Times, devices, and the attributes that a call sets, read and written.

ghost use Rattle.std.specs.Prelude.{◌≡◌, ◌<◌, ◌++◌, length, IfSome};
ghost use Rattle.sky_xdr.specs.Encoding.{uint, uhyper, optional};
ghost use Rattle.sky_xdr.specs.Reading.{uint_at, uhyper_at};
ghost use Rattle.sky_xdr.specs.GrammarReading.{Reads, optional_at};
ghost use Rattle.sky_xdr.specs.Writing.{Puts};
ghost use Rattle.sky_args.specs.Parts.{moment_bytes, device_bytes, set_time_bytes, set_attr_bytes, guard_bytes};
ghost use Rattle.sky_args.specs.Reading.{moment_at, device_at, set_time_at, set_attr_at, guard_at};
ghost use Rattle.sky_args.specs.Sizes.{FitsMoment, FitsDevice, FitsSetAttr};

use sky_base::{Device, Moment};
use sky_nfs::{SetAttr, SetTime};
use sky_xdr::{NoRoom, Reader, Writer, XdrFault};

/// Takes a moment (`nfstime3`).
#[tactic(auto, unfolding(crate::specs::Reading::moment_at, sky_xdr::specs::Reading::bind, sky_xdr::specs::GrammarReading::give))]
pub fn take_moment(reader: &mut Reader<'_>) -> Result<Moment, XdrFault>
    ensures exact { Reads result reader.new (moment_at reader.old) }
{
    let seconds = reader.take_u32()?;
    let nanos = reader.take_u32()?;
    Ok(Moment { seconds, nanos })
}

/// Takes a device (`specdata3`).
#[tactic(auto, unfolding(crate::specs::Reading::device_at, sky_xdr::specs::Reading::bind, sky_xdr::specs::GrammarReading::give))]
pub fn take_device(reader: &mut Reader<'_>) -> Result<Device, XdrFault>
    ensures exact { Reads result reader.new (device_at reader.old) }
{
    let major = reader.take_u32()?;
    let minor = reader.take_u32()?;
    Ok(Device { major, minor })
}

/// Takes a number that may be left out (`set_mode3`, `set_uid3`, `set_gid3`).
#[tactic(auto, unfolding(sky_xdr::specs::GrammarReading::optional_at, sky_xdr::specs::Reading::bind, sky_xdr::specs::GrammarReading::give))]
fn take_optional_u32(reader: &mut Reader<'_>) -> Result<Option<u32>, XdrFault>
    ensures exact { Reads result reader.new (optional_at uint_at reader.old) }
{
    if reader.take_bool()? {
        Ok(Some(reader.take_u32()?))
    } else {
        Ok(None)
    }
}

/// Takes a size that may be left out (`set_size3`).
#[tactic(auto, unfolding(sky_xdr::specs::GrammarReading::optional_at, sky_xdr::specs::Reading::bind, sky_xdr::specs::GrammarReading::give))]
fn take_optional_u64(reader: &mut Reader<'_>) -> Result<Option<u64>, XdrFault>
    ensures exact { Reads result reader.new (optional_at uhyper_at reader.old) }
{
    if reader.take_bool()? {
        Ok(Some(reader.take_u64()?))
    } else {
        Ok(None)
    }
}

/// Takes how a time is set (`set_atime`, `set_mtime`).
#[tactic(auto, unfolding(crate::specs::Reading::set_time_at, crate::specs::Reading::set_time_from, crate::specs::Reading::client_time_at, sky_xdr::specs::Reading::bind, sky_xdr::specs::GrammarReading::give, sky_xdr::specs::GrammarReading::refuse))]
fn take_set_time(reader: &mut Reader<'_>) -> Result<SetTime, XdrFault>
    ensures exact { Reads result reader.new (set_time_at reader.old) }
{
    match reader.take_u32()? {
        0 => Ok(SetTime::Keep),
        1 => Ok(SetTime::Server),
        2 => Ok(SetTime::Client(take_moment(reader)?)),
        _ => Err(XdrFault::BadEnum),
    }
}

/// Takes the attributes that a call sets (`sattr3`).
#[tactic(auto, unfolding(crate::specs::Reading::set_attr_at, sky_xdr::specs::Reading::bind, sky_xdr::specs::GrammarReading::give))]
pub fn take_set_attr(reader: &mut Reader<'_>) -> Result<SetAttr, XdrFault>
    ensures exact { Reads result reader.new (set_attr_at reader.old) }
{
    let mode = take_optional_u32(reader)?;
    let uid = take_optional_u32(reader)?;
    let gid = take_optional_u32(reader)?;
    let size = take_optional_u64(reader)?;
    let atime = take_set_time(reader)?;
    let mtime = take_set_time(reader)?;
    Ok(SetAttr {
        mode,
        uid,
        gid,
        size,
        atime,
        mtime,
    })
}

/// Takes the ctime that an object is to have, if one is asked for (`sattrguard3`).
#[tactic(auto, unfolding(crate::specs::Reading::guard_at, sky_xdr::specs::GrammarReading::optional_at, sky_xdr::specs::Reading::bind, sky_xdr::specs::GrammarReading::give))]
pub fn take_guard(reader: &mut Reader<'_>) -> Result<Option<Moment>, XdrFault>
    ensures exact { Reads result reader.new (guard_at reader.old) }
{
    let asked = reader.take_bool()?;
    if asked {
        Ok(Some(take_moment(reader)?))
    } else {
        Ok(None)
    }
}

/// Writes a moment.
#[tactic(auto, unfolding(crate::specs::Parts::moment_bytes))]
pub fn put_moment(writer: &mut Writer<'_>, moment: Moment) -> Result<(), NoRoom>
    ensures puts { Puts result (moment_bytes moment) writer.old writer.new }
{
    writer.put_u32(moment.seconds)?;
    writer.put_u32(moment.nanos)
}

/// Writes a device.
#[tactic(auto, unfolding(crate::specs::Parts::device_bytes))]
pub fn put_device(writer: &mut Writer<'_>, device: Device) -> Result<(), NoRoom>
    ensures puts { Puts result (device_bytes device) writer.old writer.new }
    ensures fits { FitsDevice device }
{
    writer.put_u32(device.major)?;
    writer.put_u32(device.minor)
}

/// Writes a number that may be left out.
#[tactic(auto, using(sky_xdr::proofs::Puts::puts_then, sky_xdr::proofs::Puts::stops_then))]
fn put_optional_u32(writer: &mut Writer<'_>, number: Option<u32>) -> Result<(), NoRoom>
    ensures puts { Puts result (optional uint number) writer.old writer.new }
{
    match number {
        None => writer.put_bool(false),
        Some(number) => {
            writer.put_bool(true)?;
            writer.put_u32(number)
        }
    }
}

/// Writes a size that may be left out.
#[tactic(auto, using(sky_xdr::proofs::Puts::puts_then, sky_xdr::proofs::Puts::stops_then))]
fn put_optional_u64(writer: &mut Writer<'_>, size: Option<u64>) -> Result<(), NoRoom>
    ensures puts { Puts result (optional uhyper size) writer.old writer.new }
{
    match size {
        None => writer.put_bool(false),
        Some(size) => {
            writer.put_bool(true)?;
            writer.put_u64(size)
        }
    }
}

/// Writes how a time is set.
#[tactic(auto, unfolding(crate::specs::Parts::set_time_bytes), using(sky_xdr::proofs::Puts::puts_then, sky_xdr::proofs::Puts::stops_then))]
fn put_set_time(writer: &mut Writer<'_>, time: SetTime) -> Result<(), NoRoom>
    ensures puts { Puts result (set_time_bytes time) writer.old writer.new }
{
    match time {
        SetTime::Keep => writer.put_u32(0),
        SetTime::Server => writer.put_u32(1),
        SetTime::Client(moment) => {
            writer.put_u32(2)?;
            put_moment(writer, moment)
        }
    }
}

/// Writes the mode, the owner and the owner's group that a call sets.
fn put_owners(writer: &mut Writer<'_>, attributes: SetAttr) -> Result<(), NoRoom>
    ensures puts { Puts result (optional uint attributes.mode ++ optional uint attributes.uid ++ optional uint attributes.gid)
        writer.old writer.new }
{
    put_optional_u32(writer, attributes.mode)?;
    put_optional_u32(writer, attributes.uid)?;
    put_optional_u32(writer, attributes.gid)
}

/// Writes the attributes that a call sets.
#[tactic(auto, unfolding(crate::specs::Parts::set_attr_bytes))]
pub fn put_set_attr(writer: &mut Writer<'_>, attributes: SetAttr) -> Result<(), NoRoom>
    ensures puts { Puts result (set_attr_bytes attributes) writer.old writer.new }
    ensures fits { FitsSetAttr attributes }
{
    put_owners(writer, attributes)?;
    put_optional_u64(writer, attributes.size)?;
    put_set_time(writer, attributes.atime)?;
    put_set_time(writer, attributes.mtime)
}

/// Writes the ctime that an object is to have, if one is asked for.
#[tactic(auto, unfolding(crate::specs::Parts::guard_bytes), using(sky_xdr::proofs::Puts::puts_then, sky_xdr::proofs::Puts::stops_then))]
pub fn put_guard(writer: &mut Writer<'_>, guard: Option<Moment>) -> Result<(), NoRoom>
    ensures puts { Puts result (guard_bytes guard) writer.old writer.new }
    ensures fits { IfSome guard FitsMoment }
{
    match guard {
        None => writer.put_bool(false),
        Some(moment) => {
            writer.put_bool(true)?;
            put_moment(writer, moment)
        }
    }
}
