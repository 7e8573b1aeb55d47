//! What WRITE, CREATE and MKNOD carry: how stable data is to be, how a file is made, and what a special object is.

ghost use Rattle.std.specs.Prelude.{◌≡◌, ◌++◌, length, OnOk};
ghost use Rattle.sky_xdr.specs.Encoding.{uint};
ghost use Rattle.sky_xdr.specs.GrammarReading.{Reads};
ghost use Rattle.sky_xdr.specs.Writing.{Puts};
ghost use Rattle.sky_args.specs.Parts.{set_attr_bytes, stable_how_bytes, create_how_bytes, device_bytes, mknod_bytes};
ghost use Rattle.sky_args.specs.Reading.{stable_how_at, create_how_at, mknod_data_at};
ghost use Rattle.sky_args.specs.Sizes.{FitsDevice, FitsSetAttr, FitsCreateHow, FitsMknodData};

use crate::attributes::{put_device, put_set_attr, take_device, take_set_attr};
use crate::handles::{put_verifier, take_verifier};
use sky_base::Device;
use sky_nfs::{CreateHow, MknodData, SetAttr, StableHow};
use sky_xdr::{NoRoom, Reader, Writer, XdrFault};

/// Takes how stable data is to be (`stable_how`).
#[tactic(auto, unfolding(crate::specs::Reading::stable_how_at, crate::specs::Reading::stable_how_from, sky_xdr::specs::Reading::bind, sky_xdr::specs::GrammarReading::give, sky_xdr::specs::GrammarReading::refuse))]
pub fn take_stable_how(reader: &mut Reader<'_>) -> Result<StableHow, XdrFault>
    ensures exact { Reads result reader.new (stable_how_at reader.old) }
{
    match reader.take_u32()? {
        0 => Ok(StableHow::Unstable),
        1 => Ok(StableHow::DataSync),
        2 => Ok(StableHow::FileSync),
        _ => Err(XdrFault::BadEnum),
    }
}

/// Takes how a file is made (`createhow3`).
#[tactic(auto, unfolding(crate::specs::Reading::create_how_at, crate::specs::Reading::create_how_from, crate::specs::Reading::unchecked_at, crate::specs::Reading::guarded_at, crate::specs::Reading::exclusive_at, sky_xdr::specs::Reading::bind, sky_xdr::specs::GrammarReading::give, sky_xdr::specs::GrammarReading::refuse))]
pub fn take_create_how(reader: &mut Reader<'_>) -> Result<CreateHow, XdrFault>
    ensures exact { Reads result reader.new (create_how_at reader.old) }
{
    match reader.take_u32()? {
        0 => Ok(CreateHow::Unchecked(take_set_attr(reader)?)),
        1 => Ok(CreateHow::Guarded(take_set_attr(reader)?)),
        2 => Ok(CreateHow::Exclusive(take_verifier(reader)?)),
        _ => Err(XdrFault::BadEnum),
    }
}

/// Takes what a special object is (`mknoddata3`).
#[tactic(auto, unfolding(crate::specs::Reading::mknod_data_at, crate::specs::Reading::mknod_data_from, crate::specs::Reading::block_at, crate::specs::Reading::character_at, crate::specs::Reading::socket_at, crate::specs::Reading::pipe_at, sky_xdr::specs::Reading::bind, sky_xdr::specs::GrammarReading::give, sky_xdr::specs::GrammarReading::refuse))]
pub fn take_mknod_data(reader: &mut Reader<'_>) -> Result<MknodData, XdrFault>
    ensures exact { Reads result reader.new (mknod_data_at reader.old) }
{
    match reader.take_u32()? {
        1 => Ok(MknodData::Regular),
        2 => Ok(MknodData::Directory),
        3 => Ok(MknodData::Block(take_set_attr(reader)?, take_device(reader)?)),
        4 => Ok(MknodData::Character(take_set_attr(reader)?, take_device(reader)?)),
        5 => Ok(MknodData::SymbolicLink),
        6 => Ok(MknodData::Socket(take_set_attr(reader)?)),
        7 => Ok(MknodData::Pipe(take_set_attr(reader)?)),
        _ => Err(XdrFault::BadEnum),
    }
}

/// Writes how stable data is to be.
#[tactic(auto, unfolding(crate::specs::Parts::stable_how_bytes))]
pub fn put_stable_how(writer: &mut Writer<'_>, how: StableHow) -> Result<(), NoRoom>
    ensures puts { Puts result (stable_how_bytes how) writer.old writer.new }
{
    match how {
        StableHow::Unstable => writer.put_u32(0),
        StableHow::DataSync => writer.put_u32(1),
        StableHow::FileSync => writer.put_u32(2),
    }
}

/// Writes a number, and the attributes that stand behind it.
fn put_numbered(writer: &mut Writer<'_>, number: u32, attributes: SetAttr) -> Result<(), NoRoom>
    ensures puts { Puts result (uint number ++ set_attr_bytes attributes) writer.old writer.new }
    ensures fits { OnOk result (FitsSetAttr attributes) }
{
    writer.put_u32(number)?;
    put_set_attr(writer, attributes)
}

/// Writes how a file is made.
#[tactic(auto, unfolding(crate::specs::Parts::create_how_bytes), using(sky_xdr::proofs::Puts::puts_then, sky_xdr::proofs::Puts::stops_then))]
pub fn put_create_how(writer: &mut Writer<'_>, how: CreateHow) -> Result<(), NoRoom>
    ensures puts { Puts result (create_how_bytes how) writer.old writer.new }
    ensures fits { OnOk result (FitsCreateHow how) }
{
    match how {
        CreateHow::Unchecked(attributes) => put_numbered(writer, 0, attributes),
        CreateHow::Guarded(attributes) => put_numbered(writer, 1, attributes),
        CreateHow::Exclusive(verifier) => {
            writer.put_u32(2)?;
            put_verifier(writer, verifier)
        }
    }
}

/// Writes what a block or character device is.
fn put_special(
    writer: &mut Writer<'_>,
    number: u32,
    attributes: SetAttr,
    device: Device,
) -> Result<(), NoRoom>
    ensures puts { Puts result (uint number ++ set_attr_bytes attributes ++ device_bytes device)
        writer.old writer.new }
    ensures fits { OnOk result (FitsSetAttr attributes × FitsDevice device) }
{
    put_numbered(writer, number, attributes)?;
    put_device(writer, device)
}

/// Writes what a special object is.
#[tactic(auto, unfolding(crate::specs::Parts::mknod_bytes), using(sky_xdr::proofs::Puts::puts_then, sky_xdr::proofs::Puts::stops_then))]
pub fn put_mknod_data(writer: &mut Writer<'_>, what: MknodData) -> Result<(), NoRoom>
    ensures puts { Puts result (mknod_bytes what) writer.old writer.new }
    ensures fits { OnOk result (FitsMknodData what) }
{
    match what {
        MknodData::Regular => writer.put_u32(1),
        MknodData::Directory => writer.put_u32(2),
        MknodData::Block(attributes, device) => put_special(writer, 3, attributes, device),
        MknodData::Character(attributes, device) => put_special(writer, 4, attributes, device),
        MknodData::SymbolicLink => writer.put_u32(5),
        MknodData::Socket(attributes) => put_numbered(writer, 6, attributes),
        MknodData::Pipe(attributes) => put_numbered(writer, 7, attributes),
    }
}
