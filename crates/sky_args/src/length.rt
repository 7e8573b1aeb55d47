//! How many bytes arguments take.

ghost use Rattle.std.specs.Prelude.{◌≡◌, ◌+◌, ◌^◌, ◌<◌, ◌≤◌, length};
ghost use Rattle.sky_xdr.specs.Encoding.{uint, uhyper, fixed, opaque, optional};
ghost use Rattle.sky_args.specs.Args.{args_bytes};
ghost use Rattle.sky_args.specs.Parts.{dir_op_args_bytes, set_time_bytes, set_attr_bytes, guard_bytes, create_how_bytes, mknod_bytes};

use sky_base::Moment;
use sky_nfs::{Bytes, Call, CreateHow, DirOpArgs, MknodData, RawHandle, SetAttr, SetTime};
use sky_xdr::opaque_length;

#[tactic(auto, using(crate::proofs::Lengths::opaque_size))]
fn handle_length(handle: &RawHandle) -> usize
    ensures exact { result ≡ length (opaque handle.now) }
    ensures small { result ≤ 68 }
{
    opaque_length(handle.as_bytes())
}

fn text_length(text: &Bytes) -> usize
    ensures exact { result ≡ length (opaque text.now) }
{
    opaque_length(text.as_slice())
}

#[tactic(auto, using(crate::proofs::Lengths::sizes))]
fn verifier_length(verifier: [u8; 8]) -> usize
    ensures exact { result ≡ length (fixed verifier) }
    ensures small { result ≤ 8 }
{
    verifier.len()
}

#[tactic(auto, unfolding(crate::specs::Parts::dir_op_args_bytes))]
fn dir_op_args_length(at: &DirOpArgs) -> usize
    requires { length (dir_op_args_bytes at.now) < 2 ^ 32 }
    ensures { result ≡ length (dir_op_args_bytes at.now) }
{
    handle_length(&at.directory) + text_length(&at.name)
}

#[tactic(auto, using(crate::proofs::Lengths::optional_sizes))]
fn optional_u32_length(number: Option<u32>) -> usize
    ensures exact { result ≡ length (optional uint number) }
    ensures small { result ≤ 8 }
{
    if number.is_some() { 8 } else { 4 }
}

#[tactic(auto, using(crate::proofs::Lengths::optional_sizes))]
fn optional_u64_length(size: Option<u64>) -> usize
    ensures exact { result ≡ length (optional uhyper size) }
    ensures small { result ≤ 12 }
{
    if size.is_some() { 12 } else { 4 }
}

#[tactic(auto, unfolding(crate::specs::Parts::set_time_bytes), using(crate::proofs::Lengths::sizes))]
fn set_time_length(time: SetTime) -> usize
    ensures exact { result ≡ length (set_time_bytes time) }
    ensures small { result ≤ 12 }
{
    match time {
        SetTime::Keep | SetTime::Server => 4,
        SetTime::Client(_) => 12,
    }
}

#[tactic(auto, unfolding(crate::specs::Parts::set_attr_bytes))]
fn set_attr_length(a: SetAttr) -> usize
    ensures exact { result ≡ length (set_attr_bytes a) }
    ensures small { result ≤ 60 }
{
    let owners = optional_u32_length(a.mode)
        + optional_u32_length(a.uid)
        + optional_u32_length(a.gid);
    let size = optional_u64_length(a.size);
    owners + size + set_time_length(a.atime) + set_time_length(a.mtime)
}

#[tactic(auto, using(crate::proofs::Lengths::optional_sizes))]
fn guard_length(guard: Option<Moment>) -> usize
    ensures exact { result ≡ length (guard_bytes guard) }
    ensures small { result ≤ 12 }
{
    if guard.is_some() { 12 } else { 4 }
}

#[tactic(auto, unfolding(crate::specs::Parts::create_how_bytes), using(crate::proofs::Lengths::sizes))]
fn create_how_length(how: CreateHow) -> usize
    ensures exact { result ≡ length (create_how_bytes how) }
    ensures small { result ≤ 64 }
{
    match how {
        CreateHow::Unchecked(a) | CreateHow::Guarded(a) => 4 + set_attr_length(a),
        CreateHow::Exclusive(_) => 12,
    }
}

#[tactic(auto, unfolding(crate::specs::Parts::mknod_bytes), using(crate::proofs::Lengths::sizes))]
fn mknod_length(what: MknodData) -> usize
    ensures exact { result ≡ length (mknod_bytes what) }
    ensures small { result ≤ 72 }
{
    match what {
        MknodData::Regular | MknodData::Directory | MknodData::SymbolicLink => 4,
        MknodData::Block(a, _) | MknodData::Character(a, _) => 12 + set_attr_length(a),
        MknodData::Socket(a) | MknodData::Pipe(a) => 4 + set_attr_length(a),
    }
}

/// How many bytes the arguments of a call take. The condition is that these are fewer than 2^32.
#[tactic(auto, using(crate::proofs::Lengths::sizes))]
pub fn args_length(call: &Call) -> usize
    requires { length (args_bytes call.now) < 2 ^ 32 }
    ensures { result ≡ length (args_bytes call.now) }
{
    match call {
        Call::Null => 0,
        Call::GetAttr { object } => handle_length(object),
        Call::SetAttr {
            object,
            attributes,
            guard,
        } => handle_length(object) + set_attr_length(*attributes) + guard_length(*guard),
        Call::Lookup { at } => dir_op_args_length(at),
        Call::Access { object, .. } => handle_length(object) + 4,
        Call::ReadLink { link } => handle_length(link),
        Call::Read { file, .. } => handle_length(file) + 12,
        Call::Write { file, data, .. } => handle_length(file) + 16 + text_length(data),
        Call::Create { at, how } => dir_op_args_length(at) + create_how_length(*how),
        Call::Mkdir { at, attributes } => dir_op_args_length(at) + set_attr_length(*attributes),
        Call::Symlink {
            at,
            attributes,
            text,
        } => dir_op_args_length(at) + set_attr_length(*attributes) + text_length(text),
        Call::Mknod { at, what } => dir_op_args_length(at) + mknod_length(*what),
        Call::Remove { at } => dir_op_args_length(at),
        Call::Rmdir { at } => dir_op_args_length(at),
        Call::Rename { from, to } => dir_op_args_length(from) + dir_op_args_length(to),
        Call::Link { file, at } => handle_length(file) + dir_op_args_length(at),
        Call::ReadDir {
            directory,
            verifier,
            ..
        } => handle_length(directory) + 12 + verifier_length(*verifier),
        Call::ReadDirPlus {
            directory,
            verifier,
            ..
        } => handle_length(directory) + 16 + verifier_length(*verifier),
        Call::FsStat { root } => handle_length(root),
        Call::FsInfo { root } => handle_length(root),
        Call::PathConf { object } => handle_length(object),
        Call::Commit { file, .. } => handle_length(file) + 12,
    }
}
