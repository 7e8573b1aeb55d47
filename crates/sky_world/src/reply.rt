//! The buffer in which replies are written.

ghost use Rattle.std.specs.Prelude.{◌≡◌, ◌≤◌, ◌<◌, ◌^◌, [], IfOk, IfSome, IsErr, OnErr, OnOk, drop, length, take, vec_len};
ghost use Rattle.std.specs.Option.{option_map};
ghost use Rattle.sky_mount.specs.Mount as mount;
ghost use Rattle.sky_mount.specs.Values.{call_of};
ghost use Rattle.sky_nfs.specs.declared.status.NfsStatus.TheVariants.{ServerFault, Jukebox};
ghost use Rattle.sky_entry.specs.Entry.{entry_bytes};
ghost use Rattle.sky_outside.specs.Count.{Counts};
ghost use Rattle.sky_outside.specs.Told.{Given, GivenPart};
ghost use Rattle.sky_results.specs.Answers.{answer_bytes};
ghost use Rattle.sky_rpc.specs.Reply.{Success, reply_record};
ghost use Rattle.sky_rpc.specs.Values.{reply_of, results_count};
ghost use Rattle.sky_script.specs.Frame.{Reply, out_frame};
ghost use Rattle.sky_world.specs.Carried.{IsServing};
ghost use Rattle.sky_world.specs.Feeding.{Acknowledges, Answers, AnswersCall, AnswersMessage, Fails, FailsCall, FailsMessage, IsFormed, IsSmall};
ghost use Rattle.sky_world.specs.Message.{procedure_count};
ghost use Rattle.sky_world.specs.Service.{bare_answer, reply_without_memory};

use crate::fault::bare_answer;
use crate::message::{Message, read_message};
use crate::service::Service;
use sky_base::NoMemory;
use sky_calls::Outcome;
use sky_mount::{MountCall, write_mount};
use sky_nfs::{Answer, Change, NfsStatus};
use sky_outside::{Disk, Failed, Sink};
use sky_results::write_answer;
use sky_rpc::{RESULTS_AT, ReplyBody, write_reply};
use sky_script::{HEADER_ROOM, write_reply_frame};
use std::alloc::Global;

/// The most bytes that the record of a reply has, with its header.
const REPLY_LIMIT: usize = 131_072;

/// Writes the results of a call of MOUNT at the beginning of a buffer, and says how many bytes they are.
#[tactic(auto, using(crate::proofs::ReplyLaws::length_mounted))]
fn write_mount_results(call: &MountCall<'_>, volume: u64, buf: &mut [u8]) -> usize
    requires { 36 ≤ length buf.old }
    ensures within { result ≤ 36 }
    ensures fits { result ≤ length buf.new }
    ensures written { take result buf.new ≡ mount.results volume (call_of call.now) }
{
    write_mount(buf, call, volume).unwrap()
}

/// Writes the record of the reply to a call of MOUNT, and says how many bytes it has.
fn write_mounted(xid: u32, call: &MountCall<'_>, volume: u64, buf: &mut [u8]) -> usize
    requires { 131072 ≤ length buf.old }
    ensures within { result ≤ 131072 }
    ensures written { take result buf.new ≡ reply_record xid (Success (mount.results volume (call_of call.now))) }
{
    let results = write_mount_results(call, volume, &mut buf[RESULTS_AT..]);
    write_reply(buf, xid, ReplyBody::Success { results }).unwrap()
}

/// Writes the record of the reply with an answer of NFS, and says how many bytes it has.
fn write_success(xid: u32, answer: &Answer, buf: &mut [u8]) -> usize
    requires fits { length (answer_bytes answer.now) ≤ 65779 }
    requires room { 131072 ≤ length buf.old }
    ensures within { result ≤ 131072 }
    ensures written { take result buf.new ≡ reply_record xid (Success (answer_bytes answer.now)) }
{
    let results = write_answer(&mut buf[RESULTS_AT..], answer).unwrap();
    write_reply(buf, xid, ReplyBody::Success { results }).unwrap()
}

/// Writes the record of a reply without results, and says how many bytes it has.
fn write_refusal(xid: u32, reply: ReplyBody, buf: &mut [u8]) -> usize
    requires no_results { results_count reply ≡ 0 }
    requires room { 131072 ≤ length buf.old }
    ensures within { result ≤ 131072 }
    ensures written { take result buf.new ≡ reply_record xid (reply_of reply []) }
{
    write_reply(buf, xid, reply).unwrap()
}

/// Writes the record of the reply to a call of this procedure for which there was no memory, and says how many bytes it
/// has.
fn write_out_of_memory(xid: u32, procedure: u32, buf: &mut [u8]) -> usize
    requires procedure { procedure < procedure_count }
    requires room { 131072 ≤ length buf.old }
    ensures within { result ≤ 131072 }
    ensures written { take result buf.new ≡ reply_record xid (reply_without_memory procedure) }
{
    if procedure == 0 {
        return write_refusal(xid, ReplyBody::SystemErr, buf);
    }
    let answer = bare_answer(procedure, NfsStatus::ServerFault);
    write_success(xid, &answer, buf)
}

/// Writes the record of the reply to a call of this procedure that is put off, and says how many bytes it has.
fn write_put_off(xid: u32, procedure: u32, buf: &mut [u8]) -> usize
    requires procedure { procedure < procedure_count }
    requires room { 131072 ≤ length buf.old }
    ensures within { result ≤ 131072 }
    ensures written { take result buf.new ≡ reply_record xid (Success (answer_bytes (bare_answer procedure Jukebox))) }
{
    let answer = bare_answer(procedure, NfsStatus::Jukebox);
    write_success(xid, &answer, buf)
}

/// Answers a call of NFS, and writes the record of the reply. Says how many bytes it has.
///
/// `Failed` where a call of the disk failed; the service can answer no more calls then.
fn write_called<D: Disk>(
    service: &mut Service,
    disk: &mut D,
    xid: u32,
    procedure: u32,
    change: &Change,
    buf: &mut [u8],
) -> Result<usize, Failed>
    requires procedure { procedure < procedure_count }
    requires small { length (entry_bytes change.now) < 2 ^ 32 }
    requires moment { change.now.moment ≡ service.old.moment }
    requires room { 131072 ≤ length buf.old }
    requires serving { IsServing D.Storage service.old disk.old }
    ensures within { IfOk result (λ n. n ≤ 131072) }
    ensures called { IfOk result (λ n. AnswersCall D.Storage service.old disk.old xid procedure change.now.cred change.now.call (take n buf.new) service.new disk.new) }
    ensures serving { OnOk result (IsServing D.Storage service.new disk.new) }
    ensures fails { OnErr result (FailsCall D.Storage service.old disk.old xid procedure change.now.cred change.now.call disk.new) }
    ensures size { D.bytes_of disk.new ≡ D.bytes_of disk.old }
    ensures cause { Counts (D.disk_faults disk.old) (D.disk_faults disk.new) (IsErr result) }
    ensures cloud { D.cloud_faults disk.new ≡ D.cloud_faults disk.old }
    ensures objects { D.objects disk.new ≡ D.objects disk.old }
{
    match service.answer(disk, change) {
        Outcome::Done(answer) => Ok(write_success(xid, &answer, buf)),
        Outcome::Jukebox { .. } => Ok(write_put_off(xid, procedure, buf)),
        Outcome::Memory => Ok(write_out_of_memory(xid, procedure, buf)),
        Outcome::Down => Err(Failed),
    }
}

/// Writes the record of the reply to a message, if it has one, and says how many bytes it has. A call of NFS is answered.
///
/// `Failed` where a call of the disk failed.
fn write_message<D: Disk>(
    service: &mut Service,
    disk: &mut D,
    message: Message<'_>,
    buf: &mut [u8],
) -> Result<Option<usize>, Failed>
    requires formed { IsFormed message }
    requires small { IsSmall message }
    requires room { 131072 ≤ length buf.old }
    requires serving { IsServing D.Storage service.old disk.old }
    ensures within { IfOk result (λ wrote. IfSome wrote (λ n. n ≤ 131072)) }
    ensures answered { IfOk result (λ wrote. AnswersMessage D.Storage service.old disk.old message.entry (option_map (λ n. take n buf.new) wrote) service.new disk.new) }
    ensures serving { OnOk result (IsServing D.Storage service.new disk.new) }
    ensures fails { OnErr result (FailsMessage D.Storage service.old disk.old message.entry disk.new) }
    ensures size { D.bytes_of disk.new ≡ D.bytes_of disk.old }
    ensures cause { Counts (D.disk_faults disk.old) (D.disk_faults disk.new) (IsErr result) }
    ensures cloud { D.cloud_faults disk.new ≡ D.cloud_faults disk.old }
    ensures objects { D.objects disk.new ≡ D.objects disk.old }
{
    match message {
        Message::Close => Ok(None),
        Message::Refused { xid, reply } => Ok(Some(write_refusal(xid, reply, buf))),
        Message::Mount { xid, call } => Ok(Some(write_mounted(xid, &call, service.volume(), buf))),
        Message::Nfs {
            xid,
            procedure,
            cred,
            call,
        } => {
            let moment = service.moment();
            let change = Change { cred, moment, call };
            let count = write_called(service, disk, xid, procedure, &change, buf)?;
            Ok(Some(count))
        }
        Message::OutOfMemory { xid, procedure } => {
            Ok(Some(write_out_of_memory(xid, procedure, buf)))
        }
    }
}

/// Answers a record of a session: writes the record of the reply, if it has one, and says how many bytes it has. The record has at most
/// 131,072 bytes.
///
/// `Failed` where a call of the disk failed.
fn write_reply_to<D: Disk>(
    alloc: Global,
    service: &mut Service,
    disk: &mut D,
    text: &[u8],
    buf: &mut [u8],
) -> Result<Option<usize>, Failed>
    requires short { length text.now ≤ 131072 }
    requires room { 131072 ≤ length buf.old }
    requires serving { IsServing D.Storage service.old disk.old }
    ensures within { IfOk result (λ wrote. IfSome wrote (λ n. n ≤ 131072)) }
    ensures answered { IfOk result (λ wrote. Answers D.Storage service.old disk.old text.now (option_map (λ n. take n buf.new) wrote) service.new disk.new) }
    ensures serving { OnOk result (IsServing D.Storage service.new disk.new) }
    ensures fails { OnErr result (Fails D.Storage service.old disk.old text.now disk.new) }
    ensures size { D.bytes_of disk.new ≡ D.bytes_of disk.old }
    ensures cause { Counts (D.disk_faults disk.old) (D.disk_faults disk.new) (IsErr result) }
    ensures cloud { D.cloud_faults disk.new ≡ D.cloud_faults disk.old }
    ensures objects { D.objects disk.new ≡ D.objects disk.old }
{
    let message = read_message(alloc, text);
    write_message(service, disk, message, buf)
}

/// The same, with room for the header of a frame before the record.
fn write_reply_behind<D: Disk>(
    alloc: Global,
    service: &mut Service,
    disk: &mut D,
    text: &[u8],
    buf: &mut [u8],
) -> Result<Option<usize>, Failed>
    requires short { length text.now ≤ 131072 }
    requires room { 131081 ≤ length buf.old }
    requires serving { IsServing D.Storage service.old disk.old }
    ensures within { IfOk result (λ wrote. IfSome wrote (λ n. n ≤ 131072)) }
    ensures answered { IfOk result (λ wrote. Answers D.Storage service.old disk.old text.now (option_map (λ n. take n (drop 9 buf.new)) wrote) service.new disk.new) }
    ensures stable_before_reply { IfOk result (λ wrote. Acknowledges D.Storage service.old disk.old text.now (option_map (λ n. take n (drop 9 buf.new)) wrote) disk.new) }
    ensures serving { OnOk result (IsServing D.Storage service.new disk.new) }
    ensures fails { OnErr result (Fails D.Storage service.old disk.old text.now disk.new) }
    ensures size { D.bytes_of disk.new ≡ D.bytes_of disk.old }
    ensures cause { Counts (D.disk_faults disk.old) (D.disk_faults disk.new) (IsErr result) }
    ensures cloud { D.cloud_faults disk.new ≡ D.cloud_faults disk.old }
    ensures objects { D.objects disk.new ≡ D.objects disk.old }
{
    write_reply_to(alloc, service, disk, text, &mut buf[HEADER_ROOM..])
}

/// Gives a session a record that stands behind room for the header of its frame, in one piece with that header.
fn give_reply<K: Sink>(
    session: u32,
    count: usize,
    buf: &mut [u8],
    sink: &mut K,
) -> Result<(), Failed>
    requires count { count ≤ 131072 }
    requires room { 131081 ≤ length buf.old }
    ensures ok { OnOk result (Given (K.written sink.old) (K.written sink.new)
        (out_frame (Reply session (take count (drop 9 buf.old))))) }
    ensures partly { OnErr result (GivenPart (K.written sink.old) (K.written sink.new)
        (out_frame (Reply session (take count (drop 9 buf.old))))) }
    ensures cause { Counts (K.faults sink.old) (K.faults sink.new) (IsErr result) }
{
    write_reply_frame(sink, session, &mut buf[..HEADER_ROOM + count])
}

/// A buffer for the record of one reply, behind room for the header of its frame.
#[derive(Drop)]
pub struct ReplyBuf {
    bytes: Vec<u8>,
    ghost whole: { vec_len bytes ≡ 131081 },
}

impl ReplyBuf {
    /// Reserves the buffer, for the longest reply.
    pub fn new(alloc: Global) -> Result<ReplyBuf, NoMemory> {
        let bytes = vec![in alloc; 0; HEADER_ROOM + REPLY_LIMIT]?;
        Ok(ReplyBuf { bytes })
    }

    /// Answers a record of a session: writes the record of the reply, if it has one, and says how many bytes it has. The record has at
    /// most 131,072 bytes.
    ///
    /// `Failed` where a call of the disk failed.
    pub fn write<D: Disk>(
        &mut self,
        alloc: Global,
        service: &mut Service,
        disk: &mut D,
        text: &[u8],
    ) -> Result<Option<usize>, Failed>
        requires short { length text.now ≤ 131072 }
        requires serving { IsServing D.Storage service.old disk.old }
        ensures within { IfOk result (λ wrote. IfSome wrote (λ n. n ≤ 131072)) }
        ensures answered { IfOk result (λ wrote. Answers D.Storage service.old disk.old text.now (option_map (λ n. take n (drop 9 self.new.bytes.items)) wrote) service.new disk.new) }
        // Before a byte of the reply is given away, a crash leaves what it acknowledges.
        ensures stable_before_reply { IfOk result (λ wrote. Acknowledges D.Storage service.old disk.old text.now (option_map (λ n. take n (drop 9 self.new.bytes.items)) wrote) disk.new) }
        ensures serving { OnOk result (IsServing D.Storage service.new disk.new) }
        ensures fails { OnErr result (Fails D.Storage service.old disk.old text.now disk.new) }
        ensures size { D.bytes_of disk.new ≡ D.bytes_of disk.old }
        ensures cause { Counts (D.disk_faults disk.old) (D.disk_faults disk.new) (IsErr result) }
        ensures cloud { D.cloud_faults disk.new ≡ D.cloud_faults disk.old }
        ensures objects { D.objects disk.new ≡ D.objects disk.old }
    {
        match write_reply_behind(alloc, service, disk, text, &mut self.bytes) {
            Ok(wrote) => Ok(wrote),
            Err(Failed) => Err(Failed),
        }
    }

    /// Gives a session the first bytes of the record that was written, in one piece with the header of their frame.
    pub fn give<K: Sink>(&mut self, session: u32, count: usize, sink: &mut K) -> Result<(), Failed>
        requires { count ≤ 131072 }
        ensures ok { OnOk result (Given (K.written sink.old) (K.written sink.new)
            (out_frame (Reply session (take count (drop 9 self.old.bytes.items))))) }
        ensures partly { OnErr result (GivenPart (K.written sink.old) (K.written sink.new)
            (out_frame (Reply session (take count (drop 9 self.old.bytes.items))))) }
        ensures cause { Counts (K.faults sink.old) (K.faults sink.new) (IsErr result) }
    {
        give_reply(session, count, &mut self.bytes, sink)
    }
}
