//! Each value of the types is within the ranges that the law of one reading asks for. A call of these functions does
//! nothing.

ghost use Rattle.std.specs.Prelude.{◌^◌, ◌<◌, length, flat_map};
ghost use Rattle.std.specs.List.{AllByRecursion};
ghost use Rattle.sky_results.specs.Answers.{answer_bytes};
ghost use Rattle.sky_results.specs.Ranges as ranges;
ghost use Rattle.sky_results.specs.Results as encoded;

use sky_base::Attr;
use sky_nfs::{
    AccessOk, Answer, CommitOk, CreateOk, FsInfoOk, FsStatOk, Handle, LinkResults, ListedEntry,
    ListedEntryPlus, LookupOk, PathConfOk, ReadDirOk, ReadDirPlusOk, ReadLinkOk, ReadOk,
    RenameResults, WccAttr, WccData, WriteOk,
};

fn attr_fits(a: Attr)
    ensures { ranges.AttrFits a }
{}

fn told_fits(told: Option<Attr>)
    ensures { ranges.ToldFits told }
{
    if let Some(a) = told {
        attr_fits(a);
    }
}

fn wcc_attr_fits(w: WccAttr)
    ensures { ranges.WccAttrFits w }
{}

fn wcc_fits(w: WccData)
    ensures { ranges.WccFits w }
{
    if let Some(before) = w.before {
        wcc_attr_fits(before);
    }
    told_fits(w.after);
}

fn handle_fits(h: Handle)
    ensures { ranges.HandleFits h }
{}

fn lookup_fits(r: LookupOk)
    ensures { ranges.LookupFits r }
{
    handle_fits(r.handle);
    told_fits(r.object);
    told_fits(r.directory);
}

fn access_fits(r: AccessOk)
    ensures { ranges.AccessFits r }
{
    told_fits(r.object);
}

fn fsstat_fits(r: FsStatOk)
    ensures { ranges.FsStatFits r }
{
    told_fits(r.root);
}

fn fsinfo_fits(r: FsInfoOk)
    ensures { ranges.FsInfoFits r }
{
    told_fits(r.root);
}

fn write_fits(r: WriteOk)
    ensures { ranges.WriteFits r }
{
    wcc_fits(r.file);
}

fn create_fits(r: CreateOk)
    ensures { ranges.CreateFits r }
{
    handle_fits(r.handle);
    told_fits(r.object);
    wcc_fits(r.directory);
}

fn rename_fits(r: RenameResults)
    ensures { ranges.RenameFits r }
{
    wcc_fits(r.from);
    wcc_fits(r.to);
}

fn link_fits(r: LinkResults)
    ensures { ranges.LinkFits r }
{
    told_fits(r.file);
    wcc_fits(r.directory);
}

fn pathconf_fits(r: PathConfOk)
    ensures { ranges.PathConfFits r }
{
    told_fits(r.object);
}

fn commit_fits(r: CommitOk)
    ensures { ranges.CommitFits r }
{
    wcc_fits(r.file);
}

#[tactic(auto, using(crate::proofs::Sizes::opaque_sizes), unfolding(crate::specs::Results::readlink_ok))]
fn readlink_fits(r: &ReadLinkOk)
    requires { length (encoded.readlink_ok r.now) < 2 ^ 32 }
    ensures { ranges.ReadLinkFits r.now }
{
    told_fits(r.link);
}

#[tactic(auto, using(crate::proofs::Sizes::opaque_sizes), unfolding(crate::specs::Results::read_ok))]
fn read_fits(r: &ReadOk)
    requires { length (encoded.read_ok r.now) < 2 ^ 32 }
    ensures { ranges.ReadFits r.now }
{
    told_fits(r.file);
}

#[tactic(auto, using(crate::proofs::Sizes::opaque_sizes), unfolding(crate::specs::Results::entry3))]
fn entry_fits(entry: &ListedEntry)
    requires { length (encoded.entry3 entry.now) < 2 ^ 32 }
    ensures { ranges.EntryFits entry.now }
{
    let _fileid = entry.fileid;
    let _cookie = entry.cookie;
}

#[tactic(auto, using(crate::proofs::Sizes::sizes), unfolding(crate::specs::Results::entryplus3))]
fn entry_plus_fits(entry: &ListedEntryPlus)
    requires { length (encoded.entryplus3 entry.now) < 2 ^ 32 }
    ensures { ranges.EntryPlusFits entry.now }
{
    entry_fits(&entry.entry);
    told_fits(entry.attributes);
    handle_fits(entry.handle);
}

fn entries_fit(entries: &[ListedEntry])
    requires { length (flat_map encoded.entry3 entries.now) < 2 ^ 32 }
    ensures { AllByRecursion ranges.EntryFits entries.now }
{
    for entry in entries {
        entry_fits(entry);
    }
}

fn entries_plus_fit(entries: &[ListedEntryPlus])
    requires { length (flat_map encoded.entryplus3 entries.now) < 2 ^ 32 }
    ensures { AllByRecursion ranges.EntryPlusFits entries.now }
{
    for entry in entries {
        entry_plus_fits(entry);
    }
}

#[tactic(auto, using(crate::proofs::Sizes::sizes), unfolding(crate::specs::Results::readdir_ok))]
fn readdir_fits(r: &ReadDirOk)
    requires { length (encoded.readdir_ok r.now) < 2 ^ 32 }
    ensures { ranges.ReadDirFits r.now }
{
    told_fits(r.directory);
    entries_fit(r.entries.as_slice());
}

#[tactic(auto, using(crate::proofs::Sizes::sizes), unfolding(crate::specs::Results::readdirplus_ok))]
fn readdirplus_fits(r: &ReadDirPlusOk)
    requires { length (encoded.readdirplus_ok r.now) < 2 ^ 32 }
    ensures { ranges.ReadDirPlusFits r.now }
{
    told_fits(r.directory);
    entries_plus_fit(r.entries.as_slice());
}

/// Each value of the type is within the ranges that the law of one reading asks for, where its encoding has fewer than
/// 2^32 bytes.
#[tactic(auto, using(crate::proofs::Sizes::sizes), unfolding(crate::specs::Answers::answer_bytes))]
pub fn answers_are_in_range(answer: &Answer)
    requires { length (answer_bytes answer.now) < 2 ^ 32 }
    ensures { ranges.AnswerFits answer.now }
{
    match answer {
        Answer::Null | Answer::GetAttr(Err(_)) => {}
        Answer::GetAttr(Ok(a)) => attr_fits(*a),
        Answer::SetAttr(Ok(w)) | Answer::Remove(Ok(w)) | Answer::Rmdir(Ok(w)) => wcc_fits(*w),
        Answer::Lookup(Ok(r)) => lookup_fits(*r),
        Answer::Access(Ok(r)) => access_fits(*r),
        Answer::ReadLink(Ok(r)) => readlink_fits(r),
        Answer::Read(Ok(r)) => read_fits(r),
        Answer::Write(Ok(r)) => write_fits(*r),
        Answer::Create(Ok(r)) | Answer::Mkdir(Ok(r)) | Answer::Symlink(Ok(r)) => create_fits(*r),
        Answer::Rename(Ok(r)) => rename_fits(*r),
        Answer::Rename(Err(e)) => rename_fits(e.attributes),
        Answer::Link(Ok(r)) => link_fits(*r),
        Answer::Link(Err(e)) => link_fits(e.attributes),
        Answer::ReadDir(Ok(r)) => readdir_fits(r),
        Answer::ReadDirPlus(Ok(r)) => readdirplus_fits(r),
        Answer::FsStat(Ok(r)) => fsstat_fits(*r),
        Answer::FsInfo(Ok(r)) => fsinfo_fits(*r),
        Answer::PathConf(Ok(r)) => pathconf_fits(*r),
        Answer::Commit(Ok(r)) => commit_fits(*r),
        Answer::Lookup(Err(e))
        | Answer::Access(Err(e))
        | Answer::ReadLink(Err(e))
        | Answer::Read(Err(e))
        | Answer::ReadDir(Err(e))
        | Answer::ReadDirPlus(Err(e))
        | Answer::FsStat(Err(e))
        | Answer::FsInfo(Err(e))
        | Answer::PathConf(Err(e)) => told_fits(e.attributes),
        Answer::SetAttr(Err(e))
        | Answer::Write(Err(e))
        | Answer::Create(Err(e))
        | Answer::Mkdir(Err(e))
        | Answer::Symlink(Err(e))
        | Answer::Mknod(e)
        | Answer::Remove(Err(e))
        | Answer::Rmdir(Err(e))
        | Answer::Commit(Err(e)) => wcc_fits(e.attributes),
    }
}
