//! READDIR and READDIRPLUS, RFC 1813 sections 3.3.16 and 3.3.17: pages of a directory's entries.

ghost use Rattle.std.specs.Prelude.{◌≡◌, ◌==◌, List, [], ◌∷◌, IfOk, IsSome, None, OnErr, false, length, map, true};
ghost use Rattle.std.specs.List.{list_all};
ghost use Rattle.std.specs.Result.{result_err};
ghost use Rattle.sky_base.specs.Listing.{Entry};
ghost use Rattle.sky_dir.specs.Items.{listed_of};
ghost use Rattle.sky_nfs.specs.Handles.{fileid_in};
ghost use Rattle.sky_nfs.specs.Procedure.{refusal_of};
ghost use Rattle.sky_nfs.specs.Procedures.ReadDir.{is_bad_cookie, is_too_small, left_behind, listed, listed_plus, longest, page, page_plus, page_rules};
ghost use Rattle.sky_nfs.specs.Results.{post_attributes, results_or};
ghost use Rattle.sky_nfs.specs.Rules.{first_of};
ghost use Rattle.sky_nfs.specs.Tree.{is_directory, node_at, the_node};
ghost use Rattle.sky_nfs.specs.declared.call.Call.{Call};
ghost use Rattle.sky_nfs.specs.declared.status.NfsStatus.TheVariants.{TooSmall};
ghost use Rattle.sky_tree.specs.Listing.{fits_in, listing_rules};

use crate::allowed::Allowed;
use crate::page::{Page, longest_page};
use crate::results::{object_attributes, post_attributes};
use crate::rules::{lacks, refuse_if, resolve_directory};
use crate::shown::left_behind;
use sky_base::{Attr, Cred, NoMemory, Want};
use sky_dir::Listed;
use sky_nfs::{
    Bytes, Handle, ListedEntries, ListedEntriesPlus, ListedEntry, ListedEntryPlus, NfsStatus,
    RawHandle, ReadDirOk, ReadDirPlusOk, Refused,
};
use sky_nodes::Nodes;
use std::alloc::Global;

/// Whether all bytes are zero.
fn is_zero(bytes: &[u8]) -> bool
    ensures { result ≡ list_all (λ b. b == 0) bytes.now }
{
    bytes.iter().all(|byte| *byte == 0)
}

/// Whether a cookie needs a verifier, and has another one than this server's, which is zero.
fn is_bad_cookie(cookie: u64, verifier: &[u8]) -> bool
    ensures { result ≡ is_bad_cookie cookie verifier.now }
{
    cookie != 0 && !is_zero(verifier)
}

/// The directory that is listed, or why it isn't, whatever fits.
fn directory_to_list(
    nodes: &Nodes,
    cred: &Cred,
    directory: &RawHandle,
    cookie: u64,
    verifier: &[u8],
) -> Result<u64, NfsStatus>
    ensures refused { result_err result ≡ first_of (listing_rules nodes.now cred.now directory.now cookie verifier.now) }
    ensures fileid { IfOk result (λ dir. dir ≡ fileid_in directory.now) }
    ensures there { IfOk result (λ dir. IsSome (node_at nodes.now.nodes dir)) }
    ensures directory { IfOk result (λ dir. is_directory (the_node nodes.now dir) ≡ true) }
{
    let dir = resolve_directory(nodes, directory)?;
    refuse_if(lacks(nodes, cred, dir, Want::Read), NfsStatus::Acces)?;
    refuse_if(is_bad_cookie(cookie, verifier), NfsStatus::BadCookie)?;
    Ok(dir)
}

/// Whether not even the results without entries fit, or entries are left and not one of them does.
fn is_too_small(allowed: Allowed, page: &Page<'_>) -> bool
    ensures { (left : List Entry) → map listed_of page.now.entries.items ≡ longest (fits_in allowed) [] left → page.now.eof ≡ (length page.now.entries.items == length left) → result ≡ is_too_small (fits_in allowed) left }
{
    !allowed.fits(0, 0) || !page.eof && page.entries.is_empty()
}

/// The page of a directory's entries behind a cookie, or that it has too little room. `NoMemory` where there is no memory
/// for it.
fn page_behind<'a>(
    alloc: Global,
    nodes: &'a Nodes,
    dir: u64,
    cookie: u64,
    allowed: Allowed,
) -> Result<Result<Page<'a>, NfsStatus>, NoMemory>
    requires there { IsSome (node_at nodes.now.nodes dir) }
    requires directory { is_directory (the_node nodes.now dir) ≡ true }
    ensures refused { IfOk result (λ r. result_err r ≡ first_of ((is_too_small (fits_in allowed) (left_behind nodes.now dir cookie), TooSmall) ∷ [])) }
    ensures memory { OnErr result (is_too_small (fits_in allowed) (left_behind nodes.now dir cookie) ≡ false) }
    ensures entries { IfOk result (λ r. IfOk r (λ page. map listed_of page.entries.items ≡ longest (fits_in allowed) [] (left_behind nodes.now dir cookie))) }
    ensures eof { IfOk result (λ r. IfOk r (λ page. page.eof ≡ (length page.entries.items == length (left_behind nodes.now dir cookie)))) }
{
    let page = longest_page(alloc, left_behind(nodes, dir, cookie), allowed)?;
    if is_too_small(allowed, &page) {
        Ok(Err(NfsStatus::TooSmall))
    } else {
        Ok(Ok(page))
    }
}

/// The page of a listing behind a cookie, or why there is none. `NoMemory` where there is no memory for it.
fn page_of<'a>(
    alloc: Global,
    nodes: &'a Nodes,
    cred: &Cred,
    directory: &RawHandle,
    cookie: u64,
    verifier: &[u8],
    allowed: Allowed,
) -> Result<Result<Page<'a>, NfsStatus>, NoMemory>
    ensures refused { IfOk result (λ r. result_err r ≡ first_of (page_rules nodes.now cred.now directory.now cookie verifier.now (fits_in allowed))) }
    ensures memory { OnErr result (first_of (page_rules nodes.now cred.now directory.now cookie verifier.now (fits_in allowed)) ≡ None) }
    ensures entries { IfOk result (λ r. IfOk r (λ page. map listed_of page.entries.items ≡ longest (fits_in allowed) [] (left_behind nodes.now (fileid_in directory.now) cookie))) }
    ensures eof { IfOk result (λ r. IfOk r (λ page. page.eof ≡ (length page.entries.items == length (left_behind nodes.now (fileid_in directory.now) cookie)))) }
{
    match directory_to_list(nodes, cred, directory, cookie, verifier) {
        Ok(dir) => page_behind(alloc, nodes, dir, cookie, allowed),
        Err(status) => Ok(Err(status)),
    }
}

/// An entry as READDIR tells it. `NoMemory` where there is no memory for its name.
fn listed(alloc: Global, entry: Listed<'_>) -> Result<ListedEntry, NoMemory>
    ensures { IfOk result (λ r. r ≡ listed (listed_of entry.entry)) }
{
    Ok(ListedEntry {
        fileid: entry.fileid,
        name: Bytes::new(Vec::from_slice(alloc, entry.name)?),
        cookie: entry.cookie,
    })
}

/// An entry as READDIRPLUS tells it. `NoMemory` where there is no memory for its name.
fn listed_plus(alloc: Global, nodes: &Nodes, entry: Listed<'_>) -> Result<ListedEntryPlus, NoMemory>
    ensures { IfOk result (λ r. r ≡ listed_plus nodes.now (listed_of entry.entry)) }
{
    Ok(ListedEntryPlus {
        attributes: object_attributes(nodes, entry.fileid),
        handle: Handle {
            volume: nodes.volume(),
            fileid: entry.fileid,
        },
        entry: listed(alloc, entry)?,
    })
}

/// The entries of a page as READDIR tells them. `NoMemory` where there is no memory for them.
fn names_of(alloc: Global, page: &[Listed<'_>]) -> Result<ListedEntries, NoMemory>
    ensures { IfOk result (λ r. r ≡ map listed (map listed_of page.now)) }
{
    let mut entries = Vec::with_capacity(alloc, page.len())?;
    for entry in page {
        entries.push(listed(alloc, *entry)?)?;
    }
    Ok(ListedEntries::new(entries))
}

/// The entries of a page as READDIRPLUS tells them. `NoMemory` where there is no memory for them.
fn names_plus_of(
    alloc: Global,
    nodes: &Nodes,
    page: &[Listed<'_>],
) -> Result<ListedEntriesPlus, NoMemory>
    ensures { IfOk result (λ r. r ≡ map (listed_plus nodes.now) (map listed_of page.now)) }
{
    let mut entries = Vec::with_capacity(alloc, page.len())?;
    for entry in page {
        entries.push(listed_plus(alloc, nodes, *entry)?)?;
    }
    Ok(ListedEntriesPlus::new(entries))
}

/// What READDIR answers: a page of a directory. `NoMemory` where there is no memory for it.
#[tactic(auto, unfolding(sky_nfs::specs::Procedure::refusal_of, sky_nfs::specs::Procedure::rules_of))]
pub fn readdir(
    alloc: Global,
    nodes: &Nodes,
    cred: &Cred,
    directory: &RawHandle,
    cookie: u64,
    verifier: [u8; 8],
    count: u32,
) -> Result<Result<ReadDirOk, Refused<Option<Attr>>>, NoMemory>
    ensures memory { OnErr result (refusal_of nodes.now cred.now (Call.ReadDir directory.now cookie verifier count) ≡ None) }
    ensures answer { IfOk result (λ answer. answer ≡ results_or (refusal_of nodes.now cred.now (Call.ReadDir directory.now cookie verifier count)) (page nodes.now directory.now cookie count) (post_attributes nodes.now directory.now)) }
{
    let attributes = post_attributes(nodes, directory);
    let allowed = Allowed::Names { count };
    match page_of(alloc, nodes, cred, directory, cookie, &verifier, allowed)? {
        Ok(page) => Ok(Ok(ReadDirOk {
            directory: attributes,
            entries: names_of(alloc, page.entries.as_slice())?,
            eof: page.eof,
        })),
        Err(status) => Ok(Err(Refused { status, attributes })),
    }
}

/// What READDIRPLUS answers: a page of a directory, with the attributes and handles of what its entries name.
/// `NoMemory` where there is no memory for it.
#[tactic(auto, unfolding(sky_nfs::specs::Procedure::refusal_of, sky_nfs::specs::Procedure::rules_of))]
pub fn readdirplus(
    alloc: Global,
    nodes: &Nodes,
    cred: &Cred,
    directory: &RawHandle,
    cookie: u64,
    verifier: [u8; 8],
    dircount: u32,
    maxcount: u32,
) -> Result<Result<ReadDirPlusOk, Refused<Option<Attr>>>, NoMemory>
    ensures memory { OnErr result (refusal_of nodes.now cred.now (Call.ReadDirPlus directory.now cookie verifier dircount maxcount) ≡ None) }
    ensures answer { IfOk result (λ answer. answer ≡ results_or (refusal_of nodes.now cred.now (Call.ReadDirPlus directory.now cookie verifier dircount maxcount)) (page_plus nodes.now directory.now cookie dircount maxcount) (post_attributes nodes.now directory.now)) }
{
    let attributes = post_attributes(nodes, directory);
    let allowed = Allowed::NamesPlus { dircount, maxcount };
    match page_of(alloc, nodes, cred, directory, cookie, &verifier, allowed)? {
        Ok(page) => Ok(Ok(ReadDirPlusOk {
            directory: attributes,
            entries: names_plus_of(alloc, nodes, page.entries.as_slice())?,
            eof: page.eof,
        })),
        Err(status) => Ok(Err(Refused { status, attributes })),
    }
}
