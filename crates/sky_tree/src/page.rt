//! A page of a listing.

ghost use Rattle.std.specs.Prelude.{◌≡◌, ◌==◌, [], IfOk, OnErr, false, length, map};
ghost use Rattle.sky_dir.specs.Items.{listed_of};
ghost use Rattle.sky_nfs.specs.Procedures.ReadDir.{is_too_small, longest};
ghost use Rattle.sky_tree.specs.Listing.{fits_in};

use crate::allowed::Allowed;
use crate::shown::Shown;
use sky_base::NoMemory;
use sky_dir::Listed;
use std::alloc::Global;

/// Entries of a directory as a page tells them, and whether the listing ends with them.
#[derive(Drop)]
pub struct Page<'a> {
    pub entries: Vec<Listed<'a>>,
    pub eof: bool,
}

/// As many of the entries that are left as fit: all up to the first that doesn't. `NoMemory` where there is no memory for
/// them; one fits then.
pub fn longest_page<'a>(
    alloc: Global,
    left: Shown<'a>,
    allowed: Allowed,
) -> Result<Page<'a>, NoMemory>
    ensures entries { IfOk result (λ page. map listed_of page.entries.items ≡ longest (fits_in allowed) [] left.entry) }
    ensures eof { IfOk result (λ page. page.eof ≡ (length page.entries.items == length left.entry)) }
    ensures memory { OnErr result (is_too_small (fits_in allowed) left.entry ≡ false) }
{
    let mut entries = Vec::new(alloc);
    let mut bytes = 0;
    for entry in left {
        let Some(more) = allowed.with_entry(entries.len() as u64, bytes, entry.name) else {
            return Ok(Page {
                entries,
                eof: false,
            });
        };
        entries.push(entry)?;
        bytes = more;
    }
    Ok(Page { entries, eof: true })
}
