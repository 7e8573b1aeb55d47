//! What a caller allows of a page of a listing.

ghost use Rattle.std.specs.Prelude.{◌≡◌, ◌+◌, ◌≤◌, IfNone, IfSome, false, true};
ghost use Rattle.sky_nfs.specs.Procedures.ReadDir.{padded_length};
ghost use Rattle.sky_tree.specs.Listing.{size_fits_in};

/// The most bytes of a page.
const MAX_PAGE: u64 = 65536;

/// The bytes of a page without entries.
const EMPTY_PAGE: u64 = 104;

/// The bytes of an entry beside its name.
const ENTRY_OVERHEAD: u64 = 24;

/// The bytes of an entry's attributes and its handle.
const ATTRIBUTES_AND_HANDLE: u64 = 112;

/// What a caller allows of a page of a listing.
#[derive(Clone, Copy)]
pub enum Allowed {
    /// READDIR: so many bytes of results.
    Names { count: u32 },
    /// READDIRPLUS: so many bytes of names and cookies, and so many of results.
    NamesPlus { dircount: u32, maxcount: u32 },
}

impl Allowed {
    /// Whether a page of so many entries fits. The bytes are those of the entries without attributes and handles.
    pub fn fits(self, entries: u64, bytes: u64) -> bool
        requires entries { entries ≤ 262144 }
        requires bytes { bytes ≤ 262144 }
        ensures { result ≡ size_fits_in self entries bytes }
    {
        match self {
            Allowed::Names { count } => EMPTY_PAGE + bytes <= MAX_PAGE.min(count as u64),
            Allowed::NamesPlus { dircount, maxcount } => {
                let whole = EMPTY_PAGE + (bytes + ATTRIBUTES_AND_HANDLE * entries);
                whole <= MAX_PAGE.min(maxcount as u64) && (entries <= 1 || bytes <= dircount as u64)
            }
        }
    }

    /// The bytes of a page with an entry more, of this name, where it fits.
    pub fn with_entry(self, entries: u64, bytes: u64, name: &[u8]) -> Option<u64>
        requires entries { entries ≤ 65536 }
        requires bytes { bytes ≤ 65536 }
        ensures more { IfSome result (λ more. more ≡ bytes + (24 + padded_length name.now)) }
        ensures fits { IfSome result (λ more. size_fits_in self (entries + 1) more ≡ true) }
        ensures none { IfNone result (size_fits_in self (entries + 1) (bytes + (24 + padded_length name.now)) ≡ false) }
    {
        let length = name.len() as u64;
        if length > MAX_PAGE {
            return None;
        }
        let more = bytes + (ENTRY_OVERHEAD + (length + 3) / 4 * 4);
        if self.fits(entries + 1, more) {
            Some(more)
        } else {
            None
        }
    }
}
