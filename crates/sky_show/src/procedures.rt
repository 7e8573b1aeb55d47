//! The names of procedures.

ghost use Rattle.std.specs.Prelude.{◌≡◌, slice_get};
ghost use Rattle.std.specs.Option.{option_map};
ghost use Rattle.sky_show.specs.Names.{nfs_procedures, mount_procedures};

/// The name of a procedure of NFS version 3, by its number (RFC 1813 section 3).
pub fn nfs_procedure(number: u32) -> Option<&'static str>
    ensures { option_map (λ name. name.now) result ≡ slice_get nfs_procedures number }
{
    match number {
        0 => Some("NULL"),
        1 => Some("GETATTR"),
        2 => Some("SETATTR"),
        3 => Some("LOOKUP"),
        4 => Some("ACCESS"),
        5 => Some("READLINK"),
        6 => Some("READ"),
        7 => Some("WRITE"),
        8 => Some("CREATE"),
        9 => Some("MKDIR"),
        10 => Some("SYMLINK"),
        11 => Some("MKNOD"),
        12 => Some("REMOVE"),
        13 => Some("RMDIR"),
        14 => Some("RENAME"),
        15 => Some("LINK"),
        16 => Some("READDIR"),
        17 => Some("READDIRPLUS"),
        18 => Some("FSSTAT"),
        19 => Some("FSINFO"),
        20 => Some("PATHCONF"),
        21 => Some("COMMIT"),
        _ => None,
    }
}

/// The name of a procedure of MOUNT version 3, by its number (RFC 1813 section 5.2).
pub fn mount_procedure(number: u32) -> Option<&'static str>
    ensures { option_map (λ name. name.now) result ≡ slice_get mount_procedures number }
{
    match number {
        0 => Some("NULL"),
        1 => Some("MNT"),
        2 => Some("DUMP"),
        3 => Some("UMNT"),
        4 => Some("UMNTALL"),
        5 => Some("EXPORT"),
        _ => None,
    }
}
