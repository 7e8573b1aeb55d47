//! What there is to say of a disk and of a cloud, whichever of the two a device is.

ghost use Rattle.std.specs.Prelude.{◌≡◌, ◌≤◌, ℕ, List, length, Option};
ghost use Rattle.sky_outside.specs.CloudMap.{CloudMap, StandingPut};
ghost use Rattle.sky_outside.specs.Told.{WhereTold};

/// What there is to say of a journal's disk and of the cloud beside it. A disk alone has an empty
/// cloud beside it, and a cloud alone an empty disk.
///
/// Each meaning is told or not. What a read gives, what is held and the put that stands are `None`
/// where they aren't told. What a crash may leave is a set, which is empty where it isn't told: each
/// clause speaks of all that a crash may leave, and asks nothing of a device that tells nothing. A
/// reader who relies on such a clause takes as a premise that the device tells crashes
/// (`TellsCrashes`); it does so then after each call too.
pub trait Storage {
    /// How often the disk has failed, which never falls.
    ghost disk_faults: { Self → ℕ };

    /// How often the cloud has failed, which never falls.
    ghost cloud_faults: { Self → ℕ };

    /// The disk's number of bytes, which never changes.
    ghost bytes_of: { Self → ℕ };

    /// The disk's bytes as a read gives them, where it tells them.
    ghost image: { Self → Option (List ℕ) };

    /// The images that a crash now may leave. A disk that doesn't tell has none.
    ghost may_leave: { Self → List ℕ → Type 0 };

    /// The moment, as a number that never falls. A crash comes within a call or between two.
    ghost moment: { Self → ℕ };

    /// What a crash at some moment since that one may have left, until now: an image, and the objects
    /// that the cloud then held. A disk that doesn't tell has none.
    ghost left_since: { Self → ℕ → List ℕ → CloudMap → Type 0 };

    /// The objects that the cloud holds, where it tells them.
    ghost objects: { Self → Option CloudMap };

    /// The put that stands, if one does, where the cloud tells it.
    ghost standing: { Self → Option (Option StandingPut) };

    /// What a crash now may leave counts among what it may leave since an earlier moment.
    ghost counts_now: { (s : Self) (t : ℕ) (left : List ℕ) (held : CloudMap) → t ≤ moment s
        → may_leave s left → WhereTold (objects s) (λ told. held ≡ told) → left_since s t left held };

    /// Since now it may leave nothing else.
    ghost only_now: { (s : Self) (left : List ℕ) (held : CloudMap) → left_since s (moment s) left held
        → may_leave s left × WhereTold (objects s) (λ told. held ≡ told) };

    /// Where it tells what a crash may leave, the disk as it reads is one of these images.
    ghost leaves_what_is_read: { (s : Self) (left : List ℕ) → may_leave s left → WhereTold (image s) (may_leave s) };

    /// What a read gives has the disk's size.
    ghost has_size: { (s : Self) → WhereTold (image s) (λ read. length read ≡ bytes_of s) };

    /// So has what a crash may leave.
    ghost leaves_its_size: { (s : Self) (left : List ℕ) → may_leave s left → length left ≡ bytes_of s };
}
