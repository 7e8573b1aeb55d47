//! What holds of arguments and results as such. A call of these functions does nothing: each of
//! their clauses is a law that is proved.

ghost use Rattle.std.specs.Prelude.{◌≡◌, ℕ, ◌≤◌, ◌<◌, ◌^◌, List, [], ◌++◌, length, Option, Ok, IfSome};
ghost use Rattle.sky_xdr.specs.Encoding.{AreBytes};
ghost use Rattle.sky_mount.specs.Mount.{MountCall, procedure_of, IsArgs, HasShortPath, args_bytes, mount_results, results};
ghost use Rattle.sky_mount.specs.Reading.{args_at};

/// The arguments of a call are read as that call, and what is read are its arguments: no bytes are those of two calls of
/// one procedure. Each call whose path is short enough has arguments as they are written.
pub fn arguments_are_read()
    ensures read { (bytes : List ℕ) (call : MountCall) → IsArgs bytes call →
        args_at (procedure_of call) bytes ≡ Ok call }
    ensures only { (procedure : ℕ) (bytes : List ℕ) (call : MountCall) → AreBytes bytes →
        args_at procedure bytes ≡ Ok call → (procedure_of call ≡ procedure) × IsArgs bytes call }
    ensures written { (call : MountCall) → HasShortPath call → IsArgs (args_bytes call) call }
    // No arguments go on as others of the same procedure.
    ensures whole { (bytes more : List ℕ) (call other : MountCall) → procedure_of call ≡ procedure_of other →
        IsArgs bytes call → IsArgs (bytes ++ more) other → more ≡ [] }
{}

/// The results of MNT tell the handle that is mounted, and no results go on as others of the same procedure.
pub fn results_are_told_apart()
    ensures mounts { (handle other : Option (List ℕ)) (x y : List ℕ) →
        IfSome handle (λ h. length h < 2 ^ 32) → IfSome other (λ h. length h < 2 ^ 32) →
        mount_results handle ++ x ≡ mount_results other ++ y → (handle ≡ other) × (x ≡ y) }
    ensures results { (volume another : ℕ) (call other : MountCall) (x y : List ℕ) →
        procedure_of call ≡ procedure_of other → results volume call ++ x ≡ results another other ++ y →
        (results volume call ≡ results another other) × (x ≡ y) }
{}
