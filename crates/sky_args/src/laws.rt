//! What holds of arguments as such. A call of these functions does nothing: each of their clauses is
//! a law that is proved.

ghost use Rattle.std.specs.Prelude.{◌≡◌, ℕ, ◌<◌, ◌↔◌, List, [], ◌++◌, length, Ok, Err};
ghost use Rattle.sky_nfs.specs.Calls.{procedure_of};
ghost use Rattle.sky_nfs.specs.declared.call.Call.{Call};
ghost use Rattle.sky_xdr.specs.Encoding.{AreBytes};
ghost use Rattle.sky_args.specs.Args.{IsArgs, args_bytes};
ghost use Rattle.sky_args.specs.Reading.{NoSuchProc, args_at};
ghost use Rattle.sky_args.specs.Sizes.{FitsTypes};

/// The arguments of a procedure are read in one way.
pub fn arguments_have_one_reading()
    // No bytes are the arguments of two calls of one procedure.
    ensures one_call { (bytes : List ℕ) (a b : Call) → IsArgs bytes a → IsArgs bytes b
        → procedure_of a ≡ procedure_of b → a ≡ b }
    // No arguments are a proper prefix of others of the same procedure.
    ensures no_prefix { (bytes more : List ℕ) (a b : Call) → IsArgs bytes a → IsArgs (bytes ++ more) b
        → procedure_of a ≡ procedure_of b → more ≡ [] }
{}

/// What is written is among the arguments of the call, and is read again as the call.
pub fn written_arguments_are_read()
    ensures found { (call : Call) → FitsTypes call → IsArgs (args_bytes call) call }
    ensures read_again { (call : Call) → FitsTypes call
        → args_at (procedure_of call) (args_bytes call) ≡ Ok call }
{}

/// What bytes that are the arguments of a call say of it.
pub fn accepted_arguments_are_written()
    ensures fits { (bytes : List ℕ) (call : Call) → IsArgs bytes call → FitsTypes call }
    // Its written arguments are as long as any that are accepted.
    ensures as_long { (bytes : List ℕ) (call : Call) → IsArgs bytes call
        → length (args_bytes call) ≡ length bytes }
{}

/// `args_at` decides which call of a procedure has given bytes as its arguments.
pub fn args_at_decides()
    ensures accepted { (bytes : List ℕ) (call : Call) → IsArgs bytes call
        → args_at (procedure_of call) bytes ≡ Ok call }
    ensures found { (procedure : ℕ) (bytes : List ℕ) (call : Call) → AreBytes bytes
        → args_at procedure bytes ≡ Ok call → (procedure_of call ≡ procedure) × IsArgs bytes call }
    ensures no_such_proc { (procedure : ℕ) (bytes : List ℕ)
        → (args_at procedure bytes ≡ Err NoSuchProc) ↔ (21 < procedure) }
{}
