//! What is true of every recorded session: functions with nothing to do, whose clauses are the laws.

ghost use Rattle.std.specs.Prelude.{◌≡◌, ◌+◌, ◌≤◌, ℕ, Bool, true, false, List, [], ◌∷◌, ◌++◌, nat_lt};
ghost use Rattle.std.specs.List.{AllByRecursion};
ghost use Rattle.sky_nfs.specs.History.{IsLegalHistory, history_length};
ghost use Rattle.sky_base.specs.declared.moment.Moment.{Moment};
ghost use Rattle.sky_recover.specs.Opening.{Found};
ghost use Rattle.sky_script.specs.Frame.{InFrame, Begin, Bytes, Close, SetMoment, Stat, Restart, RestartWithoutJournal, OutFrame, Opened};
ghost use Rattle.sky_xdr.specs.Encoding.{AreBytes};
ghost use Rattle.sky_world.specs.Bytes.{HasByteStreams, CarriesBytes};
ghost use Rattle.sky_world.specs.Laws.{GoesOnFrom, IsForeseen, IsMarked, NoneOutOfMemory};
ghost use Rattle.sky_world.specs.Meaning.{State, Supply, Ample, Scarce, cut_to, start, Step, Steps, IsStep};
ghost use Rattle.sky_world.specs.World.{IsRestart};

/// Each frame but the end has a step in each state, and only one where there is memory for every call: the answers and the
/// next state are determined, but for a restart of a site that does not tell what it has. Such a step is among those that may come where
/// memory is scarce, and it is any of those whose answers do not tell a want of memory.
pub fn each_frame_has_one_step()
    ensures some { (memory : Supply) (old : State) (frame : InFrame) → HasByteStreams old → CarriesBytes frame → IsForeseen old.told frame → IsStep frame
        → (outs : List OutFrame) × (new : State) × HasByteStreams new × Step memory old frame outs new }
    ensures one { (old : State) (frame : InFrame) (outs others : List OutFrame) (new other : State) → IsForeseen old.told frame
        → Step Ample old frame outs new → Step Ample old frame others other → (outs ≡ others) × (new ≡ other) }
    ensures may { (old new : State) (frame : InFrame) (outs : List OutFrame) → Step Ample old frame outs new → Step Scarce old frame outs new }
    ensures told { (old new : State) (frame : InFrame) (outs : List OutFrame)
        → Step Scarce old frame outs new → NoneOutOfMemory outs → Step Ample old frame outs new }
{}

/// From an opening on frames have steps, whichever they are, and one way of them where there is memory for every call. Two
/// recordings of the same frames whose answers do not tell a want of memory have the same answers. For sites that do not tell what they
/// have, this is said of recordings without restarts.
pub fn each_recording_has_one_meaning()
    ensures some { (told : Bool) (found : Found) (memory : Supply) (frames : List InFrame)
        → AllByRecursion (λ frame. IsStep frame × CarriesBytes frame × IsForeseen told frame) frames
        → (outs : List OutFrame) × (last : State) × Steps memory (start told found) frames outs last }
    ensures one { (told : Bool) (found : Found) (frames : List InFrame) (outs others : List OutFrame) (last other : State) → AllByRecursion (IsForeseen told) frames
        → Steps Ample (start told found) frames outs last → Steps Ample (start told found) frames others other → (outs ≡ others) × (last ≡ other) }
    ensures told { (told : Bool) (found : Found) (frames : List InFrame) (outs others : List OutFrame) (last other : State) → AllByRecursion (IsForeseen told) frames
        → Steps Scarce (start told found) frames outs last → NoneOutOfMemory outs → Steps Scarce (start told found) frames others other → NoneOutOfMemory others
        → (outs ≡ others) × (last ≡ other) }
{}

/// How a session's bytes are cut into frames does not matter: what two frames give, one after the other, one frame with the
/// bytes of both gives.
pub fn cuts_do_not_matter()
    ensures { (memory : Supply) (old mid new : State) (session : ℕ) (first second : List ℕ) (outs further : List OutFrame)
        → HasByteStreams old → AreBytes first → AreBytes second
        → Step memory old (Bytes session first) outs mid → Step memory mid (Bytes session second) further new
        → Step memory old (Bytes session (first ++ second)) (outs ++ further) new }
{}

/// The mark, up to which each crash leaves the changes, lies within the history, and so do the numbers of the changes that are stored and of those that
/// the cloud has for good. The mark does not fall, unless the journal is given up.
pub fn the_mark_does_not_fall()
    ensures begins { (told : Bool) (found : Found) → IsMarked (start told found).kept }
    ensures within { (memory : Supply) (old new : State) (frame : InFrame) (outs : List OutFrame)
        → Step memory old frame outs new → IsMarked old.kept → IsMarked new.kept }
    ensures stays { (memory : Supply) (old new : State) (frame : InFrame) (outs : List OutFrame) → (IsRestart frame → ⊥)
        → Step memory old frame outs new → IsMarked old.kept → old.kept.mark ≤ new.kept.mark }
{}

/// A restart of a site that tells what it has shows how many changes it found: at least those up to the mark and those that the cloud has for good,
/// and no more than there were; without the journal, those that the cloud has for good. The history is cut there, all of it is stable then, and the epoch is the next one.
pub fn a_restart_shows_a_prefix()
    ensures shown { (memory : Supply) (old new : State) (outs : List OutFrame) → old.told ≡ true → IsMarked old.kept → Step memory old Restart outs new
        → (k : ℕ) × (outs ≡ Opened (old.epoch + 1) k (nat_lt old.kept.completed k) ∷ []) × (old.kept.mark ≤ k) × (old.kept.completed ≤ k) × (k ≤ history_length old.kept.history)
        × (new.kept.history ≡ cut_to k old.kept.history) × (history_length new.kept.history ≡ k) × (new.kept.mark ≡ k) × (new.epoch ≡ old.epoch + 1) }
    ensures covered { (memory : Supply) (old new : State) (outs : List OutFrame) → old.told ≡ true → IsMarked old.kept → Step memory old RestartWithoutJournal outs new
        → (outs ≡ Opened (old.epoch + 1) old.kept.completed false ∷ []) × (new.kept.history ≡ cut_to old.kept.completed old.kept.history)
        × (new.kept.mark ≡ old.kept.completed) × (new.epoch ≡ old.epoch + 1) }
{}

/// There is one history: it is legal at the start and after each frame. Each frame but a restart adds its changes behind those of the
/// frames before it, whichever sessions they are of, and only a frame with a session's bytes adds any.
pub fn there_is_one_history()
    ensures legal { (memory : Supply) (old new : State) (frame : InFrame) (outs : List OutFrame)
        → Step memory old frame outs new → IsLegalHistory old.kept.history → IsLegalHistory new.kept.history }
    ensures goes_on { (memory : Supply) (old new : State) (frame : InFrame) (outs : List OutFrame) → (IsRestart frame → ⊥)
        → Step memory old frame outs new → GoesOnFrom old.kept.history new.kept.history }
    ensures begin { (memory : Supply) (old new : State) (session : ℕ) (outs : List OutFrame)
        → Step memory old (Begin session) outs new → new.kept ≡ old.kept }
    ensures close { (memory : Supply) (old new : State) (session : ℕ) (outs : List OutFrame)
        → Step memory old (Close session) outs new → new.kept ≡ old.kept }
    ensures moment { (memory : Supply) (old new : State) (at : Moment) (outs : List OutFrame)
        → Step memory old (SetMoment at) outs new → new.kept ≡ old.kept }
    ensures stat { (memory : Supply) (old new : State) (outs : List OutFrame)
        → Step memory old Stat outs new → new.kept ≡ old.kept }
{}
