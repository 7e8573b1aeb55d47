//! Reading and writing whole pieces, in as many calls as it takes.

ghost use Rattle.std.specs.Prelude.{◌≡◌, [], OnOk, OnErr, IsErr, IsErrOf};
ghost use Rattle.sky_outside.specs.Count.{Counts};
ghost use Rattle.sky_outside.specs.Told.{WhereTold, Had, HadPart, Given, GivenPart};
ghost use Rattle.sky_outside.specs.declared.whole.FillFault.TheVariants.{Broken};

use crate::stream::{Failed, Sink, Source};

/// Why a buffer could not be filled.
#[derive(Clone, Copy)]
pub enum FillFault {
    /// The source ended before the buffer was full.
    Early,
    /// A read failed.
    Broken,
}

impl From<Failed> for FillFault {
    ghost from_gives = { λ _ e. e ≡ Broken };

    fn from(_: Failed) -> FillFault {
        FillFault::Broken
    }
}

/// Fills the whole buffer from a source, in as many reads as it takes. Where it answers a fault, the
/// buffer begins with what was taken until then. Once a read has failed the answer is
/// `Broken`.
pub fn fill<S: Source>(source: &mut S, buf: &mut [u8]) -> Result<(), FillFault>
    ensures ok { OnOk result (Had (S.left source.old) (S.left source.new) buf.new) }
    ensures partly { OnErr result (HadPart (S.left source.old) (S.left source.new) buf.new) }
    ensures early { IsErrOf result FillFault.Early → WhereTold (S.left source.new) (λ rest. rest ≡ []) }
    ensures cause { Counts (S.faults source.old) (S.faults source.new) (IsErrOf result FillFault.Broken) }
{
    let mut at = 0;
    while at < buf.len() {
        let taken = source.read(&mut buf[at..])?;
        if taken == 0 {
            return Err(FillFault::Early);
        }
        at += taken;
    }
    Ok(())
}

/// Gives a sink the whole piece, in as many writes as it takes. Where it fails, the sink was given a
/// prefix of the piece. Once a write has failed the answer is
/// `Failed`.
pub fn write_all<K: Sink>(sink: &mut K, bytes: &[u8]) -> Result<(), Failed>
    ensures ok { OnOk result (Given (K.written sink.old) (K.written sink.new) bytes.now) }
    ensures partly { OnErr result (GivenPart (K.written sink.old) (K.written sink.new) bytes.now) }
    ensures cause { Counts (K.faults sink.old) (K.faults sink.new) (IsErr result) }
{
    let mut at = 0;
    while at < bytes.len() {
        at += sink.write(&bytes[at..])?;
    }
    Ok(())
}
