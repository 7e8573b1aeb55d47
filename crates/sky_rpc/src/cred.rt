//! Who calls, by the credential of a call.

ghost use Rattle.std.specs.Prelude.{◌≡◌, ◌≤◌, length, IfOk, MatchOption, None, Some};
ghost use Rattle.sky_xdr.specs.Reading.{Gives};
ghost use Rattle.sky_rpc.specs.Reading.{gids_at, auth_sys_at, cred_at};
ghost use Rattle.sky_rpc.specs.Values.{Leaves, auth_of};

use crate::call::OpaqueAuth;
use sky_base::{Cred, Gids};
use sky_xdr::{Reader, XdrFault};

/// The flavor of a credential that does not say who calls.
const AUTH_NONE: u32 = 0;

/// The flavor of a credential that says who calls (`authsys_parms`, RFC 5531 appendix A).
const AUTH_SYS: u32 = 1;

/// The most bytes of a machine's name.
const MAX_MACHINE_NAME_BYTES: u32 = 255;

/// The user, and the group, of a caller that does not say who it is.
const NOBODY: u32 = 65_534;

/// Takes the further groups of a caller: how many, and each (`authsys_parms`, RFC 5531 appendix A). Others that keep who
/// called read them so too.
///
/// `TooLong` where there are more than 16, and `Short` where bytes are missing; some of them may then have been taken.
#[tactic(auto, unfolding(crate::specs::Reading::gids_at))]
pub fn take_gids(reader: &mut Reader<'_>) -> Result<Gids, XdrFault>
    ensures exact { Leaves (λ g. g) result reader.new (gids_at reader.old) }
{
    let count = reader.take_u32()?;
    if count > Gids::MAX as u32 {
        return Err(XdrFault::TooLong);
    }
    let mut gids = Gids::new();
    for _ in 0..count {
        gids.push(reader.take_u32()?);
    }
    Ok(gids)
}

/// Whom the body of an AUTH_SYS credential names.
#[tactic(auto, unfolding(crate::specs::Reading::auth_sys_at))]
fn read_auth_sys(body: &[u8]) -> Result<Cred, XdrFault>
    ensures exact { Gives (λ c. c) result (auth_sys_at body.now) }
{
    let mut reader = Reader::over(body);
    reader.take_u32()?;
    reader.take_opaque(MAX_MACHINE_NAME_BYTES)?;
    let uid = reader.take_u32()?;
    let gid = reader.take_u32()?;
    let gids = take_gids(&mut reader)?;
    reader.end()?;
    Ok(Cred { uid, gid, gids })
}

/// Who calls, where the credential says it.
#[tactic(auto, unfolding(crate::specs::Reading::cred_at))]
pub(crate) fn read_cred(auth: OpaqueAuth<'_>) -> Option<Cred>
    ensures { result ≡ cred_at (auth_of auth.entry) }
{
    match auth.flavor {
        AUTH_NONE => Some(Cred {
            uid: NOBODY,
            gid: NOBODY,
            gids: Gids::new(),
        }),
        AUTH_SYS => read_auth_sys(auth.body).ok(),
        _ => None,
    }
}
