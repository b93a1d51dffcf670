//! The profile and the consent that a line sets.
use crate::fault::Stop;
use crate::fields::Fields;
use crate::table::{LASTS, NAME, STRICT};
use is::{ConsentSetting, Duration, Profile};

pub fn profile_of(fields: Fields<'_>) -> Result<Profile, Stop> {
    match fields.line(NAME)? {
        "original" => Ok(Profile::Original),
        "modern" => Ok(Profile::Modern),
        _ => Err(fields.bad(NAME)),
    }
}

/// Without a timeout, consent lasts by the timing.
pub fn consent_of(fields: Fields<'_>) -> Result<ConsentSetting, Stop> {
    let timeout = match fields.number_or_null(LASTS)? {
        Some(nanoseconds) => Some(Duration(nanoseconds)),
        None => None,
    };
    Ok(ConsentSetting {
        timeout,
        strict: fields.flag(STRICT)?,
    })
}
