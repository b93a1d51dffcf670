//! The times of retransmissions (RFC 8489, section 6.2.1), for settings that no agent has.

ghost use Rattle.std.specs.Prelude.{◌≡◌};
ghost use Rattle.is_c.specs.Retransmits.{timing_of, PutsTimeout, PutsDelay};

use crate::codes;
use is_proto::Duration;
use is_stun::stun::StunTiming;

fn timing_of(initial_rto: u64, max_rto: u64, max_retransmits: usize) -> StunTiming
    ensures { result ≡ timing_of initial_rto max_rto max_retransmits }
{
    let mut timing = StunTiming::default();
    timing.initial_rto = Duration(initial_rto);
    timing.max_rto = Duration(max_rto);
    timing.max_retransmits = max_retransmits;
    timing
}

/// Writes how long the checks of a pair go on without a response, in nanoseconds: `ice_timeout` of an agent with these settings. Fails
/// with `BAD_LIMIT` if the limit on retransmits is 0.
#[unsafe(no_mangle)]
pub extern "C" fn is_ice_retransmit_timeout(
    initial_rto: u64,
    max_rto: u64,
    max_retransmits: usize,
    timeout: &mut u64,
) -> i32
    ensures { PutsTimeout (timing_of initial_rto max_rto max_retransmits) timeout.old result timeout.new }
{
    if max_retransmits == 0 {
        return codes::BAD_LIMIT;
    }
    *timeout = timing_of(initial_rto, max_rto, max_retransmits).timeout().0;
    codes::OK
}

/// Writes how long an agent with these settings waits after the last of so many checks before the next one, in nanoseconds: 0 if none
/// was sent.
#[unsafe(no_mangle)]
pub extern "C" fn is_ice_retransmit_delay(
    initial_rto: u64,
    max_rto: u64,
    max_retransmits: usize,
    sent: usize,
    delay: &mut u64,
) -> i32
    ensures { PutsDelay (timing_of initial_rto max_rto max_retransmits) sent result delay.new }
{
    let timing = timing_of(initial_rto, max_rto, max_retransmits);
    *delay = timing.stun_resend_delay(sent).0;
    codes::OK
}
