//! Local preferences.

use is_candidate::{
    Candidate, FnPreference, LocalPreference, PreferenceFunction, default_local_preference,
};
use is_proto::{IceError, Protocol};
use std::test::Fail;

/// More than the greatest preference allowed.
#[derive(Drop)]
struct Seventy;

impl PreferenceFunction for Seventy {
    ghost use Rattle.std.specs.Prelude.{◌≡◌};

    ghost gives = { λ _ _ _ r. r ≡ 70000 };

    fn call(&self, _c: &Candidate, _same_kind: usize) -> u32 {
        70000
    }
}

#[test]
fn a_function_is_boxed_and_cut(rt: HostRuntime) -> Result<(), Fail> {
    let host = Candidate::host(rt.alloc(), "1.2.3.4:9876".parse()?, Protocol::Udp)?;
    let preference: Box<dyn LocalPreference> = Box::new(rt.alloc(), FnPreference::new(Seventy))?;
    assert!(rt; preference.calculate(&host, 1) == 65535);
    Ok(())
}

/// Whether the default preference of the candidate after so many earlier ones is as each row says.
fn are_preferred(candidate: &Candidate, rows: &[(usize, u32)]) -> bool {
    rows.iter().all(|(before, preference)| default_local_preference(candidate, *before)
        == *preference)
}

#[test]
fn ipv4_hosts_have_even_preferences(rt: HostRuntime) -> Result<(), Fail> {
    let made = Candidate::host(rt.alloc(), "1.2.3.4:9876".parse()?, Protocol::Udp);
    assert!(rt; is_preferred(made, &[(0, 65534), (1, 65532), (2, 65530), (40000, 0)]));
    Ok(())
}

#[test]
fn ipv6_hosts_have_odd_preferences(rt: HostRuntime) -> Result<(), Fail> {
    let made = Candidate::host(rt.alloc(), "[2001:db8::1]:9876".parse()?, Protocol::Udp);
    assert!(rt; is_preferred(made, &[(0, 65535), (1, 65533), (2, 65531)]));
    Ok(())
}

/// Whether the preferences of the candidate, if it was made, are as the rows say.
fn is_preferred(made: Result<Candidate, IceError>, rows: &[(usize, u32)]) -> bool {
    match made {
        Ok(candidate) => are_preferred(&candidate, rows),
        Err(_) => false,
    }
}

#[test]
fn relays_across_ip_versions_come_last(rt: HostRuntime) -> Result<(), Fail> {
    let (v4, v6) = ("1.2.3.4:9876".parse()?, "[2001:db8::1]:9876".parse()?);
    let made = Candidate::relayed(rt.alloc(), v4, v6, Protocol::Udp);
    assert!(rt; is_preferred(made, &[(0, 15382), (1, 15380)]));
    let made = Candidate::relayed(rt.alloc(), v6, v4, Protocol::Udp);
    assert!(rt; is_preferred(made, &[(0, 15383), (1, 15381)]));
    Ok(())
}
