//! A script line for each setting of an agent, and lines after which nothing is polled.

use crate::tests::playing::ends;
use std::alloc::{AllocError, Global};
use std::test::Fail;

/// A line, and what it changes in the script below.
struct Setting {
    line: &'static str,
    /// What is printed of it.
    result: &'static str,
    /// The first check that the agent sends.
    check: &'static str,
    creds: &'static str,
    /// The next timeout.
    timeout: &'static str,
}

/// Makes the agent, and sets the RTO that says when its second check is due with `Original`.
const AGENT: &str = r#"{"call":"agent","ufrag":"AAAA","pass":"PPPP","tie":1,"polls":false}
{"call":"rto","number":250000000,"polls":false}"#;

/// Makes a pair and begins its checks.
const SESSION: &str = r#"{"call":"remote","ufrag":"BBBB","pass":"QQQQ","polls":false}
{"call":"host","addr":"10.0.0.1:1000","proto":"udp","polls":false}
{"call":"candidate","text":"candidate:1 1 udp 2130706175 10.0.0.2 2000 typ host","polls":false}
{"call":"timeout","now":0}
"#;

/// What is printed of these lines, until the first check.
const SESSION_PRINTED: &str = "A remote ok\nA host added\nA candidate ok\nA timeout ok";

/// The checks were written by another program, from RFC 8445, section 7.2.2, and RFC 8489.
static SETTINGS: [Setting; 7] = [
    Setting {
        line: r#"{"call":"tie","number":258,"polls":false}"#,
        result: "A tie ok",
        check: "000100442112a44200000000010000000200000000060009424242423a41414141000000802900080000000000000102002400046efffeff000800147b30796daceade793a9d2829e1a3ddf7206f5a20802800046cbf645e",
        creds: "AAAA PPPP",
        timeout: "250000000",
    },
    Setting {
        line: r#"{"call":"local","ufrag":"CCCC","pass":"RRRR","polls":false}"#,
        result: "A local ok",
        check: "000100442112a44200000000010000000200000000060009424242423a43434343000000802900080000000000000001002400046efffeff0008001403101307e2245398ad6c4a57d27af114b823c99a80280004362ece3c",
        creds: "CCCC RRRR",
        timeout: "250000000",
    },
    Setting {
        line: r#"{"call":"preference","number":258,"polls":false}"#,
        result: "A preference ok",
        check: "000100442112a44200000000010000000200000000060009424242423a41414141000000802900080000000000000001002400046e0102ff0008001425f9de093ba0567df322956403f96c28c45b0bb580280004a2982db0",
        creds: "AAAA PPPP",
        timeout: "250000000",
    },
    Setting {
        line: r#"{"call":"mtu","target":588,"warn":1280,"polls":false}"#,
        result: "A mtu ok",
        check: "000100442112a44200000000010000000200000000060009424242423a41414141000000802900080000000000000001002400046efffeff00080014575e3256ddc75e40fb5a5d995df884a45ae272a380280004c3c4bacc",
        creds: "AAAA PPPP",
        timeout: "250000000",
    },
    Setting {
        line: r#"{"call":"mtu","target":587,"warn":1280,"polls":false}"#,
        result: "A mtu refused MtuTooSmall",
        check: "000100442112a44200000000010000000200000000060009424242423a41414141000000802900080000000000000001002400046efffeff00080014575e3256ddc75e40fb5a5d995df884a45ae272a380280004c3c4bacc",
        creds: "AAAA PPPP",
        timeout: "250000000",
    },
    Setting {
        line: r#"{"call":"profile","name":"original","polls":false}"#,
        result: "A profile ok",
        check: "000100442112a44200000000010000000200000000060009424242423a41414141000000802900080000000000000001002400046efffeff00080014575e3256ddc75e40fb5a5d995df884a45ae272a380280004c3c4bacc",
        creds: "AAAA PPPP",
        timeout: "250000000",
    },
    Setting {
        line: r#"{"call":"profile","name":"modern","polls":false}"#,
        result: "A profile ok",
        check: "000100442112a44200000000010000000200000000060009424242423a41414141000000802900080000000000000001002400046efffeff00080014575e3256ddc75e40fb5a5d995df884a45ae272a380280004c3c4bacc",
        creds: "AAAA PPPP",
        timeout: "100000000",
    },
];

/// Whether the script prints what the setting says.
fn has_effect(alloc: Global, setting: &Setting) -> Result<bool, AllocError> {
    let Setting {
        line,
        result,
        check,
        creds,
        timeout,
    } = setting;
    let script = format!(in alloc; "{AGENT}\n{line}\n{SESSION}")?;
    let path = "udp 10.0.0.1:1000 10.0.0.2:2000";
    let events = "A event state Checking";
    let printed = format!(in alloc;
        "A agent ok\nA rto ok\n{result}\n{SESSION_PRINTED}\nA send 0 {path} {check}\nA event restart {creds}\n{events}\nA wake {timeout}\n"
    )?;
    Ok(ends(alloc, script.as_bytes(), 0, printed.as_str(), ""))
}

#[test]
fn each_setting_has_its_line(rt: HostRuntime) -> Result<(), Fail> {
    for setting in &SETTINGS {
        assert!(&rt; has_effect(rt.alloc(), setting)?, "{}", setting.line);
    }
    Ok(())
}

/// Scripts, and what they print.
static SCRIPTS: [(&str, &str); 5] = [
    // Two responses and two events wait.
    (
        r#"{"call":"agent","ufrag":"p9KA","pass":"xJcE9AQAR7kczUDVOXRUCl","tie":1,"polls":false}
{"call":"remote","ufrag":"SQAt","pass":"x","polls":false}
{"call":"host","addr":"10.0.0.1:1000","proto":"udp","polls":false}
{"call":"packet","now":0,"proto":"udp","from":"10.0.0.2:2000","to":"10.0.0.1:1000","hex":"000100502112a4426a756331357578556e6747630006000970394b413a53514174000000c05700040001000a802a00086eeec6e97d18395c00250000002400046e7f1eff000800145d0425a0207ab1e054102299aaf9839ca076c6d580280004360e219f","polls":false}
{"call":"packet","now":0,"proto":"udp","from":"10.0.0.2:2001","to":"10.0.0.1:1000","hex":"000100502112a4426a756331357578556e6747630006000970394b413a53514174000000c05700040001000a802a00086eeec6e97d18395c00250000002400046e7f1eff000800145d0425a0207ab1e054102299aaf9839ca076c6d580280004360e219f","polls":false}
{"call":"poll","what":"transmit"}
{"call":"poll","what":"transmit"}
{"call":"poll","what":"transmit"}
{"call":"poll","what":"event"}
{"call":"poll","what":"event"}
{"call":"poll","what":"event"}
{"call":"poll","what":"timeout"}"#,
        "A agent ok\n\
        A remote ok\n\
        A host added\n\
        A packet true\n\
        A packet true\n\
        A poll ok\n\
        A send 0 udp 10.0.0.1:1000 10.0.0.2:2000 0101002c2112a4426a756331357578556e67476300200008000126c22b12a440000800144465f0405413b525dd2d5730e3e8c803daecef75802800044a6e4696\n\
        A poll ok\n\
        A send 1 udp 10.0.0.1:1000 10.0.0.2:2001 0101002c2112a4426a756331357578556e67476300200008000126c32b12a44000080014b763e07b396cc347448efde9f7c02a094cbe934080280004abab3530\n\
        A poll none\n\
        A poll ok\n\
        A event discovered udp 10.0.0.2:2000\n\
        A poll ok\n\
        A event discovered udp 10.0.0.2:2001\n\
        A poll none\n\
        A poll none\n",
    ),
    // The next line that polls prints what waits.
    (
        r#"{"call":"agent","ufrag":"p9KA","pass":"xJcE9AQAR7kczUDVOXRUCl","tie":1,"polls":false}
{"call":"remote","ufrag":"SQAt","pass":"x","polls":false}
{"call":"host","addr":"10.0.0.1:1000","proto":"udp","polls":false}
{"call":"packet","now":0,"proto":"udp","from":"10.0.0.2:2000","to":"10.0.0.1:1000","hex":"000100502112a4426a756331357578556e6747630006000970394b413a53514174000000c05700040001000a802a00086eeec6e97d18395c00250000002400046e7f1eff000800145d0425a0207ab1e054102299aaf9839ca076c6d580280004360e219f","polls":false}
{"call":"packet","now":0,"proto":"udp","from":"10.0.0.2:2001","to":"10.0.0.1:1000","hex":"000100502112a4426a756331357578556e6747630006000970394b413a53514174000000c05700040001000a802a00086eeec6e97d18395c00250000002400046e7f1eff000800145d0425a0207ab1e054102299aaf9839ca076c6d580280004360e219f","polls":false}
{"call":"pairs","number":3}"#,
        "A agent ok\n\
        A remote ok\n\
        A host added\n\
        A packet true\n\
        A packet true\n\
        A pairs ok\n\
        A send 0 udp 10.0.0.1:1000 10.0.0.2:2000 0101002c2112a4426a756331357578556e67476300200008000126c22b12a440000800144465f0405413b525dd2d5730e3e8c803daecef75802800044a6e4696\n\
        A send 1 udp 10.0.0.1:1000 10.0.0.2:2001 0101002c2112a4426a756331357578556e67476300200008000126c32b12a44000080014b763e07b396cc347448efde9f7c02a094cbe934080280004abab3530\n\
        A event discovered udp 10.0.0.2:2000\n\
        A event discovered udp 10.0.0.2:2001\n\
        A wake none\n",
    ),
    // At the limit an unknown sender gets no response; without one it does.
    (
        r#"{"call":"agent","ufrag":"p9KA","pass":"xJcE9AQAR7kczUDVOXRUCl","tie":1,"polls":false}
{"call":"remote","ufrag":"SQAt","pass":"x","polls":false}
{"call":"host","addr":"10.0.0.1:1000","proto":"udp","polls":false}
{"call":"discovered","number":1,"polls":false}
{"call":"packet","now":0,"proto":"udp","from":"10.0.0.2:2000","to":"10.0.0.1:1000","hex":"000100502112a4426a756331357578556e6747630006000970394b413a53514174000000c05700040001000a802a00086eeec6e97d18395c00250000002400046e7f1eff000800145d0425a0207ab1e054102299aaf9839ca076c6d580280004360e219f","polls":false}
{"call":"packet","now":0,"proto":"udp","from":"10.0.0.2:2001","to":"10.0.0.1:1000","hex":"000100502112a4426a756331357578556e6747630006000970394b413a53514174000000c05700040001000a802a00086eeec6e97d18395c00250000002400046e7f1eff000800145d0425a0207ab1e054102299aaf9839ca076c6d580280004360e219f","polls":false}
{"call":"poll","what":"transmit"}
{"call":"poll","what":"transmit"}
{"call":"discovered","number":null,"polls":false}
{"call":"packet","now":0,"proto":"udp","from":"10.0.0.2:2001","to":"10.0.0.1:1000","hex":"000100502112a4426a756331357578556e6747630006000970394b413a53514174000000c05700040001000a802a00086eeec6e97d18395c00250000002400046e7f1eff000800145d0425a0207ab1e054102299aaf9839ca076c6d580280004360e219f","polls":false}
{"call":"poll","what":"transmit"}"#,
        "A agent ok\n\
        A remote ok\n\
        A host added\n\
        A discovered ok\n\
        A packet true\n\
        A packet true\n\
        A poll ok\n\
        A send 0 udp 10.0.0.1:1000 10.0.0.2:2000 0101002c2112a4426a756331357578556e67476300200008000126c22b12a440000800144465f0405413b525dd2d5730e3e8c803daecef75802800044a6e4696\n\
        A poll none\n\
        A discovered ok\n\
        A packet true\n\
        A poll ok\n\
        A send 1 udp 10.0.0.1:1000 10.0.0.2:2001 0101002c2112a4426a756331357578556e67476300200008000126c32b12a44000080014b763e07b396cc347448efde9f7c02a094cbe934080280004abab3530\n",
    ),
    // There is no pair number left.
    (
        r#"{"call":"agent","ufrag":"AAAA","pass":"PPPP","tie":1,"polls":false}
{"call":"skip","number":18446744073709551615,"polls":false}
{"call":"host","addr":"10.0.0.1:1000","proto":"udp","polls":false}
{"call":"candidate","text":"candidate:1 1 udp 2130706175 10.0.0.2 2000 typ host","polls":false}"#,
        "A agent ok\n\
        A skip ok\n\
        A host added\n\
        A candidate refused PairIdsExhausted\n",
    ),
    // Ta between the checks of two pairs.
    (
        r#"{"call":"agent","ufrag":"AAAA","pass":"PPPP","tie":1,"polls":false}
{"call":"advance","number":70000000,"polls":false}
{"call":"remote","ufrag":"BBBB","pass":"QQQQ","polls":false}
{"call":"host","addr":"10.0.0.1:1000","proto":"udp","polls":false}
{"call":"candidate","text":"candidate:1 1 udp 2130706175 10.0.0.2 2000 typ host","polls":false}
{"call":"candidate","text":"candidate:1 1 udp 2130705663 10.0.0.3 2000 typ host","polls":false}
{"call":"timeout","now":0,"polls":false}
{"call":"poll","what":"transmit"}
{"call":"poll","what":"timeout"}"#,
        "A agent ok\n\
        A advance ok\n\
        A remote ok\n\
        A host added\n\
        A candidate ok\n\
        A candidate ok\n\
        A timeout ok\n\
        A poll ok\n\
        A send 0 udp 10.0.0.1:1000 10.0.0.2:2000 000100442112a44200000000010000000200000000060009424242423a41414141000000802900080000000000000001002400046efffeff00080014575e3256ddc75e40fb5a5d995df884a45ae272a380280004c3c4bacc\n\
        A poll ok\n\
        A wake 70000000\n",
    ),
];

#[test]
fn scripts_print(rt: HostRuntime) {
    for (script, printed) in &SCRIPTS {
        assert!(&rt;
            ends(rt.alloc(), script.as_bytes(), 0, printed, ""),
            "{script}"
        );
    }
}
