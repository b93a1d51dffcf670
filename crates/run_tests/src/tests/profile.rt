//! The lines `profile` and `consent`, by what the profile `Modern` changes.

use crate::tests::playing::ends;
use std::test::Fail;

/// Scripts, and what they print. The packets were written by another program, from RFC 8445, section 7.2, and RFC 8489.
static SCRIPTS: [(&str, &str); 8] = [
    // The second check is of the server-reflexive candidate.
    (
        r#"{"call":"agent","ufrag":"AAAA","pass":"PPPP","tie":10,"polls":false}
{"call":"profile","name":"modern","polls":false}
{"call":"controlling","flag":true,"polls":false}
{"call":"remote","ufrag":"BBBB","pass":"QQQQ","polls":false}
{"call":"host","addr":"10.0.0.1:1000","proto":"udp","polls":false}
{"call":"candidate","text":"candidate:1 1 udp 2130706175 10.0.0.2 2000 typ host","polls":false}
{"call":"candidate","text":"candidate:1 1 udp 2130705663 10.0.0.3 2000 typ host","polls":false}
{"call":"candidate","text":"candidate:2 1 udp 1686109951 10.0.1.102 2000 typ srflx","polls":false}
{"call":"timeout","now":0,"polls":false}
{"call":"poll","what":"transmit"}
{"call":"timeout","now":50000000,"polls":false}
{"call":"poll","what":"transmit"}"#,
        "A agent ok\n\
        A profile ok\n\
        A controlling ok\n\
        A remote ok\n\
        A host added\n\
        A candidate ok\n\
        A candidate ok\n\
        A candidate ok\n\
        A timeout ok\n\
        A poll ok\n\
        A send 0 udp 10.0.0.1:1000 10.0.0.2:2000 000100442112a44200000000010000000200000000060009424242423a41414141000000802a0008000000000000000a002400046efffeff00080014a9ae12c3be99238a376fd11c8924806feae17bd5802800042ff5a14f\n\
        A timeout ok\n\
        A poll ok\n\
        A send 1 udp 10.0.0.1:1000 10.0.1.102:2000 000100442112a44203000000040000000500000000060009424242423a41414141000000802a0008000000000000000a002400046efffeff000800143572ac93f0d926090fd4b877e3db80ac9931cce68028000498dd966b\n",
    ),
    // The second check is 10 ms after the first one, since there is no path yet; with `Original` Ta counts.
    (
        r#"{"call":"agent","ufrag":"AAAA","pass":"PPPP","tie":10,"polls":false}
{"call":"advance","number":50000000,"polls":false}
{"call":"profile","name":"modern","polls":false}
{"call":"controlling","flag":true,"polls":false}
{"call":"remote","ufrag":"BBBB","pass":"QQQQ","polls":false}
{"call":"host","addr":"10.0.0.1:1000","proto":"udp","polls":false}
{"call":"candidate","text":"candidate:1 1 udp 2130706175 10.0.0.2 2000 typ host","polls":false}
{"call":"candidate","text":"candidate:1 1 udp 2130705663 10.0.0.3 2000 typ host","polls":false}
{"call":"timeout","now":0,"polls":false}
{"call":"poll","what":"transmit"}
{"call":"poll","what":"timeout"}
{"call":"profile","name":"original","polls":false}
{"call":"poll","what":"timeout"}"#,
        "A agent ok\n\
        A advance ok\n\
        A profile ok\n\
        A controlling ok\n\
        A remote ok\n\
        A host added\n\
        A candidate ok\n\
        A candidate ok\n\
        A timeout ok\n\
        A poll ok\n\
        A send 0 udp 10.0.0.1:1000 10.0.0.2:2000 000100442112a44200000000010000000200000000060009424242423a41414141000000802a0008000000000000000a002400046efffeff00080014a9ae12c3be99238a376fd11c8924806feae17bd5802800042ff5a14f\n\
        A poll ok\n\
        A wake 10000000\n\
        A profile ok\n\
        A poll ok\n\
        A wake 50000000\n",
    ),
    // The fourth check is of the selected pair, and not of the one that was never checked.
    (
        r#"{"call":"agent","ufrag":"AAAA","pass":"PPPP","tie":10,"polls":false}
{"call":"profile","name":"modern","polls":false}
{"call":"controlling","flag":true,"polls":false}
{"call":"remote","ufrag":"BBBB","pass":"QQQQ","polls":false}
{"call":"host","addr":"10.0.0.1:1000","proto":"udp","polls":false}
{"call":"candidate","text":"candidate:1 1 udp 2130706175 10.0.0.2 2000 typ host","polls":false}
{"call":"candidate","text":"candidate:1 1 udp 2130705663 10.0.0.3 2000 typ host","polls":false}
{"call":"candidate","text":"candidate:1 1 udp 2130705151 10.0.0.4 2000 typ host","polls":false}
{"call":"timeout","now":0,"polls":false}
{"call":"poll","what":"transmit"}
{"call":"packet","now":10000000,"proto":"udp","from":"10.0.0.2:2000","to":"10.0.0.1:1000","hex":"0101002c2112a44200000000010000000200000000200008000122fa2b12a443000800148e2a07d2834ed24ae8fc5a4747855eff72735578802800047e1acf89","polls":false}
{"call":"timeout","now":50000000,"polls":false}
{"call":"poll","what":"transmit"}
{"call":"timeout","now":1000000000,"polls":false}
{"call":"poll","what":"transmit"}
{"call":"timeout","now":1050000000,"polls":false}
{"call":"poll","what":"transmit"}"#,
        "A agent ok\n\
        A profile ok\n\
        A controlling ok\n\
        A remote ok\n\
        A host added\n\
        A candidate ok\n\
        A candidate ok\n\
        A candidate ok\n\
        A timeout ok\n\
        A poll ok\n\
        A send 0 udp 10.0.0.1:1000 10.0.0.2:2000 000100442112a44200000000010000000200000000060009424242423a41414141000000802a0008000000000000000a002400046efffeff00080014a9ae12c3be99238a376fd11c8924806feae17bd5802800042ff5a14f\n\
        A packet true\n\
        A timeout ok\n\
        A poll ok\n\
        A send 1 udp 10.0.0.1:1000 10.0.0.2:2000 000100482112a44203000000040000000500000000060009424242423a41414141000000802a0008000000000000000a002400046efffeff002500000008001451789473ec25b8845f4739731b23061633c2cb0880280004b24f8512\n\
        A timeout ok\n\
        A poll ok\n\
        A send 2 udp 10.0.0.1:1000 10.0.0.3:2000 000100442112a44206000000070000000800000000060009424242423a41414141000000802a0008000000000000000a002400046efffeff0008001455d5665a5e7b789b4a834a5a157fb0b00222e79a802800041a6cc7ed\n\
        A timeout ok\n\
        A poll ok\n\
        A send 3 udp 10.0.0.1:1000 10.0.0.2:2000 000100482112a442090000000a0000000b00000000060009424242423a41414141000000802a0008000000000000000a002400046efffeff002500000008001476c25cc279cde2003a95336baa8e0832d6399e1580280004758e108e\n",
    ),
    // Consent ends 100 ms after the check that was answered.
    (
        r#"{"call":"agent","ufrag":"AAAA","pass":"PPPP","tie":10,"polls":false}
{"call":"profile","name":"modern","polls":false}
{"call":"consent","timeout":100000000,"strict":true,"polls":false}
{"call":"controlling","flag":true,"polls":false}
{"call":"remote","ufrag":"BBBB","pass":"QQQQ","polls":false}
{"call":"host","addr":"10.0.0.1:1000","proto":"udp","polls":false}
{"call":"candidate","text":"candidate:1 1 udp 2130706175 10.0.0.2 2000 typ host","polls":false}
{"call":"timeout","now":0,"polls":false}
{"call":"poll","what":"transmit"}
{"call":"packet","now":10000000,"proto":"udp","from":"10.0.0.2:2000","to":"10.0.0.1:1000","hex":"0101002c2112a44200000000010000000200000000200008000122fa2b12a443000800148e2a07d2834ed24ae8fc5a4747855eff72735578802800047e1acf89","polls":false}
{"call":"poll","what":"event"}
{"call":"poll","what":"event"}
{"call":"poll","what":"event"}
{"call":"poll","what":"event"}
{"call":"poll","what":"event"}
{"call":"poll","what":"event"}
{"call":"timeout","now":99000000,"polls":false}
{"call":"poll","what":"event"}
{"call":"timeout","now":100000000,"polls":false}
{"call":"poll","what":"event"}"#,
        "A agent ok\n\
        A profile ok\n\
        A consent ok\n\
        A controlling ok\n\
        A remote ok\n\
        A host added\n\
        A candidate ok\n\
        A timeout ok\n\
        A poll ok\n\
        A send 0 udp 10.0.0.1:1000 10.0.0.2:2000 000100442112a44200000000010000000200000000060009424242423a41414141000000802a0008000000000000000a002400046efffeff00080014a9ae12c3be99238a376fd11c8924806feae17bd5802800042ff5a14f\n\
        A packet true\n\
        A poll ok\n\
        A event restart AAAA PPPP\n\
        A poll ok\n\
        A event state Checking\n\
        A poll ok\n\
        A event nominated udp 10.0.0.1:1000 10.0.0.2:2000\n\
        A poll ok\n\
        A event state Completed\n\
        A poll ok\n\
        A event discovered udp 10.0.0.2:2000\n\
        A poll none\n\
        A timeout ok\n\
        A poll none\n\
        A timeout ok\n\
        A poll ok\n\
        A event state Disconnected\n",
    ),
    // A lite agent that keeps its role is not made controlling: it responds to a controlling agent with success, and not with a 487.
    (
        r#"{"call":"agent","ufrag":"p9KA","pass":"xJcE9AQAR7kczUDVOXRUCl","tie":1,"polls":false}
{"call":"profile","name":"modern","polls":false}
{"call":"lite","flag":true,"polls":false}
{"call":"controlling","flag":true,"polls":false}
{"call":"host","addr":"10.0.0.1:1000","proto":"udp","polls":false}
{"call":"remote","ufrag":"SQAt","pass":"x","polls":false}
{"call":"packet","now":0,"proto":"udp","from":"10.0.0.2:2000","to":"10.0.0.1:1000","hex":"000100502112a4426a756331357578556e6747630006000970394b413a53514174000000c05700040001000a802a00086eeec6e97d18395c00250000002400046e7f1eff000800145d0425a0207ab1e054102299aaf9839ca076c6d580280004360e219f","polls":false}
{"call":"poll","what":"transmit"}"#,
        "A agent ok\n\
        A profile ok\n\
        A lite ok\n\
        A controlling ok\n\
        A host added\n\
        A remote ok\n\
        A packet true\n\
        A poll ok\n\
        A send 0 udp 10.0.0.1:1000 10.0.0.2:2000 0101002c2112a4426a756331357578556e67476300200008000126c22b12a440000800144465f0405413b525dd2d5730e3e8c803daecef75802800044a6e4696\n",
    ),
    // A time follows a call that serves an early request.
    (
        r#"{"call":"agent","ufrag":"p9KA","pass":"xJcE9AQAR7kczUDVOXRUCl","tie":1,"polls":false}
{"call":"profile","name":"modern","polls":false}
{"call":"host","addr":"10.0.0.1:1000","proto":"udp","polls":false}
{"call":"packet","now":0,"proto":"udp","from":"10.0.0.2:2000","to":"10.0.0.1:1000","hex":"000100502112a4426a756331357578556e6747630006000970394b413a53514174000000c05700040001000a802a00086eeec6e97d18395c00250000002400046e7f1eff000800145d0425a0207ab1e054102299aaf9839ca076c6d580280004360e219f","polls":false}
{"call":"remote","ufrag":"SQAt","pass":"x","polls":false}
{"call":"timeout","now":0,"polls":false}
{"call":"poll","what":"transmit"}
{"call":"poll","what":"timeout"}"#,
        "A agent ok\n\
        A profile ok\n\
        A host added\n\
        A packet true\n\
        A remote ok\n\
        A timeout ok\n\
        A poll ok\n\
        A send 0 udp 10.0.0.1:1000 10.0.0.2:2000 0101002c2112a4426a756331357578556e67476300200008000126c22b12a440000800144465f0405413b525dd2d5730e3e8c803daecef75802800044a6e4696\n\
        A poll ok\n\
        A wake 10000000\n",
    ),
    // A request makes the pair due at once, which is 10 ms after the last timeout.
    (
        r#"{"call":"agent","ufrag":"AAAA","pass":"PPPP","tie":10,"polls":false}
{"call":"controlling","flag":true,"polls":false}
{"call":"remote","ufrag":"BBBB","pass":"QQQQ","polls":false}
{"call":"host","addr":"10.0.0.1:1000","proto":"udp","polls":false}
{"call":"candidate","text":"candidate:1 1 udp 2130706175 10.0.0.2 2000 typ host","polls":false}
{"call":"timeout","now":0,"polls":false}
{"call":"poll","what":"transmit"}
{"on":"B","call":"agent","ufrag":"BBBB","pass":"QQQQ","tie":5,"polls":false}
{"on":"B","call":"profile","name":"modern","polls":false}
{"on":"B","call":"remote","ufrag":"AAAA","pass":"PPPP","polls":false}
{"on":"B","call":"host","addr":"10.0.0.2:2000","proto":"udp","polls":false}
{"on":"B","call":"candidate","text":"candidate:1 1 udp 2130706175 10.0.0.1 1000 typ host","polls":false}
{"on":"B","call":"timeout","now":0,"polls":false}
{"on":"B","call":"poll","what":"transmit"}
{"on":"B","call":"poll","what":"timeout"}
{"on":"B","call":"deliver","packet":0,"now":10000000,"polls":false}
{"on":"B","call":"poll","what":"transmit"}
{"on":"B","call":"poll","what":"timeout"}"#,
        "A agent ok\n\
        A controlling ok\n\
        A remote ok\n\
        A host added\n\
        A candidate ok\n\
        A timeout ok\n\
        A poll ok\n\
        A send 0 udp 10.0.0.1:1000 10.0.0.2:2000 000100442112a44200000000010000000200000000060009424242423a41414141000000802a0008000000000000000a002400046efffeff00080014a9ae12c3be99238a376fd11c8924806feae17bd5802800042ff5a14f\n\
        B agent ok\n\
        B profile ok\n\
        B remote ok\n\
        B host added\n\
        B candidate ok\n\
        B timeout ok\n\
        B poll ok\n\
        B send 1 udp 10.0.0.2:2000 10.0.0.1:1000 000100442112a44203000000040000000500000000060009414141413a42424242000000802900080000000000000005002400046efffeff00080014232eb19f2a3f8c147765f918c7dbe140a484a1308028000472f9a627\n\
        B poll ok\n\
        B wake 100000000\n\
        B deliver true\n\
        B poll ok\n\
        B send 2 udp 10.0.0.2:2000 10.0.0.1:1000 0101002c2112a44200000000010000000200000000200008000122fa2b12a443000800148e2a07d2834ed24ae8fc5a4747855eff72735578802800047e1acf89\n\
        B poll ok\n\
        B wake 10000000\n",
    ),
    // B selects when the request arrives that nominates.
    (
        r#"{"call":"agent","ufrag":"AAAA","pass":"PPPP","tie":10,"polls":false}
{"call":"controlling","flag":true,"polls":false}
{"call":"remote","ufrag":"BBBB","pass":"QQQQ","polls":false}
{"call":"host","addr":"10.0.0.1:1000","proto":"udp","polls":false}
{"call":"candidate","text":"candidate:1 1 udp 2130706175 10.0.0.2 2000 typ host","polls":false}
{"call":"timeout","now":0,"polls":false}
{"call":"poll","what":"transmit"}
{"on":"B","call":"agent","ufrag":"BBBB","pass":"QQQQ","tie":5,"polls":false}
{"on":"B","call":"profile","name":"modern","polls":false}
{"on":"B","call":"remote","ufrag":"AAAA","pass":"PPPP","polls":false}
{"on":"B","call":"host","addr":"10.0.0.2:2000","proto":"udp","polls":false}
{"on":"B","call":"candidate","text":"candidate:1 1 udp 2130706175 10.0.0.1 1000 typ host","polls":false}
{"on":"B","call":"timeout","now":0,"polls":false}
{"on":"B","call":"poll","what":"transmit"}
{"on":"B","call":"deliver","packet":0,"now":10000000,"polls":false}
{"on":"B","call":"poll","what":"transmit"}
{"call":"deliver","packet":1,"now":10000000,"polls":false}
{"call":"poll","what":"transmit"}
{"call":"deliver","packet":2,"now":20000000,"polls":false}
{"on":"B","call":"deliver","packet":3,"now":20000000,"polls":false}
{"call":"timeout","now":50000000,"polls":false}
{"call":"poll","what":"transmit"}
{"on":"B","call":"poll","what":"event"}
{"on":"B","call":"poll","what":"event"}
{"on":"B","call":"poll","what":"event"}
{"on":"B","call":"poll","what":"event"}
{"on":"B","call":"deliver","packet":4,"now":60000000,"polls":false}
{"on":"B","call":"poll","what":"event"}"#,
        "A agent ok\n\
        A controlling ok\n\
        A remote ok\n\
        A host added\n\
        A candidate ok\n\
        A timeout ok\n\
        A poll ok\n\
        A send 0 udp 10.0.0.1:1000 10.0.0.2:2000 000100442112a44200000000010000000200000000060009424242423a41414141000000802a0008000000000000000a002400046efffeff00080014a9ae12c3be99238a376fd11c8924806feae17bd5802800042ff5a14f\n\
        B agent ok\n\
        B profile ok\n\
        B remote ok\n\
        B host added\n\
        B candidate ok\n\
        B timeout ok\n\
        B poll ok\n\
        B send 1 udp 10.0.0.2:2000 10.0.0.1:1000 000100442112a44203000000040000000500000000060009414141413a42424242000000802900080000000000000005002400046efffeff00080014232eb19f2a3f8c147765f918c7dbe140a484a1308028000472f9a627\n\
        B deliver true\n\
        B poll ok\n\
        B send 2 udp 10.0.0.2:2000 10.0.0.1:1000 0101002c2112a44200000000010000000200000000200008000122fa2b12a443000800148e2a07d2834ed24ae8fc5a4747855eff72735578802800047e1acf89\n\
        A deliver true\n\
        A poll ok\n\
        A send 3 udp 10.0.0.1:1000 10.0.0.2:2000 0101002c2112a44203000000040000000500000000200008000126c22b12a440000800147d04f071d8b1f8dceb04792d2be68d055e4a2a30802800043465e66b\n\
        A deliver true\n\
        B deliver true\n\
        A timeout ok\n\
        A poll ok\n\
        A send 4 udp 10.0.0.1:1000 10.0.0.2:2000 000100482112a44206000000070000000800000000060009424242423a41414141000000802a0008000000000000000a002400046efffeff0025000000080014709f3b96a00794509a69efce833a7a21d5f8104680280004907d2af3\n\
        B poll ok\n\
        B event restart BBBB QQQQ\n\
        B poll ok\n\
        B event state Checking\n\
        B poll ok\n\
        B event discovered udp 10.0.0.1:1000\n\
        B poll none\n\
        B deliver true\n\
        B poll ok\n\
        B event nominated udp 10.0.0.2:2000 10.0.0.1:1000\n",
    ),
];

#[test]
fn the_profile_has_its_effects(rt: HostRuntime) -> Result<(), Fail> {
    for (script, printed) in &SCRIPTS {
        assert!(&rt;
            ends(rt.alloc(), script.as_bytes(), 0, printed, ""),
            "{script}"
        );
    }
    Ok(())
}
