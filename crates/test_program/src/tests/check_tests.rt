//! Tests of the command `check`.

use crate::tests::common::seen_with;
use std::test::Fail;

/// Scripts that break a rule, with what is seen of them.
static FAULTS: [(&str, &str); 7] = [
    (
        "at 0 move a b rport=80 order\n",
        "2||opennf: script line 1: splits unit\n",
    ),
    (
        "at 9 settle\nat 5 settle\n",
        "2||opennf: script line 2: order\n",
    ),
    (
        "at 0 move a a any order\n",
        "2||opennf: script line 1: same instance\n",
    ),
    ("# x\nat 0 stop\n", "2||opennf: script line 2: word\n"),
    ("route any c\n", "2||opennf: script line 1: name\n"),
    (
        "at 0 settle\n\nat 0 copy a b lport=x\n",
        "2||opennf: script line 3: filter\n",
    ),
    (
        "at 0 settle\nroute any a\n",
        "2||opennf: script line 2: order\n",
    ),
];

#[test]
fn check_prints_the_canonical_text(rt: HostRuntime) -> Result<(), Fail> {
    let script = "# x\nroute  local=10.0.0.9 b\nat 1 move a b rport=80,proto=tcp order\n";
    let line = "opennf check conntrack --instances a,b S";
    let text = seen_with(rt.alloc(), line, &[], script)?;
    let canonical = "0|route local=10.0.0.9/32 b\nat 1 move a b proto=tcp,rport=80 order\n|";
    assert_eq!(rt; text.items(), canonical.as_bytes());
    Ok(())
}

#[test]
fn each_fault_of_a_script_is_named_with_its_line(rt: HostRuntime) -> Result<(), Fail> {
    for (script, wanted) in FAULTS {
        let line = "opennf check monitor --instances a,b S";
        let text = seen_with(rt.alloc(), line, &[], script)?;
        assert_eq!(rt; text.items(), wanted.as_bytes());
    }
    Ok(())
}
