// Machines in the newer spelling of Map states.
use crate::machines::machine;
use asl_def::{Machine, print};
use std::test::Fail;

fn prints(rt: &HostRuntime, machine: &Machine, wanted: &str) -> bool {
    match print(rt.alloc(), machine) {
        Ok(text) => text.as_str() == wanted,
        Err(_) => false,
    }
}

/// Whether the machine of this text, upgraded once and twice, is printed so.
fn is_upgraded_to(rt: &HostRuntime, text: &str, wanted: &str) -> Option<bool> {
    let once = machine(rt, text)?.upgrade(rt.alloc()).ok()?;
    let is_once = prints(rt, &once, wanted);
    let twice = once.upgrade(rt.alloc()).ok()?;
    Some(is_once && prints(rt, &twice, wanted))
}

const OLDER: &str =
    r#"{"StartAt":"M","States":{"M":{"Type":"Map","Parameters":{"v.$":"$$.Map.Item.Value"},"Iterator":{"StartAt":"P","States":{"P":{"Type":"Pass","Parameters":{"k":1},"End":true}}},"End":true}}}"#;

const NEWER: &str =
    r#"{"StartAt":"M","States":{"M":{"Type":"Map","ItemSelector":{"v.$":"$$.Map.Item.Value"},"ItemProcessor":{"StartAt":"P","States":{"P":{"Type":"Pass","Parameters":{"k":1},"End":true}}},"End":true}}}"#;

#[test]
fn older_spelling_is_upgraded(rt: HostRuntime) -> Result<(), Fail> {
    assert!(rt; is_upgraded_to(&rt, OLDER, NEWER).ok_or("refused")?);
    assert!(rt; is_upgraded_to(&rt, NEWER, NEWER).ok_or("refused")?);
    Ok(())
}

/// A Map within a Map, a Map in a Parallel, and the Parameters of states of other types.
const INNER_OLDER: &str =
    r#"{"StartAt":"L","States":{"L":{"Type":"Parallel","Parameters":{"l":1},"Branches":[{"StartAt":"A","States":{"A":{"Type":"Task","Resource":"r","Parameters":{"Iterator":2,"Parameters":3},"End":true}}},{"StartAt":"M","States":{"M":{"Type":"Map","ItemSelector":{"m":1},"Iterator":{"StartAt":"N","States":{"N":{"Type":"Map","Parameters":{"n":1},"ItemProcessor":{"ProcessorConfig":{"Mode":"INLINE"},"StartAt":"F","States":{"F":{"Type":"Fail"}}},"End":true}}},"End":true}}}],"End":true}}}"#;

const INNER_NEWER: &str =
    r#"{"StartAt":"L","States":{"L":{"Type":"Parallel","Parameters":{"l":1},"Branches":[{"StartAt":"A","States":{"A":{"Type":"Task","Resource":"r","Parameters":{"Iterator":2,"Parameters":3},"End":true}}},{"StartAt":"M","States":{"M":{"Type":"Map","ItemSelector":{"m":1},"ItemProcessor":{"StartAt":"N","States":{"N":{"Type":"Map","ItemSelector":{"n":1},"ItemProcessor":{"ProcessorConfig":{"Mode":"INLINE"},"StartAt":"F","States":{"F":{"Type":"Fail"}}},"End":true}}},"End":true}}}],"End":true}}}"#;

#[test]
fn inner_maps_are_upgraded(rt: HostRuntime) -> Result<(), Fail> {
    assert!(rt; is_upgraded_to(&rt, INNER_OLDER, INNER_NEWER).ok_or("refused")?);
    Ok(())
}

#[test]
fn a_copy_is_not_upgraded(rt: HostRuntime) -> Result<(), Fail> {
    let first = machine(&rt, OLDER).ok_or("refused")?;
    let copy = first.try_clone().map_err(|_| "memory")?;
    let upgraded = first.upgrade(rt.alloc()).map_err(|_| "memory")?;
    assert!(rt; prints(&rt, &upgraded, NEWER));
    assert!(rt; prints(&rt, &copy, OLDER));
    Ok(())
}
