// What no clause says of rules: that reading succeeds with ample memory, and the texts of faults.
use crate::{Rule, Task};
use asl_json::Txt;
use std::alloc::Global;
use std::test::Fail;

fn tasks(alloc: Global) -> Result<Vec<Task>, Fail> {
    let mut tasks = Vec::new(alloc);
    tasks.push(Task {
        name: Txt::of(alloc, "Charge card")?,
        number: 0,
    })?;
    tasks.push(Task {
        name: Txt::of(alloc, "Refund card")?,
        number: 1,
    })?;
    Ok(tasks)
}

#[test]
fn rules_are_read(rt: HostRuntime) -> Result<(), Fail> {
    let alloc = rt.alloc();
    let tasks = tasks(alloc)?;
    let text =
        r#"failed("Charge card") and not status(SUCCEEDED) => returned("Refund card", 1) or error("Lost")"#;
    assert!(rt; matches!(Rule::always(alloc, &tasks, text), Ok(Rule::Always(_))));
    let undo = Rule::undo(alloc, &tasks, r#""Charge card" = "Refund card""#);
    let Ok(Rule::Undo(done, undone)) = &undo else {
        return Err("refused".into());
    };
    assert_eq!(rt; (done.number, undone.number), (0, 1));
    Ok(())
}

#[test]
fn a_fault_is_told(rt: HostRuntime) -> Result<(), Fail> {
    let alloc = rt.alloc();
    let tasks = tasks(alloc)?;
    let Err(fault) = Rule::always(alloc, &tasks, "not done(\"Ship\")") else {
        return Err("read".into());
    };
    let text = fault.text(alloc)?;
    assert_eq!(rt; text.as_str(), "Q2 NoSuchState 9");
    Ok(())
}
