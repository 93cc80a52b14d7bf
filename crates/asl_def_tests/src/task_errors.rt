// The errors that Tasks are worth failing with, of definitions in their canonical form.
use asl_json_read::read;
use asl_task_errors::{TaskErrors, errors_of_tasks};
use std::alloc::{AllocError, Global};
use std::test::Fail;

/// A line for each Task: its name and its errors.
fn put_task(out: &mut String, task: &TaskErrors) -> Result<(), AllocError> {
    out.push_str(task.state.as_str())?;
    for error in &task.errors {
        out.push(' ')?;
        out.push_str(error.as_str())?;
    }
    out.push('\n')
}

fn told(alloc: Global, text: &str) -> Result<String, Fail> {
    let definition = read(alloc, text.as_bytes())?;
    let mut out = String::new(alloc);
    for task in &errors_of_tasks(alloc, &definition)? {
        put_task(&mut out, task)?;
    }
    Ok(out)
}

/// What is told of a definition with one Task, which has these members.
fn told_of_one(alloc: Global, members: &str) -> Result<String, Fail> {
    let text = format!(in alloc;
        "{{\"StartAt\":\"T\",\"States\":{{\"T\":{{\"Type\":\"Task\",\"Resource\":\"r\",{members},\"End\":true}}}}}}"
    )?;
    told(alloc, text.as_str())
}

#[test]
fn of_a_parallel_in_a_map(rt: HostRuntime) -> Result<(), Fail> {
    let out = told(
        rt.alloc(),
        r#"{"StartAt":"M","States":{"M":{"Type":"Map","ItemProcessor":{"StartAt":"P","States":{"P":{"Type":"Parallel","Branches":[{"StartAt":"W","States":{"W":{"Type":"Wait","Seconds":1,"Next":"T"},"T":{"Type":"Task","Resource":"r","Retry":[{"ErrorEquals":["A","D"]}],"Catch":[{"ErrorEquals":["States.TaskFailed"],"Next":"V"}],"End":true},"V":{"Type":"Task","Resource":"r","End":true}}}],"Retry":[{"ErrorEquals":["B","States.Timeout"]}],"End":true}}},"Catch":[{"ErrorEquals":["C"],"Next":"Z"},{"ErrorEquals":["States.ALL"],"Next":"Z"}],"Next":"Z"},"Z":{"Type":"Task","Resource":"r","End":true}}}"#,
    )?;
    assert_eq!(rt;
        out.as_str(),
        "T A Unnamed B C States.Timeout\nV B C Unnamed States.Timeout\nZ Unnamed States.Timeout\n"
    );
    Ok(())
}

#[test]
fn of_a_branch_and_of_an_iterator(rt: HostRuntime) -> Result<(), Fail> {
    let out = told(
        rt.alloc(),
        r#"{"StartAt":"P","States":{"P":{"Type":"Parallel","Branches":[{"StartAt":"M","States":{"M":{"Type":"Map","Iterator":{"StartAt":"T","States":{"T":{"Type":"Task","Resource":"r","Retry":[{"ErrorEquals":["A"]}],"End":true}}},"Retry":[{"ErrorEquals":["B"]}],"End":true}}},{"StartAt":"U","States":{"U":{"Type":"Task","Resource":"r","End":true}}}],"Catch":[{"ErrorEquals":["C"],"Next":"Z"}],"Next":"Z"},"Z":{"Type":"Succeed"}}}"#,
    )?;
    assert_eq!(rt;
        out.as_str(),
        "T A B C Unnamed States.Timeout\nU C Unnamed States.Timeout\n"
    );
    Ok(())
}

#[test]
fn names_for_many(rt: HostRuntime) -> Result<(), Fail> {
    let all = told_of_one(
        rt.alloc(),
        r#""Retry":[{"ErrorEquals":["States.ALL"]}],"Catch":[{"ErrorEquals":["States.Timeout"],"Next":"T"}]"#,
    )?;
    assert_eq!(rt; all.as_str(), "T Unnamed States.Timeout\n");
    let behind = told_of_one(
        rt.alloc(),
        r#""Retry":[{"ErrorEquals":["A"]},{"ErrorEquals":["B","A"]},{"ErrorEquals":["C","B"]}],"Catch":[{"ErrorEquals":["States.TaskFailed"],"Next":"T"}]"#,
    )?;
    assert_eq!(rt; behind.as_str(), "T A B C Unnamed States.Timeout\n");
    Ok(())
}

#[test]
fn names_that_come_close(rt: HostRuntime) -> Result<(), Fail> {
    let listed = told_of_one(
        rt.alloc(),
        r#""Catch":[{"ErrorEquals":["Unnamed","A"],"Next":"T"}]"#,
    )?;
    assert_eq!(rt; listed.as_str(), "T Unnamed States.Timeout\n");
    // Nothing names States.Runtime, not even a list that has the name.
    let runtime = told_of_one(
        rt.alloc(),
        r#""Catch":[{"ErrorEquals":["States.Runtime"],"Next":"T"},{"ErrorEquals":["States.ALL"],"Next":"T"}]"#,
    )?;
    assert_eq!(rt;
        runtime.as_str(),
        "T States.Runtime Unnamed States.Timeout\n"
    );
    Ok(())
}

#[test]
fn of_other_values(rt: HostRuntime) -> Result<(), Fail> {
    let odd = told_of_one(
        rt.alloc(),
        r#""Retry":{"ErrorEquals":["A"]},"Catch":[["B"],{"ErrorEquals":"C"},{"ErrorEquals":[1,"E"]}]"#,
    )?;
    assert_eq!(rt; odd.as_str(), "T E Unnamed States.Timeout\n");
    let none = told(rt.alloc(), r#"["States",{"T":{"Type":"Task"}}]"#)?;
    assert_eq!(rt; none.as_str(), "");
    Ok(())
}
