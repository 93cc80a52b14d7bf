// What is reported of tests.
use crate::suites::{TASK, suite_for};
use asl_suite::{CaseReport, Suite, report, run_case};
use std::alloc::Global;
use std::test::Fail;

/// A state that is entered again and again.
const ROUND: &str = r#"{"StartAt":"P","States":{"P":{"Type":"Pass","Next":"P"}}}"#;

fn reports_of(alloc: Global, suite: &Suite) -> Option<Vec<CaseReport>> {
    let mut reports = Vec::new(alloc);
    for number in 0..suite.tests.list.len() {
        reports.push(run_case(alloc, suite, number).ok()?).ok()?;
    }
    Some(reports)
}

/// The text of the reports on these tests.
fn told(alloc: Global, definition: &str, tests: &str) -> Option<String> {
    let suite = suite_for(alloc, definition, tests)?;
    let reports = reports_of(alloc, &suite)?;
    report(alloc, &reports).ok()
}

fn is_told(alloc: Global, definition: &str, tests: &str, wanted: &str) -> bool {
    match told(alloc, definition, tests) {
        Some(text) => text.as_str() == wanted,
        None => false,
    }
}

#[test]
fn a_line_for_each_test(rt: HostRuntime) -> Result<(), Fail> {
    let tests = r#"[{"machine":"M","case":"A","input":{},"status":"SUCCEEDED","output":1},
     {"machine":"M","case":"B","input":{},"status":"FAILED"},
     {"machine":"M","case":"C","input":{},"status":"FAILED"},
     {"machine":"M","case":"A","input":{},"status":"SUCCEEDED","output":2},
     {"machine":"M","case":"X","input":{},"status":"SUCCEEDED"}]"#;
    let wanted = "ok M#A SUCCEEDED 7
ok M#B FAILED 6
ok M#C FAILED 6
output M#A SUCCEEDED 7
nocase M#X NONE 0
3 passed, 2 failed
";
    assert!(rt; is_told(rt.alloc(), TASK, tests, wanted));
    Ok(())
}

#[test]
fn the_first_verdict_that_applies(rt: HostRuntime) -> Result<(), Fail> {
    let tests =
        r#"[{"machine":"M","case":"A","input":{},"status":"SUCCEEDED","visits":{"T":1,"U":0}},
     {"machine":"M","case":"A","input":{},"status":"SUCCEEDED","visits":{"T":2}},
     {"machine":"M","case":"A","input":{},"status":"SUCCEEDED","visits":{"T":1,"U":1}},
     {"machine":"M","case":"A","input":{},"status":"SUCCEEDED","output":1.0,"visits":{"T":0}},
     {"machine":"M","case":"A","input":{},"status":"SUCCEEDED","output":2,"visits":{"T":0}},
     {"machine":"M","case":"A","input":{},"status":"FAILED","output":2,"visits":{"T":0}},
     {"machine":"M","case":"A","input":{},"status":"TIMED_OUT"},
     {"machine":"M","case":"B","input":{},"status":"FAILED","output":{"Error":"E"}},
     {"machine":"N","case":"A","input":{},"status":"FAILED","output":2},
     {"machine":"N","case":"","input":{},"status":"FAILED"}]"#;
    let wanted = "ok M#A SUCCEEDED 7
visits M#A SUCCEEDED 7
visits M#A SUCCEEDED 7
visits M#A SUCCEEDED 7
output M#A SUCCEEDED 7
status M#A SUCCEEDED 7
status M#A SUCCEEDED 7
output M#B FAILED 6
nocase N#A NONE 0
ok N# FAILED 6
2 passed, 8 failed
";
    assert!(rt; is_told(rt.alloc(), TASK, tests, wanted));
    Ok(())
}

#[test]
fn what_a_test_may_say_of_its_end(rt: HostRuntime) -> Result<(), Fail> {
    let tests =
        r#"[{"machine":"M","case":"A","input":{"k":1},"status":"SUCCEEDED","name":"a \"b\"","match":1.0,"invocations":{"T":1,"U":0},
      "calls":{"T":[{"k":1.0}],"U":[]}},
     {"machine":"M","case":"B","input":{},"status":"FAILED","error":"E","invocations":{"T":1}},
     {"machine":"M","case":"A","input":{},"status":"SUCCEEDED","output":2,"match":2},
     {"machine":"M","case":"A","input":{},"status":"SUCCEEDED","match":2,"error":null},
     {"machine":"M","case":"A","input":{},"status":"SUCCEEDED","error":null,"cause":null},
     {"machine":"M","case":"B","input":{},"status":"FAILED","error":"F","cause":"F"},
     {"machine":"M","case":"B","input":{},"status":"FAILED","error":null},
     {"machine":"M","case":"B","input":{},"status":"FAILED","cause":"F","visits":{"T":2}},
     {"machine":"M","case":"A","input":{},"status":"SUCCEEDED","visits":{"T":2},"invocations":{"T":2}},
     {"machine":"M","case":"A","input":{},"status":"SUCCEEDED","invocations":{"T":2},"calls":{"T":[]}},
     {"machine":"M","case":"A","input":{},"status":"SUCCEEDED","calls":{"T":[]}},
     {"machine":"M","case":"A","input":{},"status":"SUCCEEDED","calls":{"T":[{},{}]}},
     {"machine":"M","case":"A","input":{},"status":"SUCCEEDED","calls":{"T":[{"k":1}]}}]"#;
    let wanted = "ok M#A SUCCEEDED 7 \"a \\\"b\\\"\"
ok M#B FAILED 6
output M#A SUCCEEDED 7
match M#A SUCCEEDED 7
error M#A SUCCEEDED 7
error M#B FAILED 6
error M#B FAILED 6
cause M#B FAILED 6
visits M#A SUCCEEDED 7
invocations M#A SUCCEEDED 7
calls M#A SUCCEEDED 7
calls M#A SUCCEEDED 7
calls M#A SUCCEEDED 7
2 passed, 11 failed
";
    assert!(rt; is_told(rt.alloc(), TASK, tests, wanted));
    Ok(())
}

#[test]
fn a_round_without_end(rt: HostRuntime) -> Result<(), Fail> {
    let tests = r#"[{"machine":"M","case":"","input":{},"status":"SUCCEEDED"}]"#;
    let wanted = "limit M# UNFINISHED 20001
0 passed, 1 failed
";
    assert!(rt; is_told(rt.alloc(), ROUND, tests, wanted));
    Ok(())
}
