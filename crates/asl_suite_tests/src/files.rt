// Expectations files: what they spell, and which fault is answered.
use asl_json::Json;
use asl_json_write::write;
use asl_run_input::StepAt;
use asl_suite_file::{
    CallsByState, CountsByState, Draft, Drafts, ExpectFault, InputSource, Wanted, WantedText,
};
use asl_time::put_stamp;
use std::alloc::{AllocError, Global};
use std::test::Fail;

fn status_word(status: Wanted) -> &'static str {
    match status {
        Wanted::Succeeded => "SUCCEEDED",
        Wanted::Failed => "FAILED",
        Wanted::TimedOut => "TIMED_OUT",
    }
}

fn put_value(alloc: Global, out: &mut String, value: &Json) -> Result<(), AllocError> {
    let text = write(alloc, value)?;
    out.push(' ')?;
    out.push_str(text.as_str())
}

fn put_maybe(
    alloc: Global,
    out: &mut String,
    word: &str,
    value: &Option<Json>,
) -> Result<(), AllocError> {
    out.push_str(word)?;
    match value {
        Some(value) => put_value(alloc, out, value),
        None => out.push_str(" -"),
    }
}

fn put_text(out: &mut String, word: &str, text: &WantedText) -> Result<(), AllocError> {
    out.push_str(word)?;
    match text {
        WantedText::Any => out.push_str(" any"),
        WantedText::Absent => out.push_str(" none"),
        WantedText::Text(text) => write!(out, "={}", text.as_str()),
    }
}

fn put_counts(out: &mut String, word: &str, counts: &CountsByState) -> Result<(), AllocError> {
    out.push_str(word)?;
    for count in counts.counts() {
        write!(out, " {}={}", count.state.as_str(), count.count)?;
    }
    Ok(())
}

fn put_calls(alloc: Global, out: &mut String, calls: &CallsByState) -> Result<(), AllocError> {
    out.push_str(" calls")?;
    for one in calls.calls() {
        write!(out, " {}", one.state.as_str())?;
        for input in one.inputs.values() {
            put_value(alloc, out, input)?;
        }
    }
    Ok(())
}

fn put_steps(out: &mut String, steps: &[StepAt]) -> Result<(), AllocError> {
    out.push(' ')?;
    for step in steps {
        step.place.put(out)?;
        out.push(' ')?;
        put_stamp(out, step.moment)?;
        out.push(',')?;
    }
    Ok(())
}

fn put_input(alloc: Global, out: &mut String, input: &InputSource) -> Result<(), AllocError> {
    match input {
        InputSource::Here(input) => put_value(alloc, out, input.get()),
        InputSource::File(name) => write!(out, " of {}", name.as_str()),
    }
}

fn put_test(alloc: Global, out: &mut String, test: &Draft) -> Result<(), AllocError> {
    write!(out, "{}#{}", test.machine.as_str(), test.case.as_str())?;
    put_input(alloc, out, &test.input)?;
    if let Some(name) = &test.name {
        write!(out, " \"{}\"", name.as_str())?;
    }
    if let Some(steps) = &test.steps {
        put_steps(out, steps.steps())?;
    }
    write!(out, " {}", status_word(test.end.status))?;
    put_maybe(alloc, out, " output", &test.end.output)?;
    put_maybe(alloc, out, " match", &test.end.part)?;
    put_text(out, " error", &test.end.error)?;
    put_text(out, " cause", &test.end.cause)?;
    put_counts(out, " visits", &test.states.visits)?;
    put_counts(out, " invocations", &test.states.invocations)?;
    put_calls(alloc, out, &test.states.calls)?;
    out.push(';')
}

fn told_tests(alloc: Global, tests: &[Draft]) -> Result<String, AllocError> {
    let mut text = String::new(alloc);
    for test in tests {
        put_test(alloc, &mut text, test)?;
    }
    Ok(text)
}

fn told_fault(alloc: Global, fault: &ExpectFault) -> Result<String, AllocError> {
    fault.text(alloc)
}

/// The tests that a file spells, or its fault.
fn told(alloc: Global, file: &str) -> Result<String, AllocError> {
    match Drafts::read(alloc, file.as_bytes()) {
        Ok(tests) => told_tests(alloc, &tests.list),
        Err(fault) => told_fault(alloc, &fault),
    }
}

fn is_told(alloc: Global, file: &str, wanted: &str) -> bool {
    match told(alloc, file) {
        Ok(text) => text.as_str() == wanted,
        Err(AllocError) => false,
    }
}

#[test]
fn tests_with_their_members(rt: HostRuntime) -> Result<(), Fail> {
    let rows = [
        ("[]", ""),
        (
            r#"[{"machine":"M","case":"A","input":{},"status":"SUCCEEDED"}]"#,
            "M#A {} SUCCEEDED output - match - error any cause any visits invocations calls;",
        ),
        (
            r#"[{"visits":{"T":2.0,"":0},"output":null,"status":"FAILED","input":[1.50],"case":"","machine":""},
              {"machine":"N","case":"a#b","input":null,"status":"TIMED_OUT","visits":{}}]"#,
            "# [1.50] FAILED output null match - error any cause any visits T=2 =0 invocations calls;\
             N#a#b null TIMED_OUT output - match - error any cause any visits invocations calls;",
        ),
        (
            r#"[{"machine":"M","case":"A","input":{},"status":"FAILED","name":"late","match":{"a":1},"error":"E","cause":null,
              "invocations":{"T":3},"calls":{"T":[1,{"k":[]}],"U":[]}}]"#,
            "M#A {} \"late\" FAILED output - match {\"a\":1} error=E cause none visits invocations T=3 calls T 1 {\"k\":[]} U;",
        ),
        (
            r#"[{"machine":"M","case":"A","input":{},"steps":["/ 2024-01-01T01:00:00+01:00","/12/0 2024-01-01T00:00:00.5Z"],"status":"FAILED"},
              {"machine":"M","case":"A","input":{},"steps":[],"status":"FAILED"}]"#,
            "M#A {} / 2024-01-01T00:00:00.000Z,/12/0 2024-01-01T00:00:00.500Z, FAILED output - match - error any cause any visits invocations calls;\
             M#A {}  FAILED output - match - error any cause any visits invocations calls;",
        ),
        (
            r#"[{"machine":"M","case":"A","inputFile":"a/b.json","status":"SUCCEEDED"}]"#,
            "M#A of a/b.json SUCCEEDED output - match - error any cause any visits invocations calls;",
        ),
    ];
    for (file, wanted) in rows {
        assert!(rt; is_told(rt.alloc(), file, wanted));
    }
    Ok(())
}

#[test]
fn the_first_fault_at_its_place(rt: HostRuntime) -> Result<(), Fail> {
    let rows = [
        ("[", "X1 Json J1 Syntax 1"),
        ("{}", "X2 Shape"),
        ("[1]", "X2 Shape /0"),
        (r#"[{"machine":"M","case":"A","input":{}}]"#, "X2 Shape /0"),
        (
            r#"[{"machine":1,"case":"A","input":{},"status":"FAILED","Note":1}]"#,
            "X2 Shape /0",
        ),
        (
            r#"[{"machine":"M","case":"A","input":{},"status":"FAILED"},{"machine":"M","case":null,"input":{},"status":"RUNNING"}]"#,
            "X2 Shape /1/case",
        ),
        (
            r#"[{"status":"failed","machine":1,"case":"A","input":{}}]"#,
            "X2 Shape /0/status",
        ),
        (
            r#"[{"machine":"M","case":"A","input":{},"status":"FAILED","visits":[]}]"#,
            "X2 Shape /0/visits",
        ),
        (
            r#"[{"machine":"M","case":"A","input":{},"status":"FAILED","visits":{"S":1,"A/~":0.5,"T":-1}}]"#,
            "X2 Shape /0/visits/A~1~0",
        ),
        (
            r#"[{"machine":"M","case":"A","input":{},"status":"FAILED","visits":{"T":-1}}]"#,
            "X2 Shape /0/visits/T",
        ),
        (
            r#"[{"machine":"M","case":"A","input":{},"status":"FAILED","invocations":{"T":-1}}]"#,
            "X2 Shape /0/invocations/T",
        ),
        (
            r#"[{"machine":"M","case":"A","input":{},"status":"FAILED","calls":{"T":[],"U":1}}]"#,
            "X2 Shape /0/calls/U",
        ),
        (
            r#"[{"machine":"M","case":"A","input":{},"status":"FAILED","error":"E","cause":1,"name":2}]"#,
            "X2 Shape /0/cause",
        ),
        (
            r#"[{"machine":"M","case":"A","input":{},"status":"FAILED","steps":{}}]"#,
            "X2 Shape /0/steps",
        ),
        (
            r#"[{"machine":"M","case":"A","input":{},"status":"FAILED","steps":["/ 2024-01-01T00:00:00Z","/0"],"name":2}]"#,
            "X2 Shape /0/steps/1",
        ),
        (
            r#"[{"machine":"M","case":"A","status":"FAILED"}]"#,
            "X2 Shape /0",
        ),
        (
            r#"[{"machine":"M","case":"A","input":{},"inputFile":"a.json","status":"FAILED"}]"#,
            "X2 Shape /0",
        ),
        (
            r#"[{"machine":"M","case":"A","inputFile":{},"status":"FAILED"}]"#,
            "X2 Shape /0/inputFile",
        ),
    ];
    for (file, wanted) in rows {
        assert!(rt; is_told(rt.alloc(), file, wanted));
    }
    Ok(())
}
