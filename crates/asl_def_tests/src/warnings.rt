// What definitions are warned of: each warning once, beside a definition that comes close and has none.
use asl_def_schema::Step;
use asl_json_read::read;
use asl_lint_warnings::every_warning;
use std::alloc::{AllocError, Global};
use std::test::Fail;

/// Appends a slash and a name for each step.
fn put_place(out: &mut String, steps: &[Step]) -> Result<(), AllocError> {
    let count = steps.len();
    for i in 0..count {
        out.push('/')?;
        out.push_str(steps[count - 1 - i].name.as_str())?;
    }
    Ok(())
}

/// A line for each warning: its name and its place.
fn told(alloc: Global, text: &str) -> Result<String, Fail> {
    let definition = read(alloc, text.as_bytes())?;
    let mut out = String::new(alloc);
    for warning in every_warning(alloc, &definition)? {
        out.push_str(warning.kind().name())?;
        out.push(' ')?;
        put_place(&mut out, warning.steps_back())?;
        out.push('\n')?;
    }
    Ok(out)
}

#[test]
fn plain(rt: HostRuntime) -> Result<(), Fail> {
    let out = told(
        rt.alloc(),
        r#"{"StartAt":"A","States":{"A":{"Type":"Task","Resource":"r","Next":"B"},"B":{"Type":"Succeed"}}}"#,
    )?;
    assert_eq!(rt; out.as_str(), "");
    Ok(())
}

#[test]
fn no_definition(rt: HostRuntime) -> Result<(), Fail> {
    let out = told(
        rt.alloc(),
        r#"[{"States":{"A":{"Type":"Choice"}}},"States.Nothing","$.x"]"#,
    )?;
    assert_eq!(rt; out.as_str(), "");
    Ok(())
}

#[test]
fn unreachable(rt: HostRuntime) -> Result<(), Fail> {
    let out = told(
        rt.alloc(),
        r#"{"StartAt":"A","States":{"A":{"Type":"Pass","End":true},"B":{"Type":"Pass","Next":"A"}}}"#,
    )?;
    assert_eq!(rt; out.as_str(), "unreachable-state /States/B\n");
    Ok(())
}

#[test]
fn reached_in_each_way(rt: HostRuntime) -> Result<(), Fail> {
    let out = told(
        rt.alloc(),
        r#"{"StartAt":"A","States":{"A":{"Type":"Choice","Choices":[{"Variable":"$.a","IsNull":true,"Next":"C"}],"Default":"D"},"C":{"Type":"Task","Resource":"r","Catch":[{"ErrorEquals":["E"],"Next":"F"}],"Next":"G"},"D":{"Type":"Fail"},"F":{"Type":"Fail"},"G":{"Type":"Succeed"}}}"#,
    )?;
    assert_eq!(rt; out.as_str(), "");
    Ok(())
}

#[test]
fn endless(rt: HostRuntime) -> Result<(), Fail> {
    let out = told(
        rt.alloc(),
        r#"{"StartAt":"A","States":{"A":{"Type":"Wait","Seconds":1,"Next":"B"},"B":{"Type":"Pass","Next":"A"}}}"#,
    )?;
    assert_eq!(rt; out.as_str(), "no-end /States/A\nno-end /States/B\n");
    Ok(())
}

#[test]
fn ended_by_a_catcher(rt: HostRuntime) -> Result<(), Fail> {
    let out = told(
        rt.alloc(),
        r#"{"StartAt":"A","States":{"A":{"Type":"Task","Resource":"r","Catch":[{"ErrorEquals":["E"],"Next":"F"}],"Next":"A"},"F":{"Type":"Fail"}}}"#,
    )?;
    assert_eq!(rt; out.as_str(), "");
    Ok(())
}

#[test]
fn faults_are_no_warnings(rt: HostRuntime) -> Result<(), Fail> {
    let out = told(
        rt.alloc(),
        r#"{"StartAt":"Z","States":{"A":{"Type":"Pass","Next":"Nowhere"},"B":{"Type":"Pass","Next":"A"}}}"#,
    )?;
    assert_eq!(rt; out.as_str(), "");
    Ok(())
}

#[test]
fn inner_machine(rt: HostRuntime) -> Result<(), Fail> {
    let out = told(
        rt.alloc(),
        r#"{"StartAt":"A","States":{"A":{"Type":"Map","ItemProcessor":{"StartAt":"I","States":{"I":{"Type":"Pass","End":true},"J":{"Type":"Fail"}}},"End":true}}}"#,
    )?;
    assert_eq!(rt;
        out.as_str(),
        "unreachable-state /States/A/ItemProcessor/States/J\n"
    );
    Ok(())
}

#[test]
fn no_default(rt: HostRuntime) -> Result<(), Fail> {
    let out = told(
        rt.alloc(),
        r#"{"StartAt":"A","States":{"A":{"Type":"Choice","Choices":[{"Variable":"$.a","IsNull":true,"Next":"B"}]},"B":{"Type":"Fail"}}}"#,
    )?;
    assert_eq!(rt; out.as_str(), "no-default /States/A\n");
    Ok(())
}

#[test]
fn own_defaults(rt: HostRuntime) -> Result<(), Fail> {
    let out = told(
        rt.alloc(),
        r#"{"StartAt":"A","States":{"A":{"Type":"Choice","Choices":[{"Variable":"$.a","IsNull":true,"Next":"B"}],"Default":"A"},"B":{"Type":"Choice","Choices":[{"Variable":"$.a","IsNull":true,"Next":"B"}],"Default":"C"},"C":{"Type":"Choice","InputPath":"$.c","Choices":[{"Variable":"$.a","IsNull":true,"Next":"D"}],"Default":"C"},"D":{"Type":"Choice","OutputPath":"$.d","Choices":[{"Variable":"$.a","IsNull":true,"Next":"E"}],"Default":"D"},"E":{"Type":"Pass","Default":"E","End":true}}}"#,
    )?;
    assert_eq!(rt; out.as_str(), "own-default /States/A/Default\n");
    Ok(())
}

#[test]
fn repeated_rules(rt: HostRuntime) -> Result<(), Fail> {
    let out = told(
        rt.alloc(),
        r#"{"StartAt":"A","States":{"A":{"Type":"Choice","Choices":[{"Variable":"$.a","NumericEquals":1,"Next":"A"},{"Variable":"$.a","NumericEquals":2,"Next":"A"},{"Comment":"c","Variable":"$.a","NumericEquals":1,"Next":"B"},{"And":[{"Variable":"$.a","IsNull":true},{"Variable":"$.a","IsNull":true}],"Next":"B"},{"Next":"A","And":[{"Variable":"$.a","IsNull":true},{"Variable":"$.a","IsNull":true}]},{"NumericEquals":1,"Variable":"$.a","Next":"B"},{"Variable":"$.a","NumericEquals":1.0,"Next":"B"},{"Variable":"$.a","NumericEquals":2,"Next":"A"}],"Default":"B"},"B":{"Type":"Choice","Choices":[{"Variable":"$.a","NumericEquals":1,"Next":"C"}],"Default":"C"},"C":{"Type":"Fail"}}}"#,
    )?;
    assert_eq!(rt;
        out.as_str(),
        "repeated-rule /States/A/Choices/2\nrepeated-rule /States/A/Choices/4\nrepeated-rule /States/A/Choices/7\n"
    );
    Ok(())
}

/// Rules without a test, and what is no object, ask nothing.
#[test]
fn rules_that_ask_nothing(rt: HostRuntime) -> Result<(), Fail> {
    let out = told(
        rt.alloc(),
        r#"{"StartAt":"A","States":{"A":{"Type":"Choice","Choices":[{"Or":[1,1],"Next":"A"},2,{"Next":"A"},"B"],"Default":"B"},"B":{"Type":"Fail"}}}"#,
    )?;
    assert_eq!(rt;
        out.as_str(),
        "repeated-rule /States/A/Choices/2\nrepeated-rule /States/A/Choices/3\n"
    );
    Ok(())
}

/// The warnings of a Choice with this one rule, which leads to a Fail.
fn told_of_rule(alloc: Global, rule: &str) -> Result<String, Fail> {
    let mut text = String::new(alloc);
    text.push_str(r#"{"StartAt":"A","States":{"A":{"Type":"Choice","Choices":[{"Comment":"c","#)?;
    text.push_str(rule)?;
    text.push_str(r#","Next":"B"}],"Default":"B"},"B":{"Type":"Fail"}}}"#)?;
    told(alloc, text.as_str())
}

#[test]
fn impossible_ands(rt: HostRuntime) -> Result<(), Fail> {
    let impossible = [
        r#""And":[{"Variable":"$.a","StringEquals":"x"},{"Variable":"$.a","StringEquals":"y"}]"#,
        r#""And":[{"StringEquals":"x","Variable":"$.a"},{"Variable":"$.a","StringEquals":"y"}]"#,
        r#""And":[{"Variable":"$.a","NumericEquals":1},{"Variable":"$.b","NumericEquals":1},{"Variable":"$.a","NumericEquals":2}]"#,
        r#""And":[{"Variable":"$.a","BooleanEquals":true},{"Variable":"$.a","BooleanEquals":false}]"#,
        r#""And":[{"Variable":"$.a","TimestampEquals":"2024-01-01T00:00:00Z"},{"Variable":"$.a","TimestampEquals":"2024-01-02T00:00:00Z"}]"#,
        r#""And":[{"Variable":"$.a","StringMatches":"x*"},{"Variable":"$.a","NumericLessThan":5}]"#,
        r#""And":[{"Variable":"$.a","StringEqualsPath":"$.b"},{"Variable":"$.a","BooleanEqualsPath":"$.b"}]"#,
        r#""And":[{"Variable":"$.a","IsNull":true},{"Not":{"Variable":"$.a","IsNull":true}}]"#,
        r#""And":[{"Not":{"Variable":"$.a","IsNull":true,"Comment":"d"}},{"Comment":"e","Variable":"$.a","IsNull":true}]"#,
    ];
    for rule in impossible {
        let out = told_of_rule(rt.alloc(), rule)?;
        assert_eq!(rt; out.as_str(), "impossible-and /States/A/Choices/0/And\n");
    }
    Ok(())
}

/// Ands that come close to those.
#[test]
fn ands_that_may_hold(rt: HostRuntime) -> Result<(), Fail> {
    let fine = [
        r#""And":[{"Variable":"$.a","StringEquals":"x"},{"Variable":"$.b","StringEquals":"y"}]"#,
        r#""Or":[{"Variable":"$.a","StringEquals":"x"},{"Variable":"$.a","StringEquals":"y"}]"#,
        r#""And":[{"Variable":"$.a","NumericEquals":1},{"Variable":"$.a","NumericEquals":1.0}]"#,
        r#""And":[{"Variable":"$.a","NumericLessThan":1},{"Variable":"$.a","NumericLessThan":2}]"#,
        r#""And":[{"Variable":"$.a","TimestampEquals":"2024-01-01T00:00:00Z"},{"Variable":"$.a","TimestampEquals":"2024-01-01T00:00:00.000Z"}]"#,
        r#""And":[{"Variable":"$.a","StringEquals":"x"},{"Variable":"$.a","TimestampLessThan":"2024-01-01T00:00:00Z"}]"#,
        r#""And":[{"Variable":"$.a","IsNull":true},{"Not":{"Variable":"$.a","IsNull":false}}]"#,
        r#""And":[{"Variable":"$.a","IsPresent":true},{"Variable":"$.a","StringEquals":"x"}]"#,
    ];
    for rule in fine {
        let out = told_of_rule(rt.alloc(), rule)?;
        assert_eq!(rt; out.as_str(), "");
    }
    Ok(())
}

/// An And inside of an Or, of a Not and of another And, each beside one that may hold; the one around is told before.
#[test]
fn impossible_ands_inside_of_rules(rt: HostRuntime) -> Result<(), Fail> {
    let never =
        r#"{"And":[{"Variable":"$.a","NumericEquals":1},{"Variable":"$.a","NumericEquals":2}]}"#;
    let may =
        r#"{"And":[{"Variable":"$.a","NumericEquals":1},{"Variable":"$.b","NumericEquals":2}]}"#;
    let nested = [
        (r#""Or":["#, "]", "Or/1/And"),
        (r#""Or":[{"Not":{"Or":["#, "]}}]", "Or/0/Not/Or/1/And"),
        (r#""Not":{"Comment":"d","And":["#, "]}", "Not/And/1/And"),
    ];
    for (before, behind, place) in nested {
        let mut rule = String::new(rt.alloc());
        let mut line = String::new(rt.alloc());
        rule.push_str(before)?;
        rule.push_str(may)?;
        rule.push(',')?;
        rule.push_str(never)?;
        rule.push_str(behind)?;
        line.push_str("impossible-and /States/A/Choices/0/")?;
        line.push_str(place)?;
        line.push('\n')?;
        let out = told_of_rule(rt.alloc(), rule.as_str())?;
        assert_eq!(rt; out.as_str(), line.as_str());
    }
    Ok(())
}

/// In the order of the rules, that around before that inside, and both before what stands inside of the rules.
#[test]
fn impossible_ands_in_order(rt: HostRuntime) -> Result<(), Fail> {
    let out = told(
        rt.alloc(),
        r#"{"StartAt":"A","States":{"A":{"Type":"Choice","Choices":[{"And":[{"And":[{"Variable":"$$.Nothing","NumericEquals":1},{"Variable":"$$.Nothing","NumericEquals":2}]},{"Not":{"And":[{"Variable":"$$.Nothing","NumericEquals":1},{"Variable":"$$.Nothing","NumericEquals":2}]}}],"Next":"B"},{"And":[{"Variable":"$.a","IsNull":true},{"Variable":"$.a","IsNull":true}],"Next":"B"},{"And":[{"Variable":"$.a","IsNull":true},{"Variable":"$.a","IsNull":true}],"Next":"A"}],"Default":"B"},"B":{"Type":"Fail"}}}"#,
    )?;
    assert_eq!(rt;
        out.as_str(),
        "repeated-rule /States/A/Choices/2\nimpossible-and /States/A/Choices/0/And\nimpossible-and /States/A/Choices/0/And/0/And\nimpossible-and /States/A/Choices/0/And/1/Not/And\nunknown-context-member /States/A/Choices/0/And/0/And/0/Variable\nunknown-context-member /States/A/Choices/0/And/0/And/1/Variable\nunknown-context-member /States/A/Choices/0/And/1/Not/And/0/Variable\nunknown-context-member /States/A/Choices/0/And/1/Not/And/1/Variable\n"
    );
    Ok(())
}

#[test]
fn waits(rt: HostRuntime) -> Result<(), Fail> {
    let out = told(
        rt.alloc(),
        r#"{"StartAt":"A","States":{"A":{"Type":"Task","Resource":"q.waitForTaskToken","Parameters":{"t.$":"$$.Task.Token"},"Next":"B"},"B":{"Type":"Task","Resource":"q.waitForTaskToken","Parameters":{"t.$":"$$.Task.Token"},"HeartbeatSeconds":5,"End":true}}}"#,
    )?;
    assert_eq!(rt; out.as_str(), "endless-wait /States/A\n");
    Ok(())
}

/// The warnings of a Task that waits for its token, with a time limit and these members behind.
fn told_of_token(alloc: Global, members: &str) -> Result<String, Fail> {
    let mut text = String::new(alloc);
    text.push_str(
        r#"{"StartAt":"A","States":{"A":{"Type":"Task","Resource":"q.waitForTaskToken","TimeoutSeconds":9,"End":true"#,
    )?;
    text.push_str(members)?;
    text.push_str("}}}")?;
    told(alloc, text.as_str())
}

#[test]
fn unsent_tokens(rt: HostRuntime) -> Result<(), Fail> {
    let unsent = [
        "",
        r#","Parameters":{}"#,
        r#","Parameters":{"a.$":"$.Task.Token","b.$":"$$.Execution.Id","c":"$5","d.$":"States.Format('{}',$.a)","e":"costs $$"}"#,
        r#","InputPath":"$.a""#,
        r#","InputPath":null"#,
        r#","ResultSelector":{"t.$":"$$.Task.Token"}"#,
    ];
    for members in unsent {
        let out = told_of_token(rt.alloc(), members)?;
        assert_eq!(rt; out.as_str(), "unsent-token /States/A/Resource\n");
    }
    Ok(())
}

#[test]
fn sent_tokens(rt: HostRuntime) -> Result<(), Fail> {
    let sent = [
        r#","Parameters":{"t.$":"$$.Task.Token"}"#,
        r#","Parameters":{"a":[1,{"b":{"t.$":"$$.Task"}}]}"#,
        r#","Parameters":{"all.$":"$$"}"#,
        r#","Parameters":{"t.$":"$$['Task']['Token']"}"#,
        r#","Parameters":{"t.$":"States.Format('{} {}',$.id,$$.Task.Token)"}"#,
        r#","InputPath":"$$.Task""#,
        r#","InputPath":"$$","Parameters":{"t.$":"$.Task.Token"}"#,
    ];
    for members in sent {
        let out = told_of_token(rt.alloc(), members)?;
        assert_eq!(rt; out.as_str(), "");
    }
    Ok(())
}

/// One mistake is told once; another resource waits for no token, and a state of another type has none.
#[test]
fn no_tokens(rt: HostRuntime) -> Result<(), Fail> {
    let out = told(
        rt.alloc(),
        r#"{"StartAt":"A","States":{"A":{"Type":"Task","Resource":"q.waitForTaskToken","TimeoutSeconds":9,"Parameters":{"t":"$$.Task.Token"},"Next":"B"},"B":{"Type":"Task","Resource":"waitForTaskToken","Next":"C"},"C":{"Type":"Pass","Resource":"q.waitForTaskToken","End":true}}}"#,
    )?;
    assert_eq!(rt; out.as_str(), "forgotten-dollar /States/A/Parameters/t\n");
    Ok(())
}

#[test]
fn heartbeats(rt: HostRuntime) -> Result<(), Fail> {
    let out = told(
        rt.alloc(),
        r#"{"StartAt":"A","States":{"A":{"Type":"Task","Resource":"r","HeartbeatSeconds":60,"TimeoutSeconds":6e1,"Next":"B"},"B":{"Type":"Task","Resource":"r","HeartbeatSeconds":59,"TimeoutSeconds":60,"End":true}}}"#,
    )?;
    assert_eq!(rt;
        out.as_str(),
        "heartbeat-not-shorter /States/A/HeartbeatSeconds\n"
    );
    Ok(())
}

#[test]
fn limits(rt: HostRuntime) -> Result<(), Fail> {
    let short = told(
        rt.alloc(),
        r#"{"StartAt":"A","TimeoutSeconds":60,"States":{"A":{"Type":"Wait","Seconds":59,"Next":"B"},"B":{"Type":"Wait","Seconds":6e1,"End":true}}}"#,
    )?;
    assert_eq!(rt; short.as_str(), "limit-below-wait /TimeoutSeconds\n");
    let long = told(
        rt.alloc(),
        r#"{"StartAt":"A","TimeoutSeconds":60,"States":{"A":{"Type":"Wait","Seconds":59,"Next":"B"},"B":{"Type":"Wait","SecondsPath":"$.s","Next":"C"},"C":{"Type":"Pass","Seconds":60,"Next":"D"},"D":{"Type":"Task","Resource":"r","TimeoutSeconds":70,"Next":"E"},"E":{"Type":"Map","ItemProcessor":{"StartAt":"F","TimeoutSeconds":5,"States":{"F":{"Type":"Wait","Seconds":60,"End":true}}},"End":true}}}"#,
    )?;
    assert_eq!(rt; long.as_str(), "");
    Ok(())
}

#[test]
fn handlers(rt: HostRuntime) -> Result<(), Fail> {
    let out = told(
        rt.alloc(),
        r#"{"StartAt":"A","States":{"A":{"Type":"Task","Resource":"r","Retry":[{"ErrorEquals":["E","States.Timeout"]},{"ErrorEquals":["E"]},{"ErrorEquals":["E","F"]},{"ErrorEquals":["States.TaskFailed"]},{"ErrorEquals":["G"]},{"ErrorEquals":["States.ALL"]}],"End":true}}}"#,
    )?;
    assert_eq!(rt;
        out.as_str(),
        "unasked-handler /States/A/Retry/1\nunasked-handler /States/A/Retry/4\nunasked-handler /States/A/Retry/5\n"
    );
    Ok(())
}

#[test]
fn errors(rt: HostRuntime) -> Result<(), Fail> {
    let out = told(
        rt.alloc(),
        r#"{"StartAt":"A","States":{"A":{"Type":"Task","Resource":"r","Retry":[{"ErrorEquals":["States.Timeout","States.Timout","Mine.Timout","State.Permissions","states.runtime","StatesTaskFailed","Status.Timeout","Timeout","States.Http.StatusCode.404","States.Http.StatusCode.40"]}],"End":true}}}"#,
    )?;
    assert_eq!(rt;
        out.as_str(),
        "unknown-error /States/A/Retry/0/ErrorEquals/1\nunknown-error /States/A/Retry/0/ErrorEquals/3\nunknown-error /States/A/Retry/0/ErrorEquals/4\nunknown-error /States/A/Retry/0/ErrorEquals/5\nunknown-error /States/A/Retry/0/ErrorEquals/9\n"
    );
    Ok(())
}

#[test]
fn repeats(rt: HostRuntime) -> Result<(), Fail> {
    let out = told(
        rt.alloc(),
        r#"{"StartAt":"A","States":{"A":{"Type":"Task","Resource":"r","Retry":[{"ErrorEquals":["E","F","E","e"]}],"Catch":[{"ErrorEquals":["E","States.Timout","States.Timout"],"Next":"B"}],"Next":"B"},"B":{"Type":"Succeed"}}}"#,
    )?;
    assert_eq!(rt;
        out.as_str(),
        "repeated-error /States/A/Retry/0/ErrorEquals/2\nunknown-error /States/A/Catch/0/ErrorEquals/1\nunknown-error /States/A/Catch/0/ErrorEquals/2\n"
    );
    Ok(())
}

#[test]
fn delays(rt: HostRuntime) -> Result<(), Fail> {
    let out = told(
        rt.alloc(),
        r#"{"StartAt":"A","States":{"A":{"Type":"Task","Resource":"r","Retry":[{"ErrorEquals":["E"],"MaxAttempts":0},{"ErrorEquals":["F"],"MaxAttempts":0e0,"BackoffRate":2},{"ErrorEquals":["G"],"MaxAttempts":1,"IntervalSeconds":6,"MaxDelaySeconds":5},{"ErrorEquals":["H"],"IntervalSeconds":5,"MaxDelaySeconds":5},{"ErrorEquals":["I"],"MaxDelaySeconds":1}],"End":true}}}"#,
    )?;
    assert_eq!(rt;
        out.as_str(),
        "unused-delay /States/A/Retry/1/MaxAttempts\nmax-delay-below-interval /States/A/Retry/2/MaxDelaySeconds\n"
    );
    Ok(())
}

#[test]
fn calls(rt: HostRuntime) -> Result<(), Fail> {
    let out = told(
        rt.alloc(),
        r#"{"StartAt":"A","States":{"A":{"Type":"Pass","Parameters":{"a":"$","b":"$$","c":"States.Format('{}', $.x)","d":"States.UUID()","e":"$[0].x","f":"States.Nothing()","g":"States.Format","h":" $.x","i":"$x","j.$":"$.j"},"End":true}}}"#,
    )?;
    assert_eq!(rt;
        out.as_str(),
        "forgotten-dollar /States/A/Parameters/a\nforgotten-dollar /States/A/Parameters/b\nforgotten-dollar /States/A/Parameters/c\nforgotten-dollar /States/A/Parameters/d\nforgotten-dollar /States/A/Parameters/e\n"
    );
    Ok(())
}

#[test]
fn constants(rt: HostRuntime) -> Result<(), Fail> {
    let out = told(
        rt.alloc(),
        r#"{"StartAt":"A","States":{"A":{"Type":"Pass","Result":{"a":"$.a","b":["States.UUID()","x"],"c.$":{"d":"$.d"},"e":{"f.$":1,"g":"$5","h$":"a.$","i":"$"}},"Next":"B"},"B":{"Type":"Pass","Result":"$.r","Next":"C"},"C":{"Type":"Fail","Error":"States.Format('{}', $.e)","Cause":"$.c"},"D":{"Type":"Fail","Error":"E","Cause":"about $.c"}}}"#,
    )?;
    assert_eq!(rt;
        out.as_str(),
        "not-computed /States/A/Result/a\nnot-computed /States/A/Result/b/0\nnot-computed /States/A/Result/c.$\nnot-computed /States/A/Result/e/f.$\nnot-computed /States/B/Result\nnot-computed /States/C/Error\nnot-computed /States/C/Cause\nunreachable-state /States/D\n"
    );
    Ok(())
}

/// What a state of another type has under these names is a fault alone.
#[test]
fn no_constants(rt: HostRuntime) -> Result<(), Fail> {
    let out = told(
        rt.alloc(),
        r#"{"StartAt":"A","States":{"A":{"Type":"Wait","Seconds":1,"Result":"$.r","Cause":"$.c","Next":"B"},"B":{"Type":"Fail","Result":"$.r"}}}"#,
    )?;
    assert_eq!(rt; out.as_str(), "");
    Ok(())
}

#[test]
fn dollars(rt: HostRuntime) -> Result<(), Fail> {
    let out = told(
        rt.alloc(),
        r#"{"StartAt":"A","States":{"A":{"Type":"Pass","Parameters":{"a":"$.a","b.$":"$.b","c":["$$.Execution.Id","$5"],"d":{"e":"$.e"}},"End":true}}}"#,
    )?;
    assert_eq!(rt;
        out.as_str(),
        "forgotten-dollar /States/A/Parameters/a\nforgotten-dollar /States/A/Parameters/c/0\nforgotten-dollar /States/A/Parameters/d/e\n"
    );
    Ok(())
}

#[test]
fn context(rt: HostRuntime) -> Result<(), Fail> {
    let out = told(
        rt.alloc(),
        r#"{"StartAt":"A","States":{"A":{"Type":"Pass","InputPath":"$$.Execution.Nme","Parameters":{"a.$":"$$.Execution.Input.any[3]","b.$":"$$.Execution.Inputs","c.$":"$$","d.$":"$$.Map.Item.Value.x","e.$":"$.Execution.Nme","f.$":"$$['Execution']['Id']"},"End":true}}}"#,
    )?;
    assert_eq!(rt;
        out.as_str(),
        "unknown-context-member /States/A/InputPath\nunknown-context-member /States/A/Parameters/b.$\n"
    );
    Ok(())
}

/// The warnings of a Pass with this call under `a.$`.
fn told_of_call(alloc: Global, call: &str) -> Result<String, Fail> {
    let mut text = String::new(alloc);
    text.push_str(
        r#"{"StartAt":"A","States":{"A":{"Type":"Pass","End":true,"Parameters":{"a.$":""#,
    )?;
    text.push_str(call)?;
    text.push_str(r#""}}}}"#)?;
    told(alloc, text.as_str())
}

#[test]
fn failing_calls(rt: HostRuntime) -> Result<(), Fail> {
    let failing = [
        "States.Format('{} of {}', $.n)",
        "States.Format('no place', $$.Execution.Id)",
        "States.Format('{}{}', $.a, $.b, $.c)",
        "States.Hash($.t, 'SHA1')",
        "States.JsonMerge($.a, $.b, true)",
        "States.MathAdd($.n, 1.5)",
        "States.MathAdd( $.n , 'one' )",
        "States.ArrayRange(1, $.n, 0)",
        "States.ArrayRange(1, 2000, 1)",
        "States.ArrayPartition($.l, 0)",
        "States.ArrayGetItem($.l, -1)",
        "States.ArrayGetItem(States.Array(1, 2), 2)",
        "States.ArrayLength('text')",
        "States.StringSplit($.t, 44)",
        "States.StringToJson('{')",
        "States.Base64Decode('?')",
        "States.Format('{}', States.Hash($['a, b)'], 'SHA1'))",
        "States.Array($.a, States.JsonMerge($['('], $.b, null))",
    ];
    for call in failing {
        let out = told_of_call(rt.alloc(), call)?;
        assert_eq!(rt; out.as_str(), "failing-call /States/A/Parameters/a.$\n");
    }
    Ok(())
}

/// Calls that come close to those.
#[test]
fn calls_that_may_have_a_value(rt: HostRuntime) -> Result<(), Fail> {
    let fine = [
        "States.Format('{} of {}', $.n, $.all)",
        "States.Format('\\\\{}, {}', $.n)",
        "States.Format($.template, $.n)",
        "States.Hash($.t, 'SHA-384')",
        "States.Hash($.t, $.algorithm)",
        "States.JsonMerge($.a, $.b, false)",
        "States.MathAdd($.n, 1.0)",
        "States.ArrayRange(1, 1000, 1)",
        "States.ArrayRange(9, $.n, -1)",
        "States.ArrayPartition($.l, 1)",
        "States.ArrayGetItem($.l, 0)",
        "States.ArrayGetItem(States.Array(1, 2), 1)",
        "States.StringSplit('a,b', ',')",
        "States.StringToJson('{}')",
        "States.Array()",
    ];
    for call in fine {
        let out = told_of_call(rt.alloc(), call)?;
        assert_eq!(rt; out.as_str(), "");
    }
    Ok(())
}
