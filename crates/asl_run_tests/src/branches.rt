// What the branches of a Parallel are doing, step by step.
use crate::opened::opened;
use crate::shown::{place_of, record_text, view};
use asl_exec::Execution;
use asl_run_branches::Frame;
use asl_time::Moment;
use std::test::Fail;

/// Two branches of a Pass and a Succeed each.
const TWO_BRANCHES: &str =
    r#"{"StartAt":"Q","States":{"Q":{"Type":"Parallel","Branches":[{"StartAt":"A","States":{"A":{"Type":"Pass","Result":"a","Next":"A2"},"A2":{"Type":"Succeed"}}},{"StartAt":"B","States":{"B":{"Type":"Pass","Result":"b","Next":"B2"},"B2":{"Type":"Succeed"}}}],"End":true}}}"#;

/// An execution of the two branches after steps at these places, each of which is accepted.
fn stepped(rt: &HostRuntime, places: &[&str]) -> Result<Execution, Fail> {
    let mut execution = opened(rt, TWO_BRANCHES, "{}")?;
    for text in places {
        let place = place_of(rt.alloc(), text)?;
        execution
            .step(&place, Moment::FIRST)
            .map_err(|_| "refused")?;
    }
    Ok(execution)
}

/// What the branches at these places are doing, a line each.
fn views(rt: &HostRuntime, execution: &Execution, places: &[&str]) -> Result<String, Fail> {
    let mut text = String::new(rt.alloc());
    for place in places {
        text.push_str(&view(rt, execution, place)?)?;
        text.push('\n')?;
    }
    Ok(text)
}

/// Places that are stepped, and what the branches at the root, `/0`, `/1`, `/2` and `/0/0` are doing then.
const VIEWS: &[(&[&str], &str)] = &[
    (&[], "Ready Q {}\nnone\nnone\nnone\nnone\n"),
    (
        &["/"],
        "Forked Q {} 0 [] []\nReady A {}\nReady B {}\nnone\nnone\n",
    ),
    (
        &["/", "/1"],
        "Forked Q {} 0 [] []\nReady A {}\nReady B2 \"b\"\nnone\nnone\n",
    ),
    (
        &["/", "/1", "/0"],
        "Forked Q {} 0 [] []\nReady A2 \"a\"\nReady B2 \"b\"\nnone\nnone\n",
    ),
    (
        &["/", "/0", "/1"],
        "Forked Q {} 0 [] []\nReady A2 \"a\"\nReady B2 \"b\"\nnone\nnone\n",
    ),
    (
        &["/", "/1", "/0", "/0"],
        "Forked Q {} 0 [] []\nDone \"a\"\nReady B2 \"b\"\nnone\nnone\n",
    ),
    (
        &["/", "/1", "/0", "/0", "/1"],
        "Forked Q {} 0 [] []\nDone \"a\"\nDone \"b\"\nnone\nnone\n",
    ),
    (
        &["/", "/1", "/0", "/0", "/1", "/"],
        "Done [\"a\",\"b\"]\nnone\nnone\nnone\nnone\n",
    ),
];

#[test]
fn each_branch_is_viewed_while_it_runs(rt: HostRuntime) -> Result<(), Fail> {
    for (places, wanted) in VIEWS {
        let execution = stepped(&rt, places)?;
        let told = views(&rt, &execution, &["/", "/0", "/1", "/2", "/0/0"])?;
        assert_eq!(rt; told.as_str(), *wanted);
    }
    Ok(())
}

/// Appends the place of a frame, and what its branch is doing.
fn put_frame(rt: &HostRuntime, text: &mut String, frame: &Frame) -> Result<(), Fail> {
    text.push_str(&frame.place().write(rt.alloc())?)?;
    text.push(' ')?;
    text.push_str(&record_text(rt.alloc(), Some(frame.held()))?)?;
    Ok(text.push('\n')?)
}

/// The root and its children, a line each.
fn frames(rt: &HostRuntime, execution: &Execution) -> Result<String, Fail> {
    let mut text = String::new(rt.alloc());
    put_frame(rt, &mut text, execution.root())?;
    for child in execution.root().children() {
        put_frame(rt, &mut text, child.get())?;
    }
    Ok(text)
}

/// Places that are stepped, and the frames that there are then.
const FRAMES: &[(&[&str], &str)] = &[
    (&[], "/ Ready Q {}\n"),
    (
        &["/", "/1"],
        "/ Forked Q {} 0 [] []\n/0 Ready A {}\n/1 Ready B2 \"b\"\n",
    ),
    (
        &["/", "/1", "/0", "/0", "/1", "/"],
        "/ Done [\"a\",\"b\"]\n",
    ),
];

#[test]
fn the_frames_of_the_branches_are_the_root_s_children(rt: HostRuntime) -> Result<(), Fail> {
    for (places, wanted) in FRAMES {
        let execution = stepped(&rt, places)?;
        let told = frames(&rt, &execution)?;
        assert_eq!(rt; told.as_str(), *wanted);
    }
    Ok(())
}
