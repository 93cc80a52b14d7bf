// Project files: the workflows that they spell, and what is told of those that are refused.
use asl_json::Txt;
use asl_project::{Names, Project, ProjectFault, Spot, place_of};
use std::alloc::Global;
use std::test::Fail;

/// What is told of a text that is no project; nothing of one that is.
fn told(alloc: Global, text: &[u8]) -> Result<String, Fail> {
    match Project::read(alloc, "asl.toml", text) {
        Ok(_) => Ok(String::new(alloc)),
        Err(fault) => Ok(fault.text(alloc)?),
    }
}

fn is_refused(alloc: Global, text: &str, line: &str) -> Result<bool, Fail> {
    Ok(told(alloc, text.as_bytes())?.as_str() == line)
}

fn is_text(text: &Option<Txt>, wanted: &str) -> bool {
    match text {
        Some(text) => text.as_str() == wanted,
        None => false,
    }
}

/// Whether the name of a number, from 0, is this one.
fn name_is(names: &Names, number: usize, wanted: &str) -> bool {
    match names.names().get(number) {
        Some(name) => name.as_str() == wanted,
        None => false,
    }
}

/// The line and the column of what is at a spot of a text, from 1.
fn place(alloc: Global, text: &str, spot: Spot<'_>) -> Option<(u128, u128)> {
    let place = place_of(alloc, text.as_bytes(), &spot).ok()??;
    Some((place.lines as u128 + 1, place.characters as u128 + 1))
}

const ORDER: &str =
    "# Two workflows.\n\n[[workflow]]\ndefinition = \"order/definition.json\"\nmocks = 'order/mocks.json'\nmachine = \"order\"\ntests = [\n  \"order/expectations.json\",\n  \"/else/where.json\",\n]\ninput = \"order/input.json\"\nignore = [\"no-default\"]\n\n[[workflow]]\n  definition = \"refund.json\"\n";

#[test]
fn two_workflows_are_read(rt: HostRuntime) -> Result<(), Fail> {
    let alloc = rt.alloc();
    let Ok(project) = Project::read(alloc, "shop/asl.toml", ORDER.as_bytes()) else {
        return Err("refused".into());
    };
    let [order, refund] = project.workflows.as_slice() else {
        return Err("not two".into());
    };
    assert!(rt; order.definition.as_str() == "shop/order/definition.json");
    assert!(rt; is_text(&order.mocks, "shop/order/mocks.json"));
    assert!(rt; is_text(&order.machine, "order"));
    assert!(rt; order.tests.names().len() == 2);
    assert!(rt; name_is(&order.tests, 0, "shop/order/expectations.json"));
    assert!(rt; name_is(&order.tests, 1, "/else/where.json"));
    assert!(rt; is_text(&order.input, "shop/order/input.json"));
    assert!(rt; order.ignore.names().len() == 1);
    assert!(rt; name_is(&order.ignore, 0, "no-default"));
    assert!(rt; refund.definition.as_str() == "shop/refund.json");
    assert!(rt; refund.mocks.is_none() && refund.machine.is_none() && refund.input.is_none());
    assert!(rt; refund.tests.names().is_empty() && refund.ignore.names().is_empty());
    Ok(())
}

#[test]
fn no_workflow_is_needed(rt: HostRuntime) -> Result<(), Fail> {
    let alloc = rt.alloc();
    for text in ["", "\n# nothing\n", "workflow = []"] {
        assert!(rt; is_refused(alloc, text, "")?);
    }
    // Another spelling of the same table.
    assert!(rt;
        is_refused(
            alloc,
            "workflow = [ { definition = \"a\", machine = \"A\" }, { definition = \"b\" } ]",
            ""
        )?
    );
    Ok(())
}

#[test]
fn each_fault_is_told_at_its_place(rt: HostRuntime) -> Result<(), Fail> {
    let alloc = rt.alloc();
    assert!(rt; is_refused(alloc, "x = ", "K1 Syntax 1:5")?);
    assert!(rt;
        is_refused(
            alloc,
            "[[workflow]]\ndefinition = \"a\"\nmocks = b\n",
            "K1 Syntax 3:9"
        )?
    );
    assert!(rt;
        is_refused(
            alloc,
            "[[workflow]]\ndefinition = \"a\"\n  \tmock = \"b\"\n",
            "K2 Key 3:4"
        )?
    );
    assert!(rt; is_refused(alloc, "title = \"a\"\n", "K2 Key 1:1")?);
    // The header of the workflow that has no definition.
    assert!(rt;
        is_refused(
            alloc,
            "[[workflow]]\ndefinition = \"a\"\n\n # b\n [[workflow]]\nmachine = \"b\"\n",
            "K2 Key 5:2"
        )?
    );
    // Tests need a mock file.
    assert!(rt;
        is_refused(
            alloc,
            "[[workflow]]\ndefinition = \"a\"\ntests = []\n",
            "K2 Key 1:1"
        )?
    );
    assert!(rt;
        is_refused(
            alloc,
            "[[workflow]]\ndefinition = \"a\"\nmocks = \"m\"\ntests = \"b\"\n",
            "K3 Type 4:1"
        )?
    );
    assert!(rt; is_refused(alloc, "[[workflow]]\ndefinition = 1\n", "K3 Type 2:1")?);
    assert!(rt;
        is_refused(
            alloc,
            "[[workflow]]\ndefinition = \"a\"\nignore = [\n  \"x\",\n  1,\n]\n",
            "K3 Type 3:1"
        )?
    );
    assert!(rt; is_refused(alloc, "[workflow]\ndefinition = \"a\"\n", "K3 Type 1:1")?);
    assert!(rt;
        is_refused(
            alloc,
            "[[workflow]]\ndefinition = \"a\"\nmachine = \"A\"\n[[workflow]]\ndefinition = \"b\"\nmachine = 'A'\n",
            "K4 Machine 6:1"
        )?
    );
    Ok(())
}

#[test]
fn least_number_is_told_first(rt: HostRuntime) -> Result<(), Fail> {
    let alloc = rt.alloc();
    // A type and a machine stand before the key, and the key before the text's end.
    let key =
        "[[workflow]]\ndefinition = 1\nmachine = \"A\"\n[[workflow]]\ndefinition = \"a\"\nmachine = \"A\"\nmock = \"b\"\n";
    assert!(rt; is_refused(alloc, key, "K2 Key 7:1")?);
    let kind =
        "[[workflow]]\ndefinition = \"a\"\nmachine = \"A\"\n[[workflow]]\ndefinition = \"b\"\nmachine = \"A\"\ninput = 2024-01-01\n";
    assert!(rt; is_refused(alloc, kind, "K3 Type 7:1")?);
    assert!(rt; is_refused(alloc, "mock = \"b\"\n[[workflow]\n", "K1 Syntax 2:12")?);
    Ok(())
}

#[test]
fn bytes_that_are_no_text_are_told(rt: HostRuntime) -> Result<(), Fail> {
    let alloc = rt.alloc();
    let text = told(alloc, b"[[workflow]]\ndefinition = \"\xC3\xA9\xFF\"\n")?;
    assert_eq!(rt; text.as_str(), "K1 Syntax 2:16");
    Ok(())
}

#[test]
fn members_stand_at_their_keys(rt: HostRuntime) -> Result<(), Fail> {
    let alloc = rt.alloc();
    assert_eq!(rt; place(alloc, ORDER, Spot::Workflow(0)), Some((3, 1)));
    assert_eq!(rt; place(alloc, ORDER, Spot::Member(0, "tests")), Some((7, 1)));
    assert_eq!(rt;
        place(alloc, ORDER, Spot::Member(0, "input")),
        Some((11, 1))
    );
    assert_eq!(rt;
        place(alloc, ORDER, Spot::Member(1, "definition")),
        Some((15, 3))
    );
    assert_eq!(rt; place(alloc, ORDER, Spot::Member(1, "mocks")), None);
    assert_eq!(rt; place(alloc, ORDER, Spot::Member(2, "definition")), None);
    assert_eq!(rt; place(alloc, "no text", Spot::UnknownKey), None);
    // Without a line feed at its end, and with one and a carriage return.
    assert_eq!(rt; place(alloc, "x = 1", Spot::UnknownKey), Some((1, 1)));
    assert_eq!(rt;
        place(alloc, "\r\n\tx = 1\r\n", Spot::UnknownKey),
        Some((2, 2))
    );
    Ok(())
}

#[test]
fn want_of_memory_is_told(rt: HostRuntime) -> Result<(), Fail> {
    assert_eq!(rt;
        ProjectFault::OutOfMemory.text(rt.alloc())?.as_str(),
        "K6 OutOfMemory"
    );
    Ok(())
}
