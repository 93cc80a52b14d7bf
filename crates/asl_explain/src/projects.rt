// Faults of project files.
ghost use Rattle.std.specs.Prelude.{◌≡◌, map};
ghost use Rattle.asl_explain.specs.Codes.{project_codes, code_of};

use crate::saying::Explanation;

const ALL: &[Explanation] = &[
    Explanation {
        code: "K1",
        name: Some("Syntax"),
        sentence: "the project file is no TOML text",
        text: r#"A project file is a text in UTF-8 and in TOML 1.1 (https://toml.io/en/v1.1.0). The place is where
the reader stopped: the line and the column, from 1.

Wrong:
    [[workflow]]
    definition = order.json
Right:
    [[workflow]]
    definition = "order.json"

Told by check, lint, test, run, debug and explore, where a project names the files.
"#,
    },
    Explanation {
        code: "K2",
        name: Some("Key"),
        sentence: "a key of the project file isn't known, or one is lacking",
        text: r#"At the top of a project file there is workflow alone. A workflow has definition; it may have mocks,
machine, tests, input and ignore, and no other key. Where it has tests, it has mocks, too. The place
is that of the key, or of the header of the workflow that lacks one.

Wrong:
    [[workflow]]
    definition = "order.json"
    mock = "mocks.json"
Right:
    [[workflow]]
    definition = "order.json"
    mocks = "mocks.json"

Told by check, lint, test, run, debug and explore, where a project names the files.
"#,
    },
    Explanation {
        code: "K3",
        name: Some("Type"),
        sentence: "a value of the project file is of another type",
        text: r#"definition, mocks, machine and input are texts, tests and ignore lists of texts, and workflow is a
list of tables, as [[workflow]] begins one. The place is that of the key.

Wrong:
    [[workflow]]
    definition = "order.json"
    ignore = "no-default"
Right:
    [[workflow]]
    definition = "order.json"
    ignore = ["no-default"]

Told by check, lint, test, run, debug and explore, where a project names the files.
"#,
    },
    Explanation {
        code: "K4",
        name: Some("Machine"),
        sentence: "two workflows of the project file are of one machine",
        text: r#"A machine's name stands for its workflow, so no two have one. The place is that of the second name.

Wrong:
    [[workflow]]
    definition = "order.json"
    machine = "order"
    [[workflow]]
    definition = "refund.json"
    machine = "order"
Right:
    [[workflow]]
    definition = "order.json"
    machine = "order"
    [[workflow]]
    definition = "refund.json"
    machine = "refund"

Told by check, lint, test, run, debug and explore, where a project names the files.
"#,
    },
    Explanation {
        code: "K5",
        name: Some("File"),
        sentence: "a file that the project file names can't be read",
        text: r#"Paths go from the folder of the project file. The place is that of the key that names the file.

Told by no command: the command tells the file itself, as fault: file order.json. Programs tell it
that find the place of a key by the library.
"#,
    },
    Explanation {
        code: "K6",
        name: Some("OutOfMemory"),
        sentence: "memory ran out while a project file was read",
        text: r#"It is told as fault: OutOfMemory: see F16.

Told by check, lint, test, run, debug and explore, where a project names the files.
"#,
    },
];

/// The codes of project files, in order.
pub(crate) fn all() -> &'static [Explanation]
    ensures { map code_of result.now ≡ project_codes }
{
    ALL
}
