// Faults of JSON texts.
ghost use Rattle.std.specs.Prelude.{◌≡◌, map};
ghost use Rattle.asl_explain.specs.Codes.{json_codes, code_of};

use crate::saying::Explanation;

const ALL: &[Explanation] = &[
    Explanation {
        code: "J1",
        name: Some("Syntax"),
        sentence: "a text stops being JSON at this byte",
        text: r#"The number behind it is the byte, from 0, at which no JSON text goes on so, or the length of a
text that ends too early. (RFC 8259, sections 2 to 7.) Usual reasons are a comma behind the last
item, a comment, single quotes, a name without quotes, a number as 01 or .5, or a closing bracket
that lacks.

Wrong:
    {"order": 17,}
Right:
    {"order": 17}

Told by run, debug, explore and graph --run of an input; behind F1, M1 and X1 of other files.
"#,
    },
    Explanation {
        code: "J2",
        name: Some("Duplicate"),
        sentence: "an object has one key twice",
        text: r#"RFC 8259, section 4, wants the names of an object to be unique, since programs disagree on which
of two counts. Keys are compared after their escapes are read. Take one out: the byte is that of
the second.

Wrong:
    {"order": 17, "order": 18}
Right:
    {"order": 18}

Told by run, debug, explore and graph --run of an input; behind F1, M1 and X1 of other files.
"#,
    },
    Explanation {
        code: "J3",
        name: Some("Depth"),
        sentence: "more than 64 lists and objects stand inside each other",
        text: r#"The byte is that of the bracket which opens level 65. Text that was made by a program may have
wrapped a value again and again; else put the inner part into a text of its own and read it by
States.StringToJson.

Told by run, debug, explore and graph --run of an input; behind F1, M1 and X1 of other files.
"#,
    },
    Explanation {
        code: "J4",
        name: Some("Number"),
        sentence: "a number is beyond the limits",
        text: r#"asl computes with exact decimal numbers: below 10^18 in amount, at most nine digits behind the
point, at most 40 bytes. Write greater ones, as identifiers often are, as texts.

Wrong:
    {"account": 1000000000000000000}
Right:
    {"account": "1000000000000000000"}

Told by run, debug, explore and graph --run of an input; behind F1, M1 and X1 of other files.
"#,
    },
    Explanation {
        code: "J5",
        name: Some("Size"),
        sentence: "a text has more than 1,048,576 bytes",
        text: r#"Each definition, mock file, input and expectation file has at most 1 MiB. In the service an input
has at most 262,144 bytes, and a definition 1 MB. (Developer Guide, "Step Functions service
quotas".)

Told by run, debug, explore and graph --run of an input; behind F1, M1 and X1 of other files.
"#,
    },
    Explanation {
        code: "J6",
        name: Some("Utf8"),
        sentence: "a byte is no part of a text in UTF-8",
        text: r#"The number is the first such byte, from 0. Save the file in UTF-8, without a byte order mark:
editors on Windows often write Latin-1 or UTF-16. (RFC 8259, section 8.1.)

Told by run, debug, explore and graph --run of an input; behind F1, M1 and X1 of other files.
"#,
    },
    Explanation {
        code: "J7",
        name: Some("OutOfMemory"),
        sentence: "memory ran out while a text was read",
        text: r#"It is told as fault: OutOfMemory: see F16.

Told by run, debug, explore and graph --run of an input; behind F1, M1 and X1 of other files.
"#,
    },
];

/// The codes of JSON texts, in order.
pub(crate) fn all() -> &'static [Explanation]
    ensures { map code_of result.now ≡ json_codes }
{
    ALL
}
