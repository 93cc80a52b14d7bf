// Faults of rules over orders.
ghost use Rattle.std.specs.Prelude.{◌≡◌, map};
ghost use Rattle.asl_explain.specs.Codes.{rule_codes, code_of};

use crate::saying::Explanation;

const ALL: &[Explanation] = &[
    Explanation {
        code: "Q1",
        name: Some("Syntax"),
        sentence: "a rule of --always or --undo isn't written as one",
        text: r#"A rule is made of done("Task"), returned("Task", 2), failed("Task"), invoked("Task"),
status(SUCCEEDED), status(FAILED), status(TIMED_OUT) and error("Name"), of not, and, or and =>, and
of parentheses. A pair of --undo is two names with = between them. Names are JSON texts. The number
is the byte of the rule, from 0, at which it can't go on so.

Wrong:
    --always 'done(Charge) => done(Ship)'
Right:
    --always 'done("Charge") => done("Ship")'

Told by explore, with --errors.
"#,
    },
    Explanation {
        code: "Q2",
        name: Some("NoSuchState"),
        sentence: "a rule names no Task of the definition",
        text: r#"Rules speak of Tasks, since nothing else is invoked. The number is the byte of the rule, from 0, at
which the name begins.

Wrong:
    --undo '"Charge"="Refnud"'
Right:
    --undo '"Charge"="Refund"'

Told by explore, with --errors.
"#,
    },
];

/// The codes of rules, in order.
pub(crate) fn all() -> &'static [Explanation]
    ensures { map code_of result.now ≡ rule_codes }
{
    ALL
}
