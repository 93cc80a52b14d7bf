// Mock files: what they hold, and which fault is answered.
use asl_json_write::write;
use asl_mock::{Answer, Case, CaseFault, MockFault, Mocks, answer};
use std::alloc::Global;
use std::test::Fail;

/// The text of a fault: its number and its place.
fn refused(alloc: Global, fault: &MockFault) -> Option<String> {
    match fault {
        MockFault::Json(fault) => {
            let text = fault.text(alloc).ok()?;
            format!(in alloc; "M1 {}", text.as_str()).ok()
        }
        MockFault::Shape(place) => format!(in alloc; "M2 {}", place.as_str()).ok(),
        MockFault::Key(place) => format!(in alloc; "M3 {}", place.as_str()).ok(),
        MockFault::Overlap(place) => format!(in alloc; "M4 {}", place.as_str()).ok(),
        MockFault::NoResponse(place) => format!(in alloc; "M5 {}", place.as_str()).ok(),
        MockFault::OutOfMemory => None,
    }
}

fn thrown(alloc: Global, error: &str, cause: Option<&str>) -> Option<String> {
    match cause {
        Some(cause) => format!(in alloc; "throws {error} {cause}").ok(),
        None => format!(in alloc; "throws {error}").ok(),
    }
}

/// The text of an answer.
fn told(alloc: Global, answer: Option<&Answer>) -> Option<String> {
    match answer {
        None => String::from_str(alloc, "none").ok(),
        Some(Answer::Returns(value)) => write(alloc, value).ok(),
        Some(Answer::Throws { error, cause }) => match cause {
            Some(cause) => thrown(alloc, error.as_str(), Some(cause.as_str())),
            None => thrown(alloc, error.as_str(), None),
        },
    }
}

/// What a file answers at a state of a case, or why not.
fn answered(alloc: Global, file: &str, names: (&str, &str, &str), number: u32) -> Option<String> {
    match Mocks::read(alloc, file.as_bytes()) {
        Ok(mocks) => match mocks.case(names.0, names.1) {
            Ok(case) => told(alloc, answer(case, names.2, number)),
            Err(CaseFault::NoMachine) => String::from_str(alloc, "M7").ok(),
            Err(CaseFault::NoCase) => String::from_str(alloc, "M8").ok(),
        },
        Err(fault) => refused(alloc, &fault),
    }
}

/// Whether this text was given.
pub(crate) fn is(given: &Option<String>, wanted: &str) -> bool {
    match given {
        Some(text) => text.as_str() == wanted,
        None => false,
    }
}

const FILE: &str = r#"{"Note":1,
 "StateMachines":{
  "Orders":{"TestCases":{"paid":{"Charge":"Ok","Ship":"Slow"},"refused":{"Charge":"No"}},"Other":[]},
  "Mail":{"TestCases":{"sent":{"Send":"Ok"}}}},
 "MockedResponses":{
  "Ok":{"0":{"Return":{"done":true}}},
  "Slow":{"3-999999999":{"Return":1.50},"0":{"Throw":{"Error":"Timeout"}},"01-2":{"Throw":{"Cause":"late","Error":"E"}}},
  "No":{"0-1":{"Return":null}},
  "Unused":{"7":{"Return":[]}}}}"#;

#[test]
fn a_file_of_two_machines(rt: HostRuntime) -> Result<(), Fail> {
    let alloc = rt.alloc();
    let rows = [
        ("Orders", "paid", "Charge", 0, r#"{"done":true}"#),
        ("Orders", "paid", "Charge", 1, "none"),
        ("Orders", "paid", "Ship", 0, "throws Timeout"),
        ("Orders", "paid", "Ship", 1, "throws E late"),
        ("Orders", "paid", "Ship", 2, "throws E late"),
        ("Orders", "paid", "Ship", 3, "1.50"),
        ("Orders", "paid", "Ship", 999999999, "1.50"),
        ("Orders", "paid", "Ship", 1000000000, "none"),
        ("Orders", "paid", "Send", 0, "none"),
        ("Orders", "refused", "Charge", 1, "null"),
        ("Mail", "sent", "Send", 0, r#"{"done":true}"#),
        ("Mail", "paid", "Send", 0, "M8"),
        ("Letters", "paid", "Send", 0, "M7"),
    ];
    for (machine, case, state, number, wanted) in rows {
        let given = answered(alloc, FILE, (machine, case, state), number);
        assert!(rt; is(&given, wanted));
    }
    Ok(())
}

#[test]
fn faults_at_their_places(rt: HostRuntime) -> Result<(), Fail> {
    let alloc = rt.alloc();
    let rows = [
        ("{}", "M7"),
        ("{", "M1 J1 Syntax 1"),
        ("[]", "M2 "),
        (r#"{"MockedResponses":1}"#, "M2 /MockedResponses"),
        (r#"{"StateMachines":{"M":{}}}"#, "M2 /StateMachines/M"),
        (
            r#"{"StateMachines":{"M":{"TestCases":{"c":{"A/~":1}}}}}"#,
            "M2 /StateMachines/M/TestCases/c/A~1~0",
        ),
        (
            r#"{"MockedResponses":{"R":{"0":{"Return":1,"Throw":{"Error":"E"}}}}}"#,
            "M2 /MockedResponses/R/0",
        ),
        (
            r#"{"MockedResponses":{"R":{"0":{}}}}"#,
            "M2 /MockedResponses/R/0",
        ),
        (
            r#"{"MockedResponses":{"R":{"0":{"Throw":{}}}}}"#,
            "M2 /MockedResponses/R/0/Throw",
        ),
        (
            r#"{"MockedResponses":{"R":{"0":{"Throw":{"Error":1,"Why":2}}}}}"#,
            "M2 /MockedResponses/R/0/Throw",
        ),
        (
            r#"{"MockedResponses":{"R":{"0":{"Throw":{"Error":"E","Cause":2}}}}}"#,
            "M2 /MockedResponses/R/0/Throw/Cause",
        ),
        (
            r#"{"MockedResponses":{"R":{"2-1":{"Return":1}}}}"#,
            "M3 /MockedResponses/R/2-1",
        ),
        (
            r#"{"MockedResponses":{"R":{"1234567890":{"Return":1}}}}"#,
            "M3 /MockedResponses/R/1234567890",
        ),
        (
            r#"{"MockedResponses":{"R":{"":{"Return":1}}}}"#,
            "M3 /MockedResponses/R/",
        ),
        (
            r#"{"MockedResponses":{"R":{"1-2-3":{"Return":1}}}}"#,
            "M3 /MockedResponses/R/1-2-3",
        ),
        (
            r#"{"MockedResponses":{"R":{"0-2":{"Return":1},"02":{"Return":2},"1":{"Return":3}}}}"#,
            "M4 /MockedResponses/R/02",
        ),
        (
            r#"{"StateMachines":{"M":{"TestCases":{"c":{"A":"R"}}}}}"#,
            "M5 /StateMachines/M/TestCases/c/A",
        ),
        (
            r#"{"StateMachines":{"M":{"TestCases":{"c":{"A":"S"}}}},"MockedResponses":{"R":{"1":{"Return":1},"1-2":{"Return":2}},"S":{"x":{"Return":1}}}}"#,
            "M3 /MockedResponses/S/x",
        ),
    ];
    for (file, wanted) in rows {
        let given = answered(alloc, file, ("M", "c", "A"), 0);
        assert!(rt; is(&given, wanted));
    }
    Ok(())
}

/// The file that AWS shows for Step Functions Local, as it stands there.
const AWS: &str = r#"{
  "StateMachines":{
    "LambdaSQSIntegration":{
      "TestCases":{
        "HappyPath":{
          "LambdaState":"MockedLambdaSuccess",
          "SQSState":"MockedSQSSuccess"
        },
        "RetryPath":{
          "LambdaState":"MockedLambdaRetry",
          "SQSState":"MockedSQSSuccess"
        },
        "HybridPath":{
          "LambdaState":"MockedLambdaSuccess"
        }
      }
    }
  },
  "MockedResponses":{
    "MockedLambdaSuccess":{
      "0":{
        "Return":{
          "StatusCode":200,
          "Payload":{
            "StatusCode":200,
            "body":"Hello from Lambda!"
          }
        }
      }
    },
    "LambdaMockedResourceNotReady":{
      "0":{
        "Throw":{
          "Error":"Lambda.ResourceNotReadyException",
          "Cause":"Lambda resource is not ready."
        }
      }
    },
    "MockedSQSSuccess":{
      "0":{
        "Return":{
          "MD5OfMessageBody":"3bcb6e8e-7h85-4375-b0bc-1a59812c6e51",
          "MessageId":"3bcb6e8e-8b51-4375-b0bc-1a59812c6e51"
        }
      }
    },
    "MockedLambdaRetry":{
      "0":{
        "Throw":{
          "Error":"Lambda.ResourceNotReadyException",
          "Cause":"Lambda resource is not ready."
        }
      },
      "1-2":{
        "Throw":{
          "Error":"Lambda.TimeoutException",
          "Cause":"Lambda timed out."
        }
      },
      "3":{
        "Return":{
          "StatusCode":200,
          "Payload":{
            "StatusCode":200,
            "body":"Hello from Lambda!"
          }
        }
      }
    }
  }
}"#;

#[test]
fn the_file_that_aws_shows(rt: HostRuntime) -> Result<(), Fail> {
    let alloc = rt.alloc();
    let hello = r#"{"StatusCode":200,"Payload":{"StatusCode":200,"body":"Hello from Lambda!"}}"#;
    let not_ready = "throws Lambda.ResourceNotReadyException Lambda resource is not ready.";
    let timed_out = "throws Lambda.TimeoutException Lambda timed out.";
    let sent =
        r#"{"MD5OfMessageBody":"3bcb6e8e-7h85-4375-b0bc-1a59812c6e51","MessageId":"3bcb6e8e-8b51-4375-b0bc-1a59812c6e51"}"#;
    let rows = [
        ("HappyPath", "LambdaState", 0, hello),
        ("HappyPath", "LambdaState", 1, "none"),
        ("HappyPath", "SQSState", 0, sent),
        ("RetryPath", "LambdaState", 0, not_ready),
        ("RetryPath", "LambdaState", 1, timed_out),
        ("RetryPath", "LambdaState", 2, timed_out),
        ("RetryPath", "LambdaState", 3, hello),
        ("RetryPath", "LambdaState", 4, "none"),
        ("HybridPath", "LambdaState", 0, hello),
        ("HybridPath", "SQSState", 0, "none"),
        ("SadPath", "LambdaState", 0, "M8"),
    ];
    for (case, state, number, wanted) in rows {
        let given = answered(alloc, AWS, ("LambdaSQSIntegration", case, state), number);
        assert!(rt; is(&given, wanted));
    }
    Ok(())
}

/// A fault's own text.
fn fault_text(alloc: Global, file: &str) -> Option<String> {
    Mocks::read(alloc, file.as_bytes()).err()?.text(alloc).ok()
}

#[test]
fn faults_have_their_texts(rt: HostRuntime) {
    let alloc = rt.alloc();
    let rows = [
        ("{", "M1 Json J1 Syntax 1"),
        ("[]", "M2 Shape"),
        (
            r#"{"MockedResponses":{"R":{"0":{}}}}"#,
            "M2 Shape /MockedResponses/R/0",
        ),
        (
            r#"{"MockedResponses":{"r/s":{"2-1":{"Return":1}}}}"#,
            "M3 Key /MockedResponses/r~1s/2-1",
        ),
        (
            r#"{"MockedResponses":{"":{"0-2":{"Return":1},"2":{"Return":2}}}}"#,
            "M4 Overlap /MockedResponses//2",
        ),
        (
            r#"{"StateMachines":{"M":{"TestCases":{"c":{"A":"R"}}}}}"#,
            "M5 NoResponse /StateMachines/M/TestCases/c/A",
        ),
    ];
    for (file, wanted) in rows {
        assert!(rt; is(&fault_text(alloc, file), wanted), "{wanted}");
    }
    assert_eq!(rt; CaseFault::NoMachine.text(), "M7 NoMachine");
    assert_eq!(rt; CaseFault::NoCase.text(), "M8 NoCase");
}

/// The cases of one machine: "whole" and those that are, or aren't, equal to it.
const ALIKE: &str = r#"{
 "StateMachines":{
  "M":{"TestCases":{
   "whole":{"A":"R","B":"E"},
   "same":{"A":"R","B":"E"},
   "copy":{"A":"Again","B":"E"},
   "turned":{"B":"E","A":"R"},
   "shorter":{"A":"R"},
   "renamed":{"A":"R","C":"E"},
   "spelled":{"A":"Spelled","B":"E"},
   "wider":{"A":"Wider","B":"E"},
   "split":{"A":"Split","B":"E"},
   "error":{"A":"R","B":"Error"},
   "cause":{"A":"R","B":"Cause"},
   "returned":{"A":"R","B":"R"},
   "none":{}}}},
 "MockedResponses":{
  "R":{"0-1":{"Return":{"a":1.5}},"3":{"Throw":{"Error":"E"}}},
  "Again":{"03":{"Throw":{"Error":"E"}},"00-01":{"Return":{"a":1.5}}},
  "Spelled":{"0-1":{"Return":{"a":1.50}},"3":{"Throw":{"Error":"E"}}},
  "Wider":{"0-2":{"Return":{"a":1.5}},"3":{"Throw":{"Error":"E"}}},
  "Split":{"0":{"Return":{"a":1.5}},"1":{"Return":{"a":1.5}},"3":{"Throw":{"Error":"E"}}},
  "E":{"0":{"Throw":{"Error":"E","Cause":"late"}}},
  "Error":{"0":{"Throw":{"Error":"F","Cause":"late"}}},
  "Cause":{"0":{"Throw":{"Error":"E","Cause":"early"}}}}}"#;

/// Whether a case is equal to the one that is named `whole`, and that one to it; none where the two answers differ.
fn is_whole(one: &Mocks, other: &Mocks, name: &str) -> Option<bool> {
    let whole = one.case("M", "whole").ok()?;
    let case = other.case("M", name).ok()?;
    let answer = *whole == *case;
    if (*case == *whole) == answer {
        Some(answer)
    } else {
        None
    }
}

#[test]
fn equal_cases(rt: HostRuntime) -> Result<(), Fail> {
    let alloc = rt.alloc();
    let rows = [
        ("whole", true),
        ("same", true),
        ("copy", true),
        ("turned", false),
        ("shorter", false),
        ("renamed", false),
        ("spelled", false),
        ("wider", false),
        ("split", false),
        ("error", false),
        ("cause", false),
        ("returned", false),
        ("none", false),
    ];
    // Two readings share nothing.
    match (
        Mocks::read(alloc, ALIKE.as_bytes()),
        Mocks::read(alloc, ALIKE.as_bytes()),
    ) {
        (Ok(one), Ok(other)) => {
            for (name, wanted) in rows {
                assert!(rt; is_whole(&one, &other, name) == Some(wanted), "{name}");
            }
        }
        _ => assert!(rt; false),
    }
    Ok(())
}

/// Whether a case and its copy are equal.
fn has_equal_copy(case: &Case) -> bool {
    match case.try_clone() {
        Ok(copy) => *case == copy,
        Err(_) => false,
    }
}

#[test]
fn copies_and_empty_cases_are_equal(rt: HostRuntime) -> Result<(), Fail> {
    let alloc = rt.alloc();
    let empty = Case::empty();
    assert!(rt; has_equal_copy(&empty));
    match Mocks::read(alloc, ALIKE.as_bytes()) {
        Ok(mocks) => match (mocks.case("M", "whole"), mocks.case("M", "none")) {
            (Ok(whole), Ok(none)) => {
                assert!(rt; has_equal_copy(whole));
                assert!(rt; has_equal_copy(none));
                // The case that names no state is the empty one.
                assert!(rt; *none == empty && empty == *none);
                assert!(rt; *whole != empty && empty != *whole);
            }
            _ => assert!(rt; false),
        },
        Err(_) => assert!(rt; false),
    }
    Ok(())
}
