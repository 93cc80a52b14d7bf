// Which test case a word chooses.
ghost use Rattle.std.specs.Prelude.{◌≡◌, IfOk, string_bytes, option_map};
ghost use Rattle.asl_json.specs.View.{data_of, members_of};
ghost use Rattle.asl_mock.specs.Chosen.{has_mark, has_in, has_case, with_machine, of_machine, of_machines, IsChosen};

use asl_json::{Json, Member};
use asl_json_read::{JsonFault, read};
use std::alloc::{AllocError, Global};

/// Whether a name has a `#`.
fn has_mark(name: &str) -> bool
    ensures { result ≡ has_mark name.now }
{
    name.as_bytes().iter().any(|byte| *byte == b'#')
}

/// Whether an object, where there is one, has a member of this name.
fn has_in(object: Option<&Json>, name: &str) -> bool
    ensures { result ≡ has_in (option_map (λ v. data_of v.now) object.entry) name.now }
{
    match object {
        Some(object) => object.get(name).is_some(),
        None => false,
    }
}

/// Whether a machine has a test case of this name.
fn has_case(machine: &Json, name: &str) -> bool
    ensures { result ≡ has_case (data_of machine.now) name.now }
{
    has_in(machine.get("TestCases"), name)
}

/// A test case behind its machine's name. The error is that memory ran out.
fn with_machine(alloc: Global, machine: &str, case: &str) -> Result<String, AllocError>
    ensures { IfOk result (λ t. string_bytes t ≡ with_machine machine.now case.now) }
{
    let mut chosen = String::from_str(alloc, machine)?;
    chosen.push('#')?;
    chosen.push_str(case)?;
    Ok(chosen)
}

/// What a word without a `#` chooses of the only machine. The error is that memory ran out.
fn of_machine(alloc: Global, name: &str, machine: &Json, word: &str) -> Result<String, AllocError>
    ensures { IfOk result (λ t. string_bytes t
        ≡ of_machine name.now (data_of machine.now) word.now) }
{
    if name == word || has_mark(name) || !has_case(machine, word) {
        return String::from_str(alloc, word);
    }
    with_machine(alloc, name, word)
}

/// What a word without a `#` chooses of these machines. The error is that memory ran out.
fn of_machines(alloc: Global, machines: &[Member], word: &str) -> Result<String, AllocError>
    ensures { IfOk result (λ t. string_bytes t
        ≡ of_machines (members_of machines.now) word.now) }
{
    match machines {
        [machine] => of_machine(alloc, machine.key.as_str(), &machine.value, word),
        _ => String::from_str(alloc, word),
    }
}

/// What a word chooses of a mock file, as `Machine#Case`: the word as it stands where it has a `#`; where it is the name of a test case of the
/// only machine of the file, and not that machine's own name, this case of it; and the word as it stands in any other case. (AWS Step Functions,
/// "Mocked service integrations".) The error is that memory ran out.
pub fn chosen(alloc: Global, mocks: &[u8], word: &str) -> Result<String, AllocError>
    ensures { IfOk result (λ t. IsChosen mocks.now word.now (string_bytes t)) }
{
    if has_mark(word) {
        return String::from_str(alloc, word);
    }
    match read(alloc, mocks) {
        Ok(file) => of_machines(alloc, file.members_at("StateMachines"), word),
        Err(JsonFault::OutOfMemory) => Err(AllocError),
        Err(_) => String::from_str(alloc, word),
    }
}
