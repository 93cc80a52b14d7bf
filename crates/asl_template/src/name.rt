// Keys of members.
ghost use Rattle.std.specs.Prelude.{◌≡◌, ◌++◌, IfOk, option_map};
ghost use Rattle.asl_template.specs.Names.{mark, name_before};

use asl_json::Txt;
use std::alloc::{AllocError, Global};

/// The name before `.$`, if the key ends so. Once the template is filled, the computed member has this name.
pub fn name_before(key: &str) -> Option<&str>
    ensures { option_map (λ n. n.now) result ≡ name_before key.now }
{
    match key.strip_suffix('$') {
        Some(front) => front.strip_suffix('.'),
        None => None,
    }
}

/// The key of a computed member: its name and `.$`.
pub(crate) fn marked(alloc: Global, name: &str) -> Result<Txt, AllocError>
    ensures { IfOk result (λ k. k ≡ name.now ++ mark) }
{
    let mut key = String::from_str(alloc, name)?;
    key.push_str(".$")?;
    Ok(Txt::new(key))
}
