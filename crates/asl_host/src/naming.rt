// Names of files that stand in files.
ghost use Rattle.std.specs.Prelude.{◌≡◌, IfOk, string_bytes};
ghost use Rattle.asl_host.specs.Naming.{beside};

use crate::files::is_text;
use std::alloc::{AllocError, Global};
use std::path::Path;

/// The name of a file that is named in another one, as it is read: it goes from the other one's folder, unless it begins with a slash. A
/// text in place of a file has no folder.
pub fn beside(alloc: Global, file: &str, name: &str) -> Result<String, AllocError>
    ensures { IfOk result (λ t. string_bytes t ≡ beside file.now name.now) }
{
    if is_text(file) {
        return String::from_str(alloc, name);
    }
    let path = Path::new(file).with_file_name(alloc, name)?;
    Ok(path.into_string())
}
