// Files beside the project file.
ghost use Rattle.std.specs.Prelude.{◌≡◌, ◌∷◌, ◌++◌, IfOk};
ghost use Rattle.asl_project.specs.Spelled.{is_rooted, beside};

use asl_json::Txt;
use std::alloc::{AllocError, Global};

/// Whether a path goes from no folder.
fn is_rooted(path: &[u8]) -> bool
    ensures { result ≡ is_rooted path.now }
{
    matches!(path, [b'/', ..])
}

/// The name of a file in a folder. The error is that memory ran out.
fn within(alloc: Global, folder: &str, path: &str) -> Result<Txt, AllocError>
    ensures { IfOk result (λ t. t ≡ folder.now ++ (47 ∷ path.now)) }
{
    let mut name = String::from_str(alloc, folder)?;
    name.push('/')?;
    name.push_str(path)?;
    Ok(Txt::new(name))
}

/// The name of a file whose path goes from the folder of another one. The error is that memory ran out.
pub(crate) fn beside(alloc: Global, file: &str, path: &str) -> Result<Txt, AllocError>
    ensures { IfOk result (λ t. t ≡ beside file.now path.now) }
{
    if is_rooted(path.as_bytes()) {
        return Txt::of(alloc, path);
    }
    match file.rsplit_once('/') {
        Some((folder, _)) => within(alloc, folder, path),
        None => Txt::of(alloc, path),
    }
}
