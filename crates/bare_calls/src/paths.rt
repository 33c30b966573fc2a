// How paths are joined. This file makes no system call.
ghost use Rattle.std.specs.Prelude.{◌≡◌, IfOk, string_bytes};
ghost use Rattle.bare_calls.specs.Paths.{below, program_from};

use std::alloc::{AllocError, Global};

/// Returns the path of a name, or of a relative path, in a folder.
///
/// # Errors
///
/// Returns `AllocError` if memory runs out.
pub fn path_in(alloc: Global, folder: &str, name: &str) -> Result<String, AllocError>
    ensures { IfOk result (λ p. string_bytes p ≡ below folder.now name.now) }
{
    format!(in alloc; "{folder}/{name}")
}

/// Returns a program's path for the system. A path that begins with a slash stays as it is. Any other is joined to
/// `base`.
pub(crate) fn program_from(alloc: Global, base: &str, program: &str) -> Result<String, AllocError>
    ensures { IfOk result (λ p. string_bytes p ≡ program_from base.now program.now) }
{
    if program.starts_with('/') {
        String::from_str(alloc, program)
    } else {
        path_in(alloc, base, program)
    }
}

/// Returns the path of this name in the same folder as another path.
pub(crate) fn path_beside(alloc: Global, name: &str, path: &str) -> Result<String, AllocError> {
    match path.rsplit_once('/') {
        Some((folder, _)) => path_in(alloc, folder, name),
        None => String::from_str(alloc, name),
    }
}
