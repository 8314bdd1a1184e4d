// Files that a command names.
use std::io;

// What was read of a file; none where it cannot be read, and why is told.
pub(crate) fn read_or_tell<T>(
    rt: &HostRuntime,
    path: &str,
    read: io::Result<T>,
) -> io::Result<Option<T>> {
    match read {
        Ok(content) => Ok(Some(content)),
        Err(error) => {
            eprintln!(rt; "formula_station: cannot read {path}: {error}")?;
            Ok(None)
        }
    }
}
