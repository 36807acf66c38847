use std::io;

/// The kind of error of this name.
pub fn kind_of(name: &str) -> Option<io::ErrorKind> {
    match name {
        "BrokenPipe" => Some(io::ErrorKind::BrokenPipe),
        "InvalidData" => Some(io::ErrorKind::InvalidData),
        "OutOfMemory" => Some(io::ErrorKind::OutOfMemory),
        "PermissionDenied" => Some(io::ErrorKind::PermissionDenied),
        "StorageFull" => Some(io::ErrorKind::StorageFull),
        _ => None,
    }
}
