//! The names that a file system may look up as they are.

ghost use Rattle.std.specs.Prelude.{◌≡◌};
ghost use Rattle.fs_chain_c.specs.Names.{is_dots, is_name};

// Whether a name is empty, `.` or `..`.
fn is_dots(name: &[u8]) -> bool
    ensures { result ≡ is_dots name.now }
{
    match name.len() {
        0 => true,
        1 => name[0] == b'.',
        2 => name[0] == b'.' && name[1] == b'.',
        _ => false,
    }
}

/// Whether a name is one component of a path.
pub fn is_name(name: &[u8]) -> bool
    ensures { result ≡ is_name name.now }
{
    !is_dots(name) && !name.contains(&0) && !name.contains(&b'/')
}
