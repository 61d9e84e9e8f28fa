//! Names in fields of fixed size.
ghost use Rattle.std.specs.Prelude.{◌≡◌, ◌≤◌, ◌↔◌, length, IsTrue};
ghost use Rattle.desk_io.specs.Names.{text_of};

/// A name of at most 255 bytes: the first `len` of these.
#[derive(Clone, Copy, Drop)]
pub(crate) struct ShortName {
    bytes: [u8; 255],
    len: u8,
}

impl ShortName {
    pub(crate) const EMPTY: ShortName = ShortName {
        bytes: [0; 255],
        len: 0,
    };
}

pub(crate) fn short_name(name: &str) -> ShortName
    requires { length name.now ≤ 255 }
    ensures { text_of result ≡ name.now }
{
    let mut bytes = [0u8; 255];
    let len = name.len();
    bytes[..len].copy_from_slice(name.as_bytes());
    ShortName {
        bytes,
        len: len as u8,
    }
}

/// Whether it spells this name.
pub(crate) fn spells(short: &ShortName, name: &str) -> bool
    ensures { IsTrue result ↔ (text_of short.now ≡ name.now) }
{
    let len = short.len as usize;
    &short.bytes[..len] == name.as_bytes()
}
