// A name of a variable, as far as its first 16 bytes.
ghost use Rattle.std.specs.Prelude.{◌≡◌, ◌≤◌, length};

#[derive(Clone, Copy)]
pub(crate) struct Name {
    pub(crate) bytes: [u8; 16],
    // How many of them are the name's.
    pub(crate) size: usize,
    ghost wide: { length bytes ≡ 16 },
    ghost short: { size ≤ 16 },
}
