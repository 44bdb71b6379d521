// A page file.
ghost use Rattle.std.specs.Prelude.{◌≤◌, length};

// The file as it was given; nothing of it is copied.
#[derive(Drop)]
pub struct Pages<'a> {
    pub(crate) file: &'a [u8],
    ghost short: { length file.now ≤ 65536 },
}

// A file that is longer than 65,536 bytes. The one reason for which a file is refused: an enum of one variant would be no plainer.
#[derive(Clone, Copy)]
pub struct TooLong {
    pub length: usize,
}
