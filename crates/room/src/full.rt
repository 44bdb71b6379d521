// There is no room for what was to be kept.
#[derive(Clone, Copy, Debug)]
pub struct Full;
