use crate::name::Name;
use room::Room;

// The names of a question's variables, which stay when the question is gone.
#[derive(Drop)]
pub struct Names {
    pub(crate) names: Room<Name, 8>,
}
