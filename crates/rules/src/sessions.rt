// A session as document 01's state has it, but for its active roles, which stand in an array of their own.
use places::Position;

#[derive(Clone, Copy)]
pub struct Session {
    pub is_open: bool,
    pub user: u32,
    pub position: Position,
}
