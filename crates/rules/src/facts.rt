// What a full test reads.
use crate::sessions::Session;

#[derive(Clone, Copy)]
pub struct Facts<'a> {
    // The roles of each user: those that are assigned to him, and those that he holds, lent ones too. `before` reads what is assigned, the
    // other rules on users' roles what is held.
    pub assigned: &'a [u32; 64],
    pub held: &'a [u32; 64],
    // The permissions of each role.
    pub granted: &'a [u32; 32],
    pub sessions: &'a [Session; 32],
    // The active roles of each session.
    pub active: &'a [u32; 32],
    // At o * 32 + p the users who did permission p on object o.
    pub history: &'a [u64; 1024],
    pub time: u64,
}
