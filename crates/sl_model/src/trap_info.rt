use sl_base::{Name, Place, Site};

/// A failed need of a call, or the use of an invalid reference: its place, its kind, which is one of
/// `sl_base::failures`, the call's name, the argument from 1, where 0 is the object; and the argument's name and the
/// site that dropped the iterator or the reference, where it has these.
#[derive(Drop)]
pub struct TrapInfo {
    pub place: Place,
    pub kind: u8,
    pub call: Name,
    pub argument: u8,
    pub name: Option<Name>,
    pub killer: Option<Site>,
}
