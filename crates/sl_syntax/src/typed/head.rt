use crate::typed::Callee;
use sl_base::{Items, Place, Site};

/// A call of the library without its operands: what is called, and where; its site, where it can invalidate; the number
/// of the container that it is called on, if there is one; and by argument, of which that container is number 0, the
/// number of its name, where it is a plain name. Behind the last plain name nothing is listed.
#[derive(Drop)]
pub struct Head {
    pub callee: Callee,
    pub place: Place,
    pub site: Option<Site>,
    pub object: Option<u8>,
    pub names: Items<Option<u16>>,
}
