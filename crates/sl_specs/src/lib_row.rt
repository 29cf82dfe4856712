use crate::class::Class;
use crate::needs::Needs;
use sl_base::{Form, Name};

/// A row of the library: a call of a form of container, or of an algorithm, with one list of arguments.
#[derive(Drop)]
pub struct LibRow {
    /// Its place in the table, from 0.
    pub number: u16,
    /// The form of the object; an algorithm has none.
    pub form: Option<Form>,
    pub call: Name,
    /// The place, from 0, of its list of arguments among those of this call of this form; 0 for an algorithm.
    pub shape: u8,
    pub needs: Needs,
    pub kills: Class,
}
