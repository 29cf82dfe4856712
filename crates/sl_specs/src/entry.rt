use crate::call::Call;
use crate::class::Class;
use crate::letter::Letter;
use crate::need::Need;
use crate::return_type::ReturnType;
use sl_base::Form;

/// What typing asks of a call.
#[derive(Clone, Copy)]
pub struct Signature {
    pub letters: &'static [Letter],
    pub gives: ReturnType,
    /// Whether the call changes its object. A constructor makes its object and an algorithm has none: they don't.
    pub changes: bool,
}

/// A line of the table: a call of a form of container, or of an algorithm, with one list of arguments.
#[derive(Clone, Copy)]
pub struct Entry {
    /// The form of the object; an algorithm has none.
    pub form: Option<Form>,
    pub call: Call,
    /// The place, from 0, of its list of arguments among those of this call of this form.
    pub shape: u8,
    pub signature: Signature,
    pub needs: &'static [Need],
    pub kills: Class,
}
